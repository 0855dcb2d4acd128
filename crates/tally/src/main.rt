// Plays the journal of standard input as `steps` does, and writes the tally of its traffic to standard output: one line.
//
// A read that fails is no end: nothing is written then. That a read or a write failed, and why, is one line on standard
// error.
#![tactic(auto)]

ghost use Rattle.tally.specs.Line.{LineOf, Tallies};

use runner::Fault;
use std::io::{Read, Write};

// The line of a journal's tally, at the start of a buffer: how many bytes it has.
fn put_line(journal: &[u8], line: &mut [u8; 256]) -> usize
    ensures { LineOf journal.now line.new result }
{
    // The line has at most 191 bytes, so there is room.
    listing::put_tally(line, 0, whole::tally(journal)).unwrap_or(0)
}

// Plays the journal of an input and writes its tally to an output.
fn tally<R: Read, W: Write>(input: &mut R, output: &mut W) -> Result<(), Fault>
    ensures { Tallies (R.remaining input.old) (R.remaining input.new) (W.contents output.old) (W.contents output.new) result }
{
    let mut journal = [0u8; 65537];
    let mut line = [0u8; 256];
    let n = runner::read_input(input, &mut journal).map_err(Fault::Reading)?;
    let end = put_line(&journal[..n], &mut line);
    runner::write_all(output, &line[..end]).map_err(Fault::Writing)
}

// The status is 0 also where something failed. Where standard error does not take the line, there is nothing left to say it with.
fn main(rt: HostRuntime) {
    if let Err(fault) = tally(&mut rt.stdin(), &mut rt.stdout()) {
        let _ = runner::complain(&mut rt.stderr(), b"tally", fault);
    }
}
