// Plays the journal of standard input and writes its listing to standard output.
//
// A read that fails is no end: nothing is listed then. That a read or a write failed, and why, is one
// line on standard error.
#![tactic(auto)]

ghost use Rattle.steps.specs.Listed.{Lists};

use runner::{Fault, Texts};
use std::io::{Read, Write};

// Plays the journal of an input and writes its listing to an output.
fn list<R: Read, W: Write>(input: &mut R, output: &mut W) -> Result<(), Fault>
    ensures { Lists (R.remaining input.old) (R.remaining input.new) (W.contents output.old) (W.contents output.new) result }
{
    let mut journal = [0u8; 65537];
    let n = runner::read_input(input, &mut journal).map_err(Fault::Reading)?;
    runner::play_whole(&journal[..n], Texts::Written, output).map_err(Fault::Writing)?;
    Ok(())
}

// The status is 0 also where something failed. Where standard error does not take the line, there is nothing left to say it with.
fn main(rt: HostRuntime) {
    if let Err(fault) = list(&mut rt.stdin(), &mut rt.stdout()) {
        let _ = runner::complain(&mut rt.stderr(), b"steps", fault);
    }
}
