// The programs' way to standard input, standard output and standard error: bytes that a reader gives are read into a buffer, bytes of a
// buffer are written to a writer, and what failed is said in a line. Over a reader and a writer whose bytes are known the contracts say
// which bytes were taken and given, also where a read or a write fails.
ghost use Rattle.std.specs.Prelude.{◌≤◌, ◌++◌, length};
ghost use Rattle.runner.specs.{Input.ReadInto, Moved.{Took, Gave}, Complaint.{said, line, SaysWhy}};

use std::io;
use std::io::{Cursor, ErrorKind, Read, Write};

// What failed in a program, and why: reading its input, or writing its output.
#[derive(Clone, Copy)]
pub enum Fault {
    Reading(io::Error),
    Writing(io::Error),
}

// How many reads that a signal interrupts are tried again.
const MOST_RETRIES: usize = 1000;

// Reads into buf, until the input ends or buf is full. Each pass of the loop reads a byte or more, or is one of the retries. The library's
// `read_to_end` does not say what was read before an error, as `Took` does.
pub(crate) fn read_all<R: Read>(input: &mut R, buf: &mut [u8]) -> io::Result<usize>
    ensures count { ReadInto result buf.new }
    ensures bytes { Took (R.remaining input.old) (R.remaining input.new) result buf.new }
{
    let mut done = 0;
    let mut retries = MOST_RETRIES;
    while done < buf.len() {
        match input.read(&mut buf[done..]) {
            Ok(0) => return Ok(done),
            Ok(n) => done += n,
            Err(e) => {
                if e.kind() != ErrorKind::Interrupted || retries == 0 {
                    return Err(e);
                }
                retries -= 1;
            }
        }
    }
    Ok(done)
}

// Writes all of a text, or stops at the first write that takes nothing or fails, also where a signal interrupted it. The library's
// `write_all` does not say what was written before an error, as `Gave` does.
pub fn write_all<W: Write>(out: &mut W, text: &[u8]) -> io::Result<()>
    ensures bytes { Gave (W.contents out.old) (W.contents out.new) result text.now }
{
    let mut done = 0;
    while done < text.len() {
        let n = out.write(&text[done..])?;
        if n == 0 {
            return Err(io::Error::new(ErrorKind::WriteZero, "nothing was written"));
        }
        done += n;
    }
    Ok(())
}

// Where the words of an error end, in its text: those of the system have a number behind them, in brackets.
fn words_end(text: &[u8], why: io::Error) -> usize
    ensures { result ≤ length text.now }
{
    if why.raw_os_error().is_none() {
        return text.len();
    }
    match text.iter().rposition(|b| *b == b'(') {
        Some(at) => at.saturating_sub(1),
        None => text.len(),
    }
}

// A line of three parts: nothing more is written after a write that fails.
fn say<W: Write>(err: &mut W, program: &[u8], what: &[u8], words: &[u8]) -> io::Result<()>
    ensures { Gave (W.contents err.old) (W.contents err.new) result (line (program.now ++ what.now) words.now) }
{
    write_all(err, program)?;
    write_all(err, what)?;
    write_all(err, words)?;
    write_all(err, b"\n")
}

// Says in a line which program failed, at what, and why.
fn say_why<W: Write>(err: &mut W, program: &[u8], what: &[u8], why: io::Error) -> io::Result<()>
    ensures { SaysWhy (W.contents err.old) (W.contents err.new) result (program.now ++ what.now) }
{
    let mut text = Cursor::new([0u8; 256]);
    let _ = write!(text, "{why}");
    let end = (text.position() as usize).min(256);
    let words = text.into_inner();
    let shown = words_end(&words[..end], why);
    say(err, program, what, &words[..shown])
}

// Says in a line which program failed, at what, and why: `steps: cannot read standard input: Is a directory`.
pub fn complain<W: Write>(err: &mut W, program: &[u8], fault: Fault) -> io::Result<()>
    ensures { SaysWhy (W.contents err.old) (W.contents err.new) result (program.now ++ said fault) }
{
    match fault {
        Fault::Reading(why) => say_why(err, program, b": cannot read standard input: ", why),
        Fault::Writing(why) => say_why(err, program, b": cannot write standard output: ", why),
    }
}
