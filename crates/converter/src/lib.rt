// What the programs `to1` and `to2` are, but for the form that they convert to: the journal of an input is converted, and the result written to
// an output; what became of it is said in a line.
//
// The journal comes from a reader and the result goes to a writer, so that the contracts can speak of their bytes, as in `runner`.
#![tactic(auto)]

ghost use Rattle.converter.specs.{Refusal.RefusalLine, Written.IsConversion, Report.Reports};
ghost use Rattle.runner.specs.Runs.{Runs};

use convert::To;
use grammar::Refusal;
use runner::Fault;
use std::io;
use std::io::{Read, Write};

// Converts the journal of an input to a form, and writes the result to an output. A read that fails is no end: nothing is converted then.
pub fn convert_journal<R: Read, W: Write>(
    to: To,
    input: &mut R,
    output: &mut W,
) -> Result<Result<usize, Refusal>, Fault>
    ensures { Runs (IsConversion to) (R.remaining input.old) (R.remaining input.new) (W.contents output.old) (W.contents output.new) result }
{
    let mut journal = [0u8; 65537];
    let mut out = [0u8; 65536];
    let n = runner::read_input(input, &mut journal).map_err(Fault::Reading)?;
    let converted = convert::convert(to, &journal[..n], &mut out);
    match converted {
        Ok(end) => {
            runner::write_all(output, &out[..end]).map_err(Fault::Writing)?;
            Ok(converted)
        }
        Err(_) => Ok(converted),
    }
}

// The line of a refusal, `refused=14`, at the end of a buffer; the answer is where it starts. The digits of a number come last
// digit first, and so does the line. It takes a number: `RefusalLine` is promised for every one.
pub fn put_refusal(line: &mut [u8; 32], number: u32) -> usize
    ensures { RefusalLine number line.new result }
{
    spelling::put_text(line, 31, b"\n");
    let digits = spelling::put_number_before(line, 31, number as u64);
    let start = digits - 8;
    spelling::put_text(line, start, b"refused=");
    start
}

// Says in a line why there is no result: the number of a refusal, or which program failed, at what, and why. Of a result nothing is said.
pub fn report<W: Write>(
    err: &mut W,
    program: &[u8],
    outcome: Result<Result<usize, Refusal>, Fault>,
) -> io::Result<()>
    ensures { Reports (W.contents err.old) (W.contents err.new) program.now outcome result }
{
    match outcome {
        Ok(Ok(_)) => Ok(()),
        Ok(Err(refusal)) => {
            let mut line = [0u8; 32];
            let start = put_refusal(&mut line, u32::from(refusal.number()));
            runner::write_all(err, &line[start..])
        }
        Err(fault) => runner::complain(err, program, fault),
    }
}
