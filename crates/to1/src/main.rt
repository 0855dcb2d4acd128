// Converts the `fabric=2` journal of standard input to one of `fabric=1`, which it writes to standard output. Of a journal that
// has none, the number of the refusal is one line on standard error, and nothing is on standard output.
//
// A read that fails is no end: nothing is converted then. That a read or a write failed, and why, is one line on
// standard error.
#![tactic(auto)]

ghost use Rattle.convert.specs.declared.To.TheVariants.{First};
ghost use Rattle.converter.specs.Written.{IsConversion};
ghost use Rattle.runner.specs.Runs.{Runs};

use convert::To;
use grammar::Refusal;
use runner::Fault;
use std::io::{Read, Write};

// Converts the journal of an input to `fabric=1`, and writes the result to an output.
fn convert_journal<R: Read, W: Write>(
    input: &mut R,
    output: &mut W,
) -> Result<Result<usize, Refusal>, Fault>
    ensures { Runs (IsConversion First) (R.remaining input.old) (R.remaining input.new) (W.contents output.old) (W.contents output.new) result }
{
    converter::convert_journal(To::First, input, output)
}

// The status is 0 also where something failed. Where standard error does not take a line, there is nothing left to say it with.
fn main(rt: HostRuntime) {
    let outcome = convert_journal(&mut rt.stdin(), &mut rt.stdout());
    let _ = converter::report(&mut rt.stderr(), b"to1", outcome);
}
