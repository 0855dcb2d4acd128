// The refusals because of the input as code, 13 and 1 to 6, and what a refused call makes of its pieces. A row
// decides 20 and up itself.
//
// The first number that applies, or none, for any values at all; and whether 1 or 2 applies
// by itself. All equal the definitions of `protocol`.
#![tactic(auto)]

mod input;

ghost use Rattle.std.specs.Prelude.{◌≡◌};
ghost use Rattle.protocol.specs.Tables.{refused_row};

pub use input::{call_refusal, input_refusal, lengths_fit, machine_refusal, state_fits};
use protocol::{Answer, Effect, Move, Pieces};

// A refusal: the pieces stay as they are, and no bytes move. It takes a number, as `Answer` does: this is promised for every one.
pub fn refused(number: u8, pieces: Pieces) -> Effect
    ensures { result ≡ refused_row number pieces }
{
    pieces.row(Answer::Refused(number), Move::Still)
}
