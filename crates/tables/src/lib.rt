// The step tables as code, on one core, one private copy and one manager's line by value.
//
// `effect` is the table of a call with its refusals 20 and up: what the call answers, what becomes of
// the three pieces, and which line of bytes moves. The definitions that it is equal to are those of
// `protocol`; there are no buffers here. A core's clocks are changed only by the methods of `Clocks`.
//
// Beside it: what a call sees of a state, the core and the line that it is about with the pieces there, and writing
// an effect on them back; and where the bytes of a commit lie.
#![tactic(auto)]

mod about;
mod copies;
mod seen;

ghost use Rattle.std.specs.Prelude.{◌≡◌};
ghost use Rattle.protocol.specs.Tables.{effect_of};
ghost use Rattle.tables.specs.{Found.effect_with, Spans.span_of};

pub use about::{core_of, line_of, looked_over, named_line};
pub use copies::{Look, is_held};
use protocol::{Answer, Call, Effect, Kind, Opening, Pieces};
pub use seen::Seen;

// A part of the private buffer: `count` bytes from `start`.
#[derive(Clone, Copy, PartialEq, Eq, Debug)]
pub struct Span {
    pub start: usize,
    pub count: usize,
}

// What a call makes of the pieces that it looks at: the row of its table, or, with the pieces as they are, one of 20 and up. Each
// row decides.
fn row(call: Call, pieces: Pieces, opening: Opening) -> Effect
    ensures { result ≡ effect_of call pieces opening }
{
    match call {
        Call::Load { core, line } => core_rows::load(core, line, pieces),
        Call::Store { core, line, .. } => core_rows::store(core, line, pieces),
        Call::Fence { core } => core_rows::fence(core, pieces),
        Call::Evict { .. } => transfer_rows::evict(pieces),
        Call::Advance { by, .. } => core_rows::advance(by, pieces),
        Call::Serve { core } => transfer_rows::serve(core, pieces, opening),
        Call::Receive { .. } => transfer_rows::receive(pieces, opening),
        Call::Yield { .. } => transfer_rows::yield_line(pieces),
        Call::Take { .. } => transfer_rows::take(pieces),
        Call::Drop { .. } => transfer_rows::drop(pieces),
        Call::Writeback { .. } => transfer_rows::writeback(pieces),
        Call::Victim { .. } => transfer_rows::victim(pieces),
    }
}

// The same where `refusal` is the first of 13 and 1 to 6 that applies, if one does: that comes first. It stays a number: this is promised
// for every one.
#[tactic(auto, unfolding(crate::specs::Found::effect_with))]
pub fn effect(refusal: Option<u8>, call: Call, pieces: Pieces, opening: Opening) -> Effect
    ensures { result ≡ effect_with refusal call pieces opening }
{
    if let Some(number) = refusal {
        return refusals::refused(number, pieces);
    }
    row(call, pieces, opening)
}

// Where the bytes of a commit lie, if they start at `start`.
pub fn span_of(answer: Answer, start: usize, width: usize) -> Span
    ensures { result ≡ span_of answer start width }
{
    match answer {
        Answer::Commit {
            kind: Kind::Load { .. } | Kind::Store { .. },
            ..
        } => Span {
            start,
            count: width,
        },
        _ => Span { start: 0, count: 0 },
    }
}
