// The parts of a conversion: what becomes of a line, and what a journal can't be converted for.
ghost use mathlib.Core.Path.{◌≡◌};
ghost use Rattle.protocol.specs.Copies.{is_owned};
ghost use Rattle.convert.specs.Conversion.{is_victim};
ghost use Rattle.convert.specs.Writing.{change_to_first, change_of_evict, change_to_second, change_of, owns_with, refuses, victim_refusal, unlike_answer, other_cap, opening_refusal, last_answer};

use super::{Change, To};
use grammar::Refusal;
use protocol::{Answer, Call, Copy, Opening, Which};

// ---- a line in the other form

// Whether a copy is owned.
fn is_owned(copy: Copy) -> bool
    ensures { result ≡ is_owned copy }
{
    matches!(copy, Copy::Owned { .. })
}

// Whether a copy is owned that a step is about, where none of 3 to 6 refuses it: `number` is the first that does.
pub(crate) fn owns_with(number: Option<u8>, copy: Copy) -> bool
    ensures { result ≡ owns_with number copy }
{
    number.is_none() && is_owned(copy)
}

// What becomes of the line of a step in `fabric=1`.
fn change_to_first(call: Call) -> Change
    ensures { result ≡ change_to_first call }
{
    match call {
        Call::Drop { .. } => Change::FromDrop,
        Call::Writeback { .. } => Change::FromWriteback,
        _ => Change::Same,
    }
}

// What becomes of an evict in `fabric=2`: the core owns the copy then, or does not.
fn change_of_evict(owns: bool) -> Change
    ensures { result ≡ change_of_evict owns }
{
    if owns {
        Change::ToWriteback
    } else {
        Change::ToDrop
    }
}

// What becomes of the line of a step in `fabric=2`.
fn change_to_second(call: Call, owns: bool) -> Change
    ensures { result ≡ change_to_second call owns }
{
    match call {
        Call::Evict { .. } => change_of_evict(owns),
        _ => Change::Same,
    }
}

// What becomes of the line of a step.
pub(crate) fn change_of(to: To, call: Call, owns: bool) -> Change
    ensures { result ≡ change_of to call owns }
{
    match to {
        To::First => change_to_first(call),
        To::Second => change_to_second(call, owns),
    }
}

// ---- refusals

// Whether a call is about its core's victim.
fn is_victim(line: Which) -> bool
    ensures { result ≡ is_victim line }
{
    matches!(line, Which::Victim)
}

// Whether an answer is a refusal with this number, as `Answer` has it.
fn refuses(number: u8, answer: Answer) -> bool
    ensures { result ≡ refuses number answer }
{
    matches!(answer, Answer::Refused(n) if n == number)
}

// 32 of a step by its line: `fabric=1` has no victim.
pub(crate) fn victim_refusal(to: To, line: Which) -> Option<Refusal>
    ensures { result ≡ victim_refusal to line }
{
    if matches!(to, To::First) && is_victim(line) {
        return Some(Refusal::Unlike);
    }
    None
}

// 32 of a step by what it answers: `fabric=1` has no step that answers 30.
pub(crate) fn unlike_answer(to: To, answer: Answer) -> bool
    ensures { result ≡ unlike_answer to answer }
{
    matches!(to, To::First) && refuses(30, answer)
}

// 32 of an opening: in `fabric=1` the capacity is the number of lines.
fn other_cap(to: To, opening: Opening) -> bool
    ensures { result ≡ other_cap to opening }
{
    matches!(to, To::First) && opening.cap != opening.lines
}

// The first of 7 and 32 that applies to an opening, if one does.
#[tactic(auto, unfolding(crate::specs::Writing::opening_refusal))]
pub(crate) fn opening_refusal(to: To, opening: Opening) -> Option<Refusal>
    ensures { result ≡ opening_refusal to opening }
{
    if !opening.fits() {
        return Some(Refusal::Unfit);
    }
    if other_cap(to, opening) {
        return Some(Refusal::Unlike);
    }
    None
}

// The answer at a journal's end: 7 or 32 where one applies, 14 where the result has no room, or its length.
pub(crate) fn last_answer(refusal: Option<Refusal>, end: Option<usize>) -> Result<usize, Refusal>
    ensures { result ≡ last_answer refusal end }
{
    refusal.map_or(end.ok_or(Refusal::TooMuch), Err)
}
