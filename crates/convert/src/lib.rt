// Journals from one form to the other, into a lent buffer.
//
// A journal is read once, line by line, and its steps are made in place on a state, by the same tables that the
// engine and the driver use. What a step makes of the state does not depend on the bytes of memory, so there are no
// buffers of these. As its step is made, a line is written in the other form: one whose kind changes keeps all
// that is behind its kind. The result is written to a buffer of its own, and copied into the lent one when all
// checks are passed, so that a refusal leaves that one as it was.
#![tactic(auto)]

mod text;
mod writing;

ghost use Rattle.std.specs.Prelude.{◌≡◌, ◌+◌, [], false};
ghost use Rattle.protocol.specs.About.{about};
ghost use Rattle.tables.specs.{Look.{looks_over}, Seen.{Sees}};
ghost use Rattle.journal.specs.Journal.{NextOf};
ghost use Rattle.convert.specs.Conversion.{form_from, Malformed, Converts};
ghost use Rattle.convert.specs.Writing.{Holds, FirstWritten, Writes};

use grammar::Refusal;
use journal::Item;
use protocol::{Call, Opening, State};
use tables::Seen;
use text::Text;

// The form that a journal is converted to: `fabric=1` or `fabric=2`.
#[derive(Clone, Copy)]
pub enum To {
    First,
    Second,
}

// What becomes of a line: its kind stays, is another in `fabric=2` (from evict), or is evict in `fabric=1`.
#[derive(Clone, Copy)]
enum Change {
    Same,
    ToDrop,
    ToWriteback,
    FromDrop,
    FromWriteback,
}

// The longest journal.
const MOST: usize = 65536;

// Where the digit of the form lies in a first line.
const DIGIT: usize = 7;

// The form of the journal that is converted.
fn form_from(to: To) -> u32
    ensures { result ≡ form_from to }
{
    match to {
        To::First => 2,
        To::Second => 1,
    }
}

// Its digit in the first line.
fn digit_from(to: To) -> u8
    ensures { result ≡ 48 + form_from to }
{
    match to {
        To::First => b'2',
        To::Second => b'1',
    }
}

// What a step sees of a state. Its call looks no copies over, so none are gone through.
fn seen_of(call: Call, state: &State) -> Seen
    requires { looks_over (about call).line state.now.opening ≡ false }
    ensures { Sees call state.now result }
{
    Seen::of(call, state)
}

// The journal from the line after the first on: its steps are made from the fresh state, and their lines are written in
// the other form behind the first line. Where 7 or 32 applies, the lines that are left are only read, since one of them
// may be malformed, which comes first.
fn write_steps(
    to: To,
    journal: &[u8],
    opening: Opening,
    from: usize,
    text: &mut Text,
) -> Result<usize, Refusal>
    requires { FirstWritten to journal.now opening from text.old }
    ensures { Writes to journal.now text.new.bytes result }
{
    let form = form_from(to);
    let mut at = from;
    let mut s = State::fresh(opening);
    let mut refusal = writing::opening_refusal(to, opening);
    while let Some(item) = journal::step_at(journal, at, form)? {
        match item {
            // No line after the first opens an engine.
            Item::Opening { .. } => {
                return Err(Refusal::NoForm);
            }
            Item::Step {
                call,
                start,
                end,
                next,
            } => {
                // What is 32 by its line alone comes first, so no core's copies are gone through.
                let which = call.about().line;
                refusal = refusal.or(writing::victim_refusal(to, which));
                if refusal.is_some() {
                    at = next;
                    continue;
                }
                // The effect of the step on what it sees, as in the driver.
                let number = refusals::call_refusal(call, opening, (end - start) / 2);
                let seen = seen_of(call, &s);
                let effect = tables::effect(number, call, seen.pieces, opening);
                if writing::unlike_answer(to, effect.answer) {
                    refusal = Some(Refusal::Unlike);
                    at = next;
                    continue;
                }
                let owns = writing::owns_with(number, seen.pieces.copy);
                let change = writing::change_of(to, call, owns);
                text.put_line(change, &journal[at..next]);
                seen.write_back(&mut s, effect);
                at = next;
            }
        }
    }
    writing::last_answer(refusal, text.end)
}

// The refusal of a first line: a first line of the other form, which its digit tells, is 11 also where a number in it is wrong.
fn first_refusal(to: To, journal: &[u8], refusal: Refusal) -> Refusal
    requires { NextOf journal.now 0 0 (Err refusal) }
    ensures { Malformed (form_from to) journal.now result }
{
    if refusal == Refusal::NotNumber && journal.len() > DIGIT && journal[DIGIT] != digit_from(to) {
        return Refusal::NoForm;
    }
    refusal
}

// The result, from an empty text on.
fn write(to: To, journal: &[u8], text: &mut Text) -> Result<usize, Refusal>
    requires { Holds text.old [] }
    ensures { Writes to journal.now text.new.bytes result }
{
    match journal::step_at(journal, 0, 0) {
        Ok(Some(item)) => match item {
            Item::Opening {
                form,
                opening,
                next,
            } => {
                if form != form_from(to) {
                    return Err(Refusal::NoForm);
                }
                text.put_opening(to, opening);
                write_steps(to, journal, opening, next, text)
            }
            // Where the first line is due, a step is not found, nor is the end.
            Item::Step { .. } => Err(Refusal::NoForm),
        },
        Ok(None) => Err(Refusal::NoForm),
        Err(refusal) => Err(first_refusal(to, journal, refusal)),
    }
}

// A journal in the form that is asked for, at the start of a lent buffer, out of one in the other form: the length of the result; or a
// refusal, and the buffer is as it was.
pub fn convert(to: To, journal: &[u8], out: &mut [u8]) -> Result<usize, Refusal>
    ensures { Converts to journal.now out.old result out.new }
{
    let mut text = Text::new();
    let n = write(to, journal, &mut text)?;
    spelling::put_text(out, 0, &text.bytes[..n]).ok_or(Refusal::TooMuch)
}

// A journal of `fabric=2` as one of `fabric=1`, at the start of the buffer: drop and writeback become evict. The answer is the
// length of the result; a refusal leaves the buffer as it was.
pub fn to1(journal: &[u8], out: &mut [u8]) -> Result<usize, Refusal>
    ensures { Converts To.First journal.now out.old result out.new }
{
    convert(To::First, journal, out)
}

// A journal of `fabric=1` as one of `fabric=2`, where cap is lines, in the same way: evict becomes writeback or drop, whichever it is
// there.
pub fn to2(journal: &[u8], out: &mut [u8]) -> Result<usize, Refusal>
    ensures { Converts To.Second journal.now out.old result out.new }
{
    convert(To::Second, journal, out)
}
