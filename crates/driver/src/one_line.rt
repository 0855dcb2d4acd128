// The parts of the driver's loop, which goes through the journal line by line. A function that has a
// `requires` says what the loop knows where it calls it.
ghost use mathlib.Core.{Path.◌≡◌, Bool.true, List.[]};
ghost use Rattle.std.specs.Prelude.{◌<◌, length};
ghost use Rattle.protocol.specs.{Run.place, Counts.{counts_of, one_of, sum}};
ghost use Rattle.protocol.specs.Step.{done, meaning};
ghost use Rattle.spelling.specs.Over.{PutAt};
ghost use Rattle.listing.specs.Record.{record_text};
ghost use Rattle.driver.specs.{Listing.{stop_lines, last_lines, not_opened}, Play.{few, first_checkpoint, unopened}};
ghost use Rattle.driver.specs.Pieces.{is_store, DueAt, PutsAnswer, BesideInside, ending_of, played_by, Puts};
ghost use Rattle.driver.specs.Pieces.{progress_by, written_by, refused_by, opened_by};

use super::{Checkpoint, Due, Played, Progress};
use grammar::Refusal;
use journal::Item;
use protocol::{Act, Answer, Call, Class, Counts, Given, Name, Opening, Place, State};

// What is due at a checkpoint whose first line was read, where `base` is what the state and the buffers are refused with. Two digits are
// a byte that is given to a step.
pub(crate) fn due(journal: &[u8], here: &Checkpoint, base: Option<u8>) -> Due
    requires { here.now.form ≡ 0 → ⊥ }
    ensures { DueAt journal.now here.now base result }
{
    match journal::step_at(journal, here.at, here.form) {
        Ok(Some(item)) => match item {
            // No line after the first opens an engine.
            Item::Opening { .. } => Due::Last(None),
            Item::Step {
                call,
                start,
                end,
                next,
            } => {
                let count = (end - start) / 2;
                let refusal = base.or(refusals::call_refusal(call, here.state.opening, count));
                Due::Step {
                    call,
                    refusal,
                    start,
                    end,
                    next,
                }
            }
        },
        Ok(None) => Due::Last(None),
        Err(refusal) => Due::Last(Some(refusal)),
    }
}

// Counts a step line of a class.
fn count(counts: &mut Counts, class: Class)
    requires { few counts.old 9223372036854775807 ≡ true }
    ensures { counts.new ≡ sum counts.old (one_of 1 class) }
{
    counts.steps += 1;
    match class {
        Class::Load => {
            counts.commits += 1;
            counts.loads += 1;
        }
        Class::Store => {
            counts.commits += 1;
            counts.stores += 1;
        }
        Class::Fence => {
            counts.commits += 1;
            counts.fences += 1;
        }
        Class::Ask => {
            counts.asks += 1;
        }
        Class::Share => {
            counts.shares += 1;
        }
        Class::Renew => {
            counts.renews += 1;
        }
        Class::Own => {
            counts.owns += 1;
        }
        Class::Refused => {
            counts.refusals += 1;
        }
        Class::Other => {}
    }
}

// Counts a call with its answer.
pub(crate) fn count_step(counts: &mut Counts, call: Call, answer: Answer)
    requires { few counts.old 9223372036854775807 ≡ true }
    ensures { counts.new ≡ sum counts.old (counts_of call (meaning answer [])) }
{
    count(counts, Class::of(call, answer));
}

// Whether a call stores.
fn is_store(act: Act) -> bool
    ensures { result ≡ is_store act }
{
    matches!(act, Act::Store(_))
}

// The line of a call's answer at its place, for core c and line l: a store's data are those given, which are put as they are where
// they are digits, a load's the bytes of the copy.
pub(crate) fn put_answer(
    out: &mut [u8],
    at: usize,
    place: u64,
    act: Act,
    answer: Answer,
    given: &[u8],
    private: &[u8],
    opening: Opening,
    c: usize,
    l: usize,
) -> Option<usize>
    requires { BesideInside answer opening c l (length «private».now) }
    ensures { PutsAnswer out.old at place act answer given.now opening «private».now c l out.new result }
{
    if is_store(act) {
        return listing::put_record(out, at, Place(place), answer, act.given(), given);
    }
    let copy = buffers::copy_start(opening, c, l);
    let span = tables::span_of(answer, copy, opening.width);
    let start = span.start;
    let end = start + span.count;
    listing::put_record(
        out,
        at,
        Place(place),
        answer,
        Given::Bytes,
        &private[start..end],
    )
}

// The last lines of a run that a refused line ends, where they fit; `counts` has that line, whose place is
// the last.
fn put_stop(out: &mut [u8], at: usize, refusal: Refusal, counts: Counts) -> Option<usize>
    ensures { PutAt out.old at (stop_lines counts refusal) out.new result }
{
    let mut text = [0u8; 256];
    let nothing = [0u8; 1];
    let n = refusal.number();
    let place = counts.steps;
    let line = listing::put_record(
        &mut text,
        0,
        Place(place),
        Answer::Refused(n),
        Given::Bytes,
        &nothing[0..0],
    )?;
    let end = listing::put_end(&mut text, line, counts)?;
    spelling::put_text(out, at, &text[..end])
}

// The last lines of a run, where they fit, after what was counted.
pub(crate) fn put_last(
    out: &mut [u8],
    at: usize,
    last: Option<Refusal>,
    mut counts: Counts,
) -> Option<usize>
    requires { few counts 9223372036854775807 ≡ true }
    ensures { PutAt out.old at (last_lines counts (ending_of last)) out.new result }
{
    match last {
        None => listing::put_end(out, at, counts),
        Some(refusal) => {
            count(&mut counts, Class::Refused);
            put_stop(out, at, refusal, counts)
        }
    }
}

// Whether a run goes on, and how much is written, after its next piece was put, or had no room.
fn progress_by(put: Option<usize>) -> Progress
    ensures { result ≡ progress_by put }
{
    match put {
        Some(_) => Progress::Finished,
        None => Progress::More,
    }
}

fn written_by(put: Option<usize>, used: usize) -> usize
    ensures { result ≡ written_by put used }
{
    put.unwrap_or(used)
}

// How far a call came whose next piece was put, or had no room.
pub(crate) fn played(put: Option<usize>, used: usize, here: Checkpoint) -> Played
    ensures { result ≡ played_by put used here }
{
    Played {
        progress: progress_by(put),
        written: written_by(put, used),
        checkpoint: here,
    }
}

// How far a call came with nothing met yet, and the fresh state of an opening.
fn first(progress: Progress, written: usize, at: usize, form: u32, opening: Opening) -> Played
    ensures { result ≡ record { progress = progress; written = written; checkpoint = first_checkpoint at form opening } }
{
    Played {
        progress,
        written,
        checkpoint: Checkpoint {
            at,
            form,
            counts: Counts::NONE,
            state: State::fresh(opening),
        },
    }
}

// How far a call came that opened no engine.
fn unopened(progress: Progress, written: usize) -> Played
    ensures { result ≡ record { progress = progress; written = written; checkpoint = unopened } }
{
    first(progress, written, 0, 0, Opening::smallest())
}

// The listing of a journal that opens no engine, where it fits.
pub(crate) fn refuse(out: &mut [u8], refusal: Refusal) -> Played
    ensures { Puts (not_opened refusal) refused_by out.old out.new result }
{
    let mut counts = Counts::NONE;
    counts.refusals = 1;
    match put_stop(out, 0, refusal, counts) {
        Some(e) => unopened(Progress::Finished, e),
        None => unopened(Progress::Short, 0),
    }
}

// The line of an opening, where it fits, after which the run goes on at an offset of the journal.
pub(crate) fn open(out: &mut [u8], at: usize, form: u32, opening: Opening) -> Played
    ensures { Puts (record_text (place 0) (done Name.Open)) (opened_by at form opening) out.old out.new result }
{
    let nothing = [0u8; 1];
    match listing::put_record(
        out,
        0,
        Place(0),
        Answer::Done(Name::Open),
        Given::Bytes,
        &nothing[0..0],
    ) {
        Some(e) => first(Progress::More, e, at, form, opening),
        None => unopened(Progress::Short, 0),
    }
}
