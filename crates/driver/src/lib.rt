// The driver: plays a journal and lists what each line answers.
//
// `start` reads the first line and opens an engine; `play` goes on from a checkpoint. It owns the state for
// the whole piece of work and changes it in place, by the same tables and byte moves that the engine's
// calls use, and looks the state and the buffers over once (refusals 1 and 2). It fills a lent buffer with
// whole lines and returns the checkpoint that it got to.
#![tactic(auto)]

mod one_line;

ghost use Rattle.std.specs.Prelude.{◌≡◌};
ghost use Rattle.driver.specs.Play.{few, resumable, Starts, PlaysIn};

use grammar::Refusal;
use journal::Item;
use protocol::{Call, Counts, State};
use tables::Seen;

// A run between two lines: the offset in the journal, its form, what was met so far, and the state.
#[derive(Clone, Copy)]
pub struct Checkpoint {
    pub at: usize,
    pub form: u32,
    pub counts: Counts,
    pub state: State,
}

// Whether the listing is out whole, goes on, or can't be had.
#[derive(Clone, Copy)]
pub enum Progress {
    // The listing's last line is written.
    Finished,
    // The run goes on from the checkpoint: call `play`, with room for a line more.
    More,
    // `start` has no room for the first line: call it again, with room.
    Short,
    // No run of the journal has such a checkpoint: its first line is still due, the offset lies past its
    // end, or more was met than there are bytes before the offset.
    Unfit,
}

// How far a call came: `written` bytes of the buffer, from its start, and the run's checkpoint, whose counts leave out
// the line that ended the run.
#[derive(Clone, Copy)]
pub struct Played {
    pub progress: Progress,
    pub written: usize,
    pub checkpoint: Checkpoint,
}

// What is due at an offset of a journal: a step with the first of 1 to 6 that applies, where the
// digits given to it lie and the offset of the next line; or the journal's end, with the refusal of a
// line that ends it.
#[derive(Clone, Copy)]
enum Due {
    Step {
        call: Call,
        refusal: Option<u8>,
        start: usize,
        end: usize,
        next: usize,
    },
    Last(Option<Refusal>),
}

// Whether no count is above `most`.
fn few(counts: Counts, most: u64) -> bool
    ensures { result ≡ few counts most }
{
    let all = [
        counts.steps,
        counts.commits,
        counts.refusals,
        counts.loads,
        counts.stores,
        counts.fences,
        counts.asks,
        counts.shares,
        counts.renews,
        counts.owns,
    ];
    all.iter().all(|n| *n <= most)
}

// Whether a run of a journal of n bytes may have such a checkpoint.
fn resumable(n: usize, from: &Checkpoint) -> bool
    ensures { result ≡ resumable n from.now }
{
    from.form != 0 && from.at <= n && few(from.counts, from.at as u64)
}

// Starts a run: reads the first line and opens an engine, and writes `n=0 done=open`; or, where no
// engine is opened, the whole listing. `play` goes on from the checkpoint, on zeroed buffers.
pub fn start(journal: &[u8], out: &mut [u8]) -> Played
    ensures { Starts journal.now out.old out.new result }
{
    let item = match journal::step_at(journal, 0, 0) {
        Ok(Some(item)) => item,
        // Where the first line is due, the end is not found, nor is a step.
        Ok(None) => return one_line::refuse(out, Refusal::NoForm),
        Err(refusal) => return one_line::refuse(out, refusal),
    };
    match item {
        Item::Opening {
            form,
            opening,
            next,
        } => {
            if !opening.fits() {
                return one_line::refuse(out, Refusal::Unfit);
            }
            one_line::open(out, next, form, opening)
        }
        Item::Step { .. } => one_line::refuse(out, Refusal::NoForm),
    }
}

// Goes on with a run: fills `out` with the lines of the listing from there on, until the listing ends or
// the next line has no room.
pub fn play(
    journal: &[u8],
    from: Checkpoint,
    private: &mut [u8],
    shared: &mut [u8],
    out: &mut [u8],
) -> Played
    ensures { PlaysIn journal.now from «private».old shared.old out.old «private».new shared.new out.new result }
{
    if !resumable(journal.len(), &from) {
        return Played {
            progress: Progress::Unfit,
            written: 0,
            checkpoint: from,
        };
    }
    let mut here = from;
    let mut used: usize = 0;
    // Read once, for speed: no step changes it.
    let opening = here.state.opening;
    let base = refusals::machine_refusal(&here.state, private.len(), shared.len());
    loop {
        match one_line::due(journal, &here, base) {
            Due::Last(last) => {
                let put = one_line::put_last(out, used, last, here.counts);
                return one_line::played(put, used, here);
            }
            Due::Step {
                call,
                refusal,
                start,
                end,
                next,
            } => {
                // The effect of the call on what it sees of the state. Its line is put first: where there
                // is no room, nothing has changed. A store's digits are put as they are, and decoded where its
                // bytes lie.
                let act = call.about().act;
                let seen = Seen::of(call, &here.state);
                let core = seen.core;
                let line = seen.pieces.number;
                let effect = tables::effect(refusal, call, seen.pieces, opening);
                match one_line::put_answer(
                    out,
                    used,
                    here.counts.steps + 1,
                    act,
                    effect.answer,
                    &journal[start..end],
                    private,
                    opening,
                    core,
                    line,
                ) {
                    None => {
                        return one_line::played(None, used, here);
                    }
                    Some(e) => {
                        seen.write_back(&mut here.state, effect);
                        buffers::move_bytes(
                            effect.moves,
                            act.given(),
                            opening,
                            private,
                            shared,
                            core,
                            line,
                            &journal[start..end],
                        );
                        used = e;
                        one_line::count_step(&mut here.counts, call, effect.answer);
                        here.at = next;
                    }
                }
            }
        }
    }
}
