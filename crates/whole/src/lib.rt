// A whole journal at once: its listing in a lent buffer, its tally, and whether it reads.
//
// The driver plays a journal a buffer of text at a time; `list` puts its calls together in the lent buffer, and for the tally `runner` does, which
// drops the texts. What the listing and the tally of a journal are, and what the calls come to, is in `playing`.
#![tactic(auto)]

ghost use Rattle.std.specs.Prelude.{◌≤◌};
ghost use mathlib.Core.{Path.◌≡◌};
ghost use Rattle.playing.specs.{Listing.Tally, Calls.more_to_play};
ghost use Rattle.whole.specs.Whole.{end_of, Lists, number_of, Checks, ChecksFrom};

use driver::Progress;
use grammar::Refusal;
use journal::Item;
use protocol::Counts;
use runner::Texts;
use std::io;

// What ends a journal's listing, and at which line.
#[derive(Clone, Copy)]
pub struct Checked {
    // The refusal, 7 or 10 to 14; none at the journal's end.
    pub refusal: Option<Refusal>,
    // The number of the last line, or of the one that is refused, counted from 1.
    pub line: usize,
}

impl Checked {
    // The scope's number of the refusal, or 0 at the journal's end.
    pub fn number(self) -> u32
        ensures { result ≡ number_of self.refusal }
    {
        match self.refusal {
            None => 0,
            Some(refusal) => u32::from(refusal.number()),
        }
    }
}

// Whether there is more to play after a call. Neither `start` with room for its text nor `play` from a checkpoint that it
// returned answers `Short` or `Unfit`, so where there is no more the listing is whole.
pub fn more_to_play(progress: Progress) -> bool
    ensures { result ≡ more_to_play progress }
{
    runner::more_to_play(progress)
}

// The tally of a journal.
pub fn tally(journal: &[u8]) -> Counts
    ensures { Tally journal.now result }
{
    match runner::play_whole(journal, Texts::Dropped, &mut io::sink()) {
        Ok(counts) => counts,
        // No write fails where the listing is dropped.
        Err(_) => Counts::NONE,
    }
}

// The answer for how far the call that plays on came: the text's end where it is finished.
fn end_of(progress: Progress, end: usize) -> Option<usize>
    ensures { result ≡ end_of progress end }
{
    match progress {
        Progress::Finished => Some(end),
        Progress::More => None,
        Progress::Short => None,
        Progress::Unfit => None,
    }
}

// The listing of a journal, at the start of a lent buffer: where it ends, or that it has no room there. Then as much of it is
// in the buffer as has room, in whole lines.
pub fn list(journal: &[u8], out: &mut [u8]) -> Option<usize>
    ensures { Lists journal.now out.old out.new result }
{
    let mut private = [0u8; 65536];
    let mut shared = [0u8; 9216];
    let played = driver::start(journal, out);
    let written = played.written;
    if !more_to_play(played.progress) {
        return end_of(played.progress, written);
    }
    let opening = played.checkpoint.state.opening;
    let rest = driver::play(
        journal,
        played.checkpoint,
        &mut private[0..opening.private_length()],
        &mut shared[0..opening.shared_length()],
        &mut out[written..],
    );
    end_of(rest.progress, written + rest.written)
}

// The lines of a journal from the second on, which starts at an offset.
fn check_steps(journal: &[u8], form: u32, from: usize) -> Checked
    requires { (form ≡ 0 → ⊥) × (1 ≤ from) }
    ensures { ChecksFrom journal.now form from result.refusal result.line }
{
    let mut at = from;
    let mut line: usize = 1;
    loop {
        match journal::step_at(journal, at, form) {
            Ok(Some(Item::Step { next, .. })) => {
                at = next;
                line += 1;
            }
            Ok(None) => {
                return Checked {
                    refusal: None,
                    line,
                };
            }
            Err(refusal) => {
                return Checked {
                    refusal: Some(refusal),
                    line: line + 1,
                };
            }
            // No line after the first opens an engine.
            Ok(Some(Item::Opening { .. })) => {
                return Checked {
                    refusal: Some(Refusal::NoForm),
                    line,
                };
            }
        }
    }
}

// Whether a journal reads: what ends its listing, without playing it.
pub fn check(journal: &[u8]) -> Checked
    ensures { Checks journal.now result.refusal result.line }
{
    match journal::step_at(journal, 0, 0) {
        Ok(Some(item)) => match item {
            Item::Opening {
                form,
                opening,
                next,
            } => {
                if !opening.fits() {
                    return Checked {
                        refusal: Some(Refusal::Unfit),
                        line: 1,
                    };
                }
                check_steps(journal, form, next)
            }
            // Where the first line is due, a step is not found, nor is the end.
            Item::Step { .. } => Checked {
                refusal: Some(Refusal::NoForm),
                line: 1,
            },
        },
        Ok(None) => Checked {
            refusal: Some(Refusal::NoForm),
            line: 1,
        },
        Err(refusal) => Checked {
            refusal: Some(refusal),
            line: 1,
        },
    }
}
