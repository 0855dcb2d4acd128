// What the programs have in common that play a whole journal: they read it from standard input, and play it to
// its end with the driver, which fills a large buffer with whole lines and goes on from the checkpoint that it got to.
// The buffer's text is written in one piece, or dropped where only the counts are wanted.
//
// The journal comes from a reader and the listing goes to a writer, so that the contracts can speak of their bytes: of those of standard
// input and standard output no contract can.
#![tactic(auto)]

mod streams;

ghost use Rattle.std.specs.Prelude.{◌≤◌, length};
ghost use mathlib.Core.{Path.◌≡◌, Bool.true};
ghost use Rattle.driver.specs.Play.{resumable};
ghost use Rattle.playing.specs.Calls.{more_to_play};
ghost use Rattle.runner.specs.{Ran.{Kept, RanFrom, RanWhole}, Input.ReadInto, Moved.Took};

use driver::{Checkpoint, Progress};
use protocol::Counts;
use std::io;
use std::io::{Read, Write};
pub use streams::{Fault, complain, write_all};

// What becomes of a listing: it is written, or dropped.
#[derive(Clone, Copy)]
pub enum Texts {
    Written,
    Dropped,
}

// Reads a journal to its end: how many bytes it has. One byte more than the longest that is taken suffices to tell one that is too long.
pub fn read_input<R: Read>(input: &mut R, buf: &mut [u8; 65537]) -> io::Result<usize>
    ensures count { ReadInto result buf.new }
    ensures bytes { Took (R.remaining input.old) (R.remaining input.new) result buf.new }
{
    streams::read_all(input, buf)
}

// Whether there is more to play after a call. Neither `start` with room for its text nor `play` from a checkpoint that it
// returned answers `Short` or `Unfit`, so where there is no more the listing is whole.
pub fn more_to_play(progress: Progress) -> bool
    ensures { result ≡ more_to_play progress }
{
    matches!(progress, Progress::More)
}

// Writes a text, or drops it: an error where the writer does not take it.
fn keep<W: Write>(texts: Texts, text: &[u8], to: &mut W) -> io::Result<()>
    ensures { Kept (W.contents to.old) (W.contents to.new) text.now texts result }
{
    match texts {
        Texts::Written => streams::write_all(to, text),
        Texts::Dropped => Ok(()),
    }
}

// Plays a journal from a checkpoint on. The buffers are parameters of their own, as of `driver::play`.
fn play_on<W: Write>(
    journal: &[u8],
    from: Checkpoint,
    private: &mut [u8],
    shared: &mut [u8],
    out: &mut [u8],
    texts: Texts,
    to: &mut W,
) -> io::Result<Counts>
    requires resumable { resumable (length journal.now) from ≡ true }
    requires room { 246 ≤ length out.old }
    ensures { RanFrom journal.now from «private».old shared.old (W.contents to.old) (W.contents to.new) texts result }
{
    let mut there = from;
    loop {
        let played = driver::play(journal, there, private, shared, out);
        keep(texts, &out[..played.written], to)?;
        there = played.checkpoint;
        if !more_to_play(played.progress) {
            return Ok(there.counts);
        }
    }
}

// Plays a journal, all of it, or until the writer does not take its listing: what it counted, or the error of that write. The buffers are
// the parts of two arrays that the opening asks for.
pub fn play_whole<W: Write>(journal: &[u8], texts: Texts, to: &mut W) -> io::Result<Counts>
    ensures { RanWhole journal.now (W.contents to.old) (W.contents to.new) texts result }
{
    let mut out = [0u8; 65536];
    let mut private = [0u8; 65536];
    let mut shared = [0u8; 9216];
    let played = driver::start(journal, &mut out);
    keep(texts, &out[..played.written], to)?;
    let checkpoint = played.checkpoint;
    if !more_to_play(played.progress) {
        return Ok(checkpoint.counts);
    }
    let opening = checkpoint.state.opening;
    play_on(
        journal,
        checkpoint,
        &mut private[0..opening.private_length()],
        &mut shared[0..opening.shared_length()],
        &mut out,
        texts,
        to,
    )
}
