// What the programs print: the text of one record, of the end line and of the tally's line, into a lent buffer.
//
// A text that does not fit leaves the buffer as it was, so its length must be known before its first byte is put. A line is built
// back to front in a buffer of its own, which is then put as one text. A commit's data are put behind it, straight into the lent
// buffer. It is no `Display`: what is written through one is cut where the buffer ends, and here nothing is written then. A buffer and its
// offset are parameters of their own, as of `spelling::put_text`.
#![tactic(auto)]

ghost use Rattle.std.specs.Prelude.{◌++◌, ◌+◌, ◌≤◌, length, drop, ◌≡◌};
ghost use Rattle.protocol.specs.Step.{valued, meaning, fence};
ghost use Rattle.protocol.specs.declared.Given.TheVariants.{Bytes};
ghost use Rattle.spelling.specs.{Text.text, Over.PutAt};
ghost use Rattle.listing.specs.Record.{name_text, done_text, refused_text, text_as, commit_text, record_as, end_text, tally_text};
ghost use Rattle.listing.specs.Back.{digit_count, access};

mod back;

use crate::back::Back;
use protocol::{Answer, Counts, Given, Kind, Name, Place};

// How many digits are printed of data: two of a byte.
fn digit_count(read: Given, n: usize) -> usize
    requires { n ≤ 9223372036854775807 }
    ensures { result ≡ digit_count read n }
{
    match read {
        Given::Bytes => 2 * n,
        Given::Digits => n,
    }
}

// Data, into a lent buffer from `at` on: bytes in hex, digits as they are. Where they do not fit, it is left as it was.
fn put_data(out: &mut [u8], at: usize, read: Given, given: &[u8]) -> Option<usize>
    ensures { PutAt out.old at (text_as read given.now) out.new result }
{
    match read {
        Given::Bytes => spelling::put_hex(out, at, given),
        Given::Digits => spelling::put_text(out, at, given),
    }
}

// A text, data behind it, and a newline, into a lent buffer from `at` on; `read` says whether the data are bytes, which are put in hex,
// or digits, which are put as they are. Where they do not fit, it is left as it was.
pub fn put_with_data(
    out: &mut [u8],
    at: usize,
    head: &[u8],
    read: Given,
    given: &[u8],
) -> Option<usize>
    ensures { PutAt out.old at (head.now ++ text_as read given.now ++ text "\n") out.new result }
{
    let digits = at.checked_add(head.len())?;
    let end = digits.checked_add(digit_count(read, given.len()))?;
    if out.len() <= end {
        return None;
    }
    spelling::put_text(out, at, head);
    put_data(out, digits, read, given);
    spelling::put_text(out, end, b"\n")
}

// What was done, behind which the line ends: ` done=ask`. Each name's text is put as one constant, for speed.
fn done(line: &mut Back<128>, name: Name)
    requires { 50 ≤ line.old.start }
    ensures text { drop line.new.start line.new.bytes ≡ text " done=" ++ name_text name ++ text "\n" ++ drop line.old.start line.old.bytes }
    ensures start { line.old.start ≤ line.new.start + 40 }
{
    match name {
        Name::Open => line.text(b" done=open\n"),
        Name::Ask => line.text(b" done=ask\n"),
        Name::Recall => line.text(b" done=recall\n"),
        Name::Share => line.text(b" done=share\n"),
        Name::Renew => line.text(b" done=renew\n"),
        Name::Own => line.text(b" done=own\n"),
        Name::Drop => line.text(b" done=drop\n"),
        Name::Evict => line.text(b" done=evict\n"),
        Name::Advance => line.text(b" done=advance\n"),
        Name::Yield => line.text(b" done=yield\n"),
        Name::Take => line.text(b" done=take\n"),
        Name::Writeback => line.text(b" done=writeback\n"),
        Name::Victim { line: number } => {
            line.text(b"\n");
            line.field(b" done=victim line=", number as u64);
        }
    }
}

// A record that names what was done: `n=1 done=ask`.
fn put_done(out: &mut [u8], at: usize, place: u64, name: Name) -> Option<usize>
    ensures { PutAt out.old at (done_text place name) out.new result }
{
    let mut line: Back<128> = Back::new();
    done(&mut line, name);
    line.field(b"n=", place);
    spelling::put_text(out, at, line.line())
}

// The record of a refused call: `n=6 refused=25`.
fn put_refused(out: &mut [u8], at: usize, place: u64, number: u64) -> Option<usize>
    ensures { PutAt out.old at (refused_text place number) out.new result }
{
    let mut line: Back<128> = Back::new();
    line.text(b"\n");
    line.field(b" refused=", number);
    line.field(b"n=", place);
    spelling::put_text(out, at, line.line())
}

// The record of a fence that committed: `n=2 commit=fence core=0 ts=1`.
fn put_fence(out: &mut [u8], at: usize, place: u64, core: u64, ts: u64) -> Option<usize>
    ensures { PutAt out.old at (commit_text Bytes place core ts fence) out.new result }
{
    let mut line: Back<128> = Back::new();
    line.text(b"\n");
    line.field(b" ts=", ts);
    line.field(b" commit=fence core=", core);
    line.field(b"n=", place);
    spelling::put_text(out, at, line.line())
}

// The record of a load or a store that committed: `n=4 commit=store core=0 line=0 ts=1 data=07`.
// `commit` is the text before the core.
fn put_access(
    out: &mut [u8],
    at: usize,
    place: u64,
    commit: &[u8],
    core: u64,
    line: usize,
    ts: u64,
    read: Given,
    given: &[u8],
) -> Option<usize>
    requires { length commit.now ≤ 19 }
    ensures { PutAt out.old at (access place commit.now core line ts (text_as read given.now)) out.new result }
{
    let mut head: Back<128> = Back::new();
    head.text(b" data=");
    head.field(b" ts=", ts);
    head.field(b" line=", line as u64);
    head.field(commit, core);
    head.field(b"n=", place);
    put_with_data(out, at, head.line(), read, given)
}

// The record of a commit, by its kind.
fn put_commit(
    out: &mut [u8],
    at: usize,
    place: u64,
    core: u64,
    ts: u64,
    kind: Kind,
    read: Given,
    given: &[u8],
) -> Option<usize>
    ensures { PutAt out.old at (commit_text read place core ts (valued kind given.now)) out.new result }
{
    match kind {
        Kind::Load { line } => {
            put_access(
                out,
                at,
                place,
                b" commit=load core=",
                core,
                line,
                ts,
                read,
                given,
            )
        }
        Kind::Store { line } => {
            put_access(
                out,
                at,
                place,
                b" commit=store core=",
                core,
                line,
                ts,
                read,
                given,
            )
        }
        Kind::Fence => put_fence(out, at, place, core, ts),
    }
}

// The record of a call, into a lent buffer from `at` on: `place` is the call's place in the list, `answer` what it answered, and
// `given` are the bytes of a load's or a store's commit, or the digits that spell them, as `read` says. Where the record does not
// fit, the buffer is left as it was.
pub fn put_record(
    out: &mut [u8],
    at: usize,
    place: Place,
    answer: Answer,
    read: Given,
    given: &[u8],
) -> Option<usize>
    ensures { PutAt out.old at (record_as read place (meaning answer given.now)) out.new result }
{
    let n = place.0;
    match answer {
        Answer::Refused(number) => put_refused(out, at, n, number as u64),
        Answer::Done(name) => put_done(out, at, n, name),
        Answer::Commit { core, ts, kind } => {
            put_commit(out, at, n, core as u64, ts.0 as u64, kind, read, given)
        }
    }
}

// The end line, into a lent buffer from `at` on. Where it does not fit, the buffer is left as it was.
pub fn put_end(out: &mut [u8], at: usize, counts: Counts) -> Option<usize>
    ensures { PutAt out.old at (end_text counts) out.new result }
{
    let mut line: Back<128> = Back::new();
    line.text(b"\n");
    line.field(b" refused=", counts.refusals);
    line.field(b" commits=", counts.commits);
    line.field(b"end=", counts.steps);
    spelling::put_text(out, at, line.line())
}

// The line of the tally, into a lent buffer from `at` on. Where it does not fit, the buffer is left as it was.
pub fn put_tally(out: &mut [u8], at: usize, counts: Counts) -> Option<usize>
    ensures { PutAt out.old at (tally_text counts) out.new result }
{
    let mut line: Back<256> = Back::new();
    line.text(b"\n");
    line.field(b" owns=", counts.owns);
    line.field(b" renews=", counts.renews);
    line.field(b" shares=", counts.shares);
    line.field(b" asks=", counts.asks);
    line.field(b" fences=", counts.fences);
    line.field(b" stores=", counts.stores);
    line.field(b"loads=", counts.loads);
    spelling::put_text(out, at, line.line())
}
