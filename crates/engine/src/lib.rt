// The engine: opening it, `step`, which makes any of the calls, a function for each of them, and the
// bytes of a line or of a commit.
//
// Every function takes any values at all and has no `requires`. What each promises is an equation with
// `opened`, `step`, `shown` or `part` of crate `protocol`; of a part that is returned, where it points too.
// Callers write `d = load(d.state, ..)`, which saves a copy of the state against one by way of a local.
// `step` saves another copy against those functions.
// A state and its two buffers are parameters of their own: a call takes the state and gives it back, and the buffers are only lent, so that
// `show` and `commit_bytes` can return parts of them.
#![tactic(auto)]

ghost use mathlib.Core.{Path.◌≡◌, List.[]};
ghost use Rattle.engine.specs.Calls.{Makes, Opens, Shows, PartOf};

use protocol::{Answer, Call, Given, Name, Opening, State};
use tables::Seen;

// What a call gives: its answer, the state, and where the bytes of a load's or a store's commit lie
// in the private buffer as the call leaves it: `count` of them from `start`, 0 and 0 beside any
// other answer.
#[derive(Clone, Copy)]
pub struct Returned {
    pub answer: Answer,
    pub start: usize,
    pub count: usize,
    pub state: State,
}

// Makes a call; `given` is what is given to a store, its bytes or their digits, as the call says. Any other
// call passes over it. A refused call takes the same way: its pieces are written back as they are.
pub fn step(
    mut s: State,
    private: &mut [u8],
    shared: &mut [u8],
    call: Call,
    given: &[u8],
) -> Returned
    ensures { Makes call given.now s «private».old shared.old result «private».new shared.new }
{
    let opening = s.opening;
    let refusal = refusals::input_refusal(call, &s, private.len(), shared.len(), given);
    let seen = Seen::of(call, &s);
    let effect = tables::effect(refusal, call, seen.pieces, opening);
    let core = seen.core;
    let line = seen.pieces.number;
    let start = buffers::copy_start(opening, core, line);
    let span = tables::span_of(effect.answer, start, opening.width);
    let read = call.about().act.given();
    buffers::move_bytes(
        effect.moves,
        read,
        opening,
        private,
        shared,
        core,
        line,
        given,
    );
    seen.write_back(&mut s, effect);
    Returned {
        answer: effect.answer,
        start: span.start,
        count: span.count,
        state: s,
    }
}

// A core loads a line.
pub fn load(s: State, private: &mut [u8], shared: &mut [u8], core: usize, line: usize) -> Returned
    ensures { Makes (Call.Load core line) [] s «private».old shared.old result «private».new shared.new }
{
    step(s, private, shared, Call::Load { core, line }, b"")
}

// A core stores bytes to a line.
pub fn store(
    s: State,
    private: &mut [u8],
    shared: &mut [u8],
    core: usize,
    line: usize,
    bytes: &[u8],
) -> Returned
    ensures { Makes (Call.Store Given.Bytes core line) bytes.now s «private».old shared.old result «private».new shared.new }
{
    let given = Given::Bytes;
    step(s, private, shared, Call::Store { given, core, line }, bytes)
}

// A core stores the bytes that digits spell, as `data=` has them, to a line: what `store` gives for those
// bytes; or 13, before any other number, where they spell none.
pub fn store_digits(
    s: State,
    private: &mut [u8],
    shared: &mut [u8],
    core: usize,
    line: usize,
    digits: &[u8],
) -> Returned
    ensures { Makes (Call.Store Given.Digits core line) digits.now s «private».old shared.old result «private».new shared.new }
{
    let given = Given::Digits;
    step(
        s,
        private,
        shared,
        Call::Store { given, core, line },
        digits,
    )
}

// A core's later loads come after its earlier stores.
pub fn fence(s: State, private: &mut [u8], shared: &mut [u8], core: usize) -> Returned
    ensures { Makes (Call.Fence core) [] s «private».old shared.old result «private».new shared.new }
{
    step(s, private, shared, Call::Fence { core }, b"")
}

// A core gives its copy of a line up.
pub fn evict(s: State, private: &mut [u8], shared: &mut [u8], core: usize, line: usize) -> Returned
    ensures { Makes (Call.Evict core line) [] s «private».old shared.old result «private».new shared.new }
{
    step(s, private, shared, Call::Evict { core, line }, b"")
}

// A core gives its shared copy of a line up.
pub fn drop(s: State, private: &mut [u8], shared: &mut [u8], core: usize, line: usize) -> Returned
    ensures { Makes (Call.Drop core line) [] s «private».old shared.old result «private».new shared.new }
{
    step(s, private, shared, Call::Drop { core, line }, b"")
}

// A core gives its owned copy of a line up, which becomes the line's writeback.
pub fn writeback(
    s: State,
    private: &mut [u8],
    shared: &mut [u8],
    core: usize,
    line: usize,
) -> Returned
    ensures { Makes (Call.Writeback core line) [] s «private».old shared.old result «private».new shared.new }
{
    step(s, private, shared, Call::Writeback { core, line }, b"")
}

// The line that a core would give up: the held one with the smallest rts, of those the smallest number.
// Nothing changes.
pub fn victim(s: State, private: &mut [u8], shared: &mut [u8], core: usize) -> Returned
    ensures { Makes (Call.Victim core) [] s «private».old shared.old result «private».new shared.new }
{
    step(s, private, shared, Call::Victim { core }, b"")
}

// A core's clock of loads grows.
pub fn advance(s: State, private: &mut [u8], shared: &mut [u8], core: usize, by: u32) -> Returned
    ensures { Makes (Call.Advance core by) [] s «private».old shared.old result «private».new shared.new }
{
    step(s, private, shared, Call::Advance { core, by }, b"")
}

// The manager serves the request of a core.
pub fn serve(s: State, private: &mut [u8], shared: &mut [u8], core: usize) -> Returned
    ensures { Makes (Call.Serve core) [] s «private».old shared.old result «private».new shared.new }
{
    step(s, private, shared, Call::Serve { core }, b"")
}

// A core receives the answer to its request.
pub fn receive(s: State, private: &mut [u8], shared: &mut [u8], core: usize) -> Returned
    ensures { Makes (Call.Receive core) [] s «private».old shared.old result «private».new shared.new }
{
    step(s, private, shared, Call::Receive { core }, b"")
}

// The owner of a recalled line yields it; `yield` alone is a reserved word.
pub fn yield_line(s: State, private: &mut [u8], shared: &mut [u8], line: usize) -> Returned
    ensures { Makes (Call.Yield line) [] s «private».old shared.old result «private».new shared.new }
{
    step(s, private, shared, Call::Yield { line }, b"")
}

// The manager takes a line's writeback.
pub fn take(s: State, private: &mut [u8], shared: &mut [u8], line: usize) -> Returned
    ensures { Makes (Call.Take line) [] s «private».old shared.old result «private».new shared.new }
{
    step(s, private, shared, Call::Take { line }, b"")
}

// What opening an engine gives.
#[derive(Clone, Copy)]
pub struct Opened {
    pub answer: Answer,
    pub state: State,
}

impl From<Opened> for Returned {
    ghost from_gives = { λ o r. (r.answer ≡ o.answer) × (r.start ≡ 0) × (r.count ≡ 0) × (r.state ≡ o.state) };

    // What opening an engine gives, before its first call: no commit, and so no bytes of one.
    fn from(opened: Opened) -> Returned {
        Returned {
            answer: opened.answer,
            start: 0,
            count: 0,
            state: opened.state,
        }
    }
}

// The fresh state, or refusal 7 and the fresh state of the smallest opening.
pub fn open(opening: Opening) -> Opened
    ensures { Opens opening result }
{
    if !opening.fits() {
        let smallest = Opening::smallest();
        return Opened {
            answer: Answer::Refused(7),
            state: State::fresh(smallest),
        };
    }
    Opened {
        answer: Answer::Done(Name::Open),
        state: State::fresh(opening),
    }
}

// The part of a slice that has `count` bytes from `start` on, as far as the slice has them; where it
// ends before `start`, the empty part at its end. Nothing is copied.
fn part(bytes: &[u8], start: usize, count: usize) -> &[u8]
    ensures { PartOf bytes.entry start count result }
{
    let length = bytes.len();
    if length < start {
        return &bytes[length..length];
    }
    if length - start < count {
        return &bytes[start..length];
    }
    let end = start + count;
    &bytes[start..end]
}

// The bytes of a line as a core sees them: its copy's, a part of the private buffer, if it holds
// one, else the manager's, a part of the shared buffer; under refusals 1 to 4 the empty part at the
// start of the shared buffer. Nothing is copied.
pub fn show<'a>(s: State, private: &'a [u8], shared: &'a [u8], core: usize, line: usize) -> &'a [u8]
    ensures { Shows s «private».entry shared.entry core line result }
{
    let Opening { width, .. } = s.opening;
    let call = Call::Load { core, line };
    if refusals::input_refusal(call, &s, private.len(), shared.len(), b"").is_some() {
        return part(shared, 0, 0);
    }
    if tables::is_held(s.cell[core * Opening::MOST_LINES + line].copy) {
        let start = buffers::copy_start(s.opening, core, line);
        return part(private, start, width);
    }
    let start = buffers::manager_start(s.opening, core, line);
    part(shared, start, width)
}

// The bytes of a commit: `count` of them from `start` in the private buffer, as `Returned` says where a
// call made one. For any start and count it is that part, as far as the buffer has it.
pub fn commit_bytes(private: &[u8], start: usize, count: usize) -> &[u8]
    ensures { PartOf «private».entry start count result }
{
    part(private, start, count)
}
