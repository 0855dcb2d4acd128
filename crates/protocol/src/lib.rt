// The parts of the machine: timestamps, clocks, copies, request slots, manager lines, the state by
// value, the calls and their answers.
//
// What each step does to these parts is written in specs/, in the words of the scope document; this
// crate's code is what every other crate shares: comparing timestamps, stepping a core's clocks,
// and the fixed values that a fresh engine starts from. No function here has a `requires`.
#![tactic(auto)]

ghost use mathlib.Core.{Path.◌≡◌, List.[]};
ghost use Rattle.protocol.specs.{Pick.pick, Buffers.{private_length, shared_length}};
ghost use Rattle.protocol.specs.Stamps.{greatest, at_most, earlier, same, made_earlier, later, after, precedes};
ghost use Rattle.protocol.specs.{Clock.{loaded, stored, fenced, advanced}, Fresh.{fresh_core, fresh_cell, fresh_line, fresh_state, smallest}};
ghost use Rattle.protocol.specs.{Limits.{within, opening_fits}, About.{concerns, about}, Given.{given_as, count_as}, Step.meaning};
ghost use Rattle.protocol.specs.{Counts.{is_serve, name_class, class_of}, Tables.{row, clocked, slotted, managed, written_back}};

// A logical timestamp. It is compared only with another timestamp.
#[derive(Clone, Copy, PartialEq, Eq, PartialOrd, Ord, Debug)]
pub struct Stamp(pub u32);

// A call's position in the list of calls, from 1. It is compared only with another place.
#[derive(Clone, Copy, PartialEq, Eq, PartialOrd, Ord, Debug)]
pub struct Place(pub u64);

// What commits are sorted by: the timestamp, and the place among equal timestamps. The derived order is that of the fields.
#[derive(Clone, Copy, PartialEq, Eq, PartialOrd, Ord, Debug)]
pub struct Key(pub Stamp, pub Place);

impl Stamp {
    // The greatest timestamp.
    pub const GREATEST: Stamp = Stamp(u32::MAX);

    pub fn greatest() -> Stamp
        ensures { result ≡ greatest }
    {
        Stamp::GREATEST
    }

    // Whether this timestamp is at most the other.
    pub fn at_most(self, other: Stamp) -> bool
        ensures { result ≡ at_most self other }
    {
        self <= other
    }

    // Whether this timestamp is smaller than the other.
    pub fn earlier(self, other: Stamp) -> bool
        ensures { result ≡ earlier self other }
    {
        self < other
    }

    // Whether two timestamps are equal.
    pub fn same(self, other: Stamp) -> bool
        ensures { result ≡ same self other }
    {
        self == other
    }

    // The later of two timestamps.
    pub fn later(self, other: Stamp) -> Stamp
        ensures { result ≡ later self other }
    {
        if self.earlier(other) { other } else { self }
    }

    // The timestamp n later, or None where it passes the greatest (refusal 27).
    pub fn after(self, n: u32) -> Option<Stamp>
        ensures { result ≡ after self n }
    {
        self.0.checked_add(n).map(Stamp)
    }
}

impl Place {
    // Whether the call at this place was made earlier than the one at the other.
    pub fn made_earlier(self, other: Place) -> bool
        ensures { result ≡ made_earlier self other }
    {
        self < other
    }
}

impl Key {
    // Whether a commit with this key is before one with the other in the sorted order.
    pub fn precedes(self, other: Key) -> bool
        ensures { result ≡ precedes self other }
    {
        self.0.earlier(other.0) || self.0.same(other.0) && self.1.made_earlier(other.1)
    }
}

// A core's pair of clocks: the timestamp of its last load or fence, and of its last store.
#[derive(Clone, Copy, PartialEq, Eq, Debug)]
pub struct Clocks {
    pub lts: Stamp,
    pub sts: Stamp,
}

impl Clocks {
    // After a load of a version made at wts.
    pub fn load(mut self, wts: Stamp) -> Clocks
        ensures { result ≡ loaded self wts }
    {
        self.lts = self.lts.later(wts);
        self
    }

    // After a store that is at `earliest` at the earliest.
    pub fn store(mut self, earliest: Stamp) -> Clocks
        ensures { result ≡ stored self earliest }
    {
        let last = self.lts.later(self.sts);
        self.sts = last.later(earliest);
        self
    }

    // After a fence.
    pub fn fence(mut self) -> Clocks
        ensures { result ≡ fenced self }
    {
        self.lts = self.lts.later(self.sts);
        self
    }

    // After an advance to a timestamp.
    pub fn advance(mut self, to: Stamp) -> Clocks
        ensures { result ≡ advanced self to }
    {
        self.lts = to;
        self
    }
}

// A core's private copy of a line: wts is the timestamp of the store that made it, rts the end of
// its lease, dirty whether this core has stored to it since it became owned. dirty is first, in
// the room beside the variant's tag: a copy then takes 12 bytes, not 16.
#[derive(Clone, Copy, PartialEq, Eq, Debug)]
pub enum Copy {
    None,
    Shared { wts: Stamp, rts: Stamp },
    Owned { dirty: bool, wts: Stamp, rts: Stamp },
}

// What a request asks for.
#[derive(Clone, Copy, PartialEq, Eq, Debug)]
pub enum Want {
    Load,
    Store,
}

// What the manager grants.
#[derive(Clone, Copy, PartialEq, Eq, Debug)]
pub enum Grant {
    Share,
    Renew,
    Own,
}

// A core's request slot. Where it asks, `held` is the version of the shared copy that the core held then, if it held one.
#[derive(Clone, Copy, PartialEq, Eq, Debug)]
pub enum Slot {
    Empty,
    Asked {
        want: Want,
        line: usize,
        lts: Stamp,
        held: Option<Stamp>,
    },
    Answered {
        grant: Grant,
        line: usize,
        wts: Stamp,
        rts: Stamp,
    },
}

#[derive(Clone, Copy, PartialEq, Eq, Debug)]
pub struct Core {
    pub clocks: Clocks,
    pub slot: Slot,
}

impl Core {
    // The core that every opening starts with.
    pub const FRESH: Core = Core {
        clocks: Clocks {
            lts: Stamp(0),
            sts: Stamp(0),
        },
        slot: Slot::Empty,
    };

    pub fn fresh() -> Core
        ensures { result ≡ fresh_core }
    {
        Core::FRESH
    }

    // The core with other clocks.
    pub fn clocked(self, clocks: Clocks) -> Core
        ensures { result ≡ clocked self clocks }
    {
        Core { clocks, ..self }
    }

    // The core with another slot.
    pub fn slotted(self, slot: Slot) -> Core
        ensures { result ≡ slotted self slot }
    {
        Core { slot, ..self }
    }
}

// An element of the state's array of copies.
#[derive(Clone, Copy, PartialEq, Eq, Debug)]
pub struct Cell {
    pub copy: Copy,
}

impl Cell {
    // No copy: what every opening starts with.
    pub const FRESH: Cell = Cell { copy: Copy::None };

    pub fn fresh() -> Cell
        ensures { result ≡ fresh_cell }
    {
        Cell::FRESH
    }
}

// A line at the manager: shared with wts and rts, or owned by a core.
#[derive(Clone, Copy, PartialEq, Eq, Debug)]
pub enum Manager {
    Shared { wts: Stamp, rts: Stamp },
    Owned { core: usize },
}

// What the manager has asked a line's owner for.
#[derive(Clone, Copy, PartialEq, Eq, Debug)]
pub enum Recall {
    None,
    Downgrade,
    Flush,
}

// A version on its way back to the manager.
#[derive(Clone, Copy, PartialEq, Eq, Debug)]
pub struct Flight {
    pub wts: Stamp,
    pub rts: Stamp,
}

// A line as the manager keeps it: `writeback` is the version on its way back, if one is.
#[derive(Clone, Copy, PartialEq, Eq, Debug)]
pub struct ManagerLine {
    pub manager: Manager,
    pub recall: Recall,
    pub writeback: Option<Flight>,
}

impl ManagerLine {
    // The line that every opening starts with.
    pub const FRESH: ManagerLine = ManagerLine {
        manager: Manager::Shared {
            wts: Stamp(0),
            rts: Stamp(0),
        },
        recall: Recall::None,
        writeback: None,
    };

    pub fn fresh() -> ManagerLine
        ensures { result ≡ fresh_line }
    {
        ManagerLine::FRESH
    }

    // The line with another manager part.
    pub fn managed(self, manager: Manager) -> ManagerLine
        ensures { result ≡ managed self manager }
    {
        ManagerLine { manager, ..self }
    }

    // The line with a version on its way back.
    pub fn written_back(self, wts: Stamp, rts: Stamp) -> ManagerLine
        ensures { result ≡ written_back self wts rts }
    {
        ManagerLine {
            writeback: Some(Flight { wts, rts }),
            ..self
        }
    }
}

// What an engine is opened with: its sizes, its lease, and how many copies a core may hold.
#[derive(Clone, Copy, PartialEq, Eq, Debug)]
pub struct Opening {
    pub cores: usize,
    pub lines: usize,
    pub width: usize,
    pub lease: u32,
    pub cap: usize,
}

impl Opening {
    // The greatest sizes and the longest lease.
    pub const MOST_CORES: usize = 16;

    pub const MOST_LINES: usize = 64;

    pub const MOST_WIDTH: usize = 64;

    pub const MOST_LEASE: u32 = 1000;

    // One copy for each core and line.
    pub const MOST_COPIES: usize = Opening::MOST_CORES * Opening::MOST_LINES;

    // The opening of the state that a refused opening returns.
    pub const SMALLEST: Opening = Opening {
        cores: 1,
        lines: 1,
        width: 1,
        lease: 1,
        cap: 1,
    };

    pub fn smallest() -> Opening
        ensures { result ≡ smallest }
    {
        Opening::SMALLEST
    }

    // Whether the sizes, the lease and the capacity lie inside the limits.
    #[tactic(auto, unfolding(crate::specs::Limits::opening_fits))]
    pub fn fits(self) -> bool
        ensures { result ≡ opening_fits self }
    {
        within(self.cores, Opening::MOST_CORES)
            && within(self.lines, Opening::MOST_LINES)
            && within(self.width, Opening::MOST_WIDTH)
            && within(self.lease as usize, Opening::MOST_LEASE as usize)
            && within(self.cap, self.lines)
    }

    // How many bytes the private buffer has; 0 where the sizes lie outside the limits.
    pub fn private_length(self) -> usize
        ensures { result ≡ pick (opening_fits self) (private_length self) 0 }
    {
        if self.fits() {
            self.cores * self.lines * self.width
        } else {
            0
        }
    }

    // How many bytes the shared buffer has; 0 where the sizes lie outside the limits.
    pub fn shared_length(self) -> usize
        ensures { result ≡ pick (opening_fits self) (shared_length self) 0 }
    {
        if self.fits() {
            (2 * self.lines + self.cores) * self.width
        } else {
            0
        }
    }
}

// Whether n lies from 1 to most.
fn within(n: usize, most: usize) -> bool
    ensures { result ≡ within n most }
{
    1 <= n && n <= most
}

// The engine's state. The copy of core c, line l is cell c × MOST_LINES + l. Only cores and lines
// inside the opening's sizes take part.
#[derive(Clone, Copy, PartialEq, Eq, Debug)]
pub struct State {
    pub opening: Opening,
    pub core: [Core; Opening::MOST_CORES],
    pub cell: [Cell; Opening::MOST_COPIES],
    pub line: [ManagerLine; Opening::MOST_LINES],
}

impl State {
    // The fresh state of an opening.
    pub fn fresh(opening: Opening) -> State
        ensures { result ≡ fresh_state opening }
    {
        State {
            opening,
            core: [Core::fresh(); Opening::MOST_CORES],
            cell: [Cell::fresh(); Opening::MOST_COPIES],
            line: [ManagerLine::fresh(); Opening::MOST_LINES],
        }
    }
}

// How a store's bytes are given: as they are, or as the digits that spell them, two a byte.
#[derive(Clone, Copy, PartialEq, Eq, Debug)]
pub enum Given {
    Bytes,
    Digits,
}

impl Given {
    // How many bytes are given by n bytes, or by n digits.
    pub fn count(self, n: usize) -> usize
        ensures { result ≡ count_as self n }
    {
        match self {
            Given::Bytes => n,
            Given::Digits => n / 2,
        }
    }
}

// The calls. A store's bytes are given beside the call, as bytes or as digits. Evict gives up whatever copy there is; drop a shared
// one, writeback an owned one; victim names the line that a core would give up. A new call is last, here and in each match: the
// others then take no instruction more. `given` is first, in the room beside the variant's tag: a call then takes 24 bytes, not 32.
#[derive(Clone, Copy, PartialEq, Eq, Debug)]
pub enum Call {
    Load {
        core: usize,
        line: usize,
    },
    Store {
        given: Given,
        core: usize,
        line: usize,
    },
    Fence {
        core: usize,
    },
    Evict {
        core: usize,
        line: usize,
    },
    Advance {
        core: usize,
        by: u32,
    },
    Serve {
        core: usize,
    },
    Receive {
        core: usize,
    },
    Yield {
        line: usize,
    },
    Take {
        line: usize,
    },
    Drop {
        core: usize,
        line: usize,
    },
    Writeback {
        core: usize,
        line: usize,
    },
    Victim {
        core: usize,
    },
}

// The core that a call is about: the one that it names, the owner of its line, or none.
#[derive(Clone, Copy, PartialEq, Eq, Debug)]
pub enum Who {
    Named(usize),
    Owner,
    Nobody,
}

// The line that a call is about: the one that it names, the one in its core's slot, which is asked or answered, none, or its core's
// victim.
#[derive(Clone, Copy, PartialEq, Eq, Debug)]
pub enum Which {
    Named(usize),
    Asked,
    Answered,
    Nothing,
    Victim,
}

// What a call does to its core's clocks, and so what it may commit, and how a store's bytes are given; a transfer moves a request or
// a line between a core and the manager, and commits nothing; so does victim, which moves nothing.
#[derive(Clone, Copy, PartialEq, Eq, Debug)]
pub enum Act {
    Load,
    Store(Given),
    Fence,
    Advance(u32),
    Transfer,
}

impl Act {
    // How what is given to the call is read: a store says it, any other call passes over it.
    pub fn given(self) -> Given
        ensures { result ≡ given_as self }
    {
        match self {
            Act::Store(given) => given,
            _ => Given::Bytes,
        }
    }
}

// What a call is about.
#[derive(Clone, Copy, PartialEq, Eq, Debug)]
pub struct About {
    pub core: Who,
    pub line: Which,
    pub act: Act,
}

impl Call {
    // What this call is about: every question of which core, which line and what commit goes by it.
    pub fn about(self) -> About
        ensures { result ≡ about self }
    {
        match self {
            Call::Load { core, line } => {
                concerns(Who::Named(core), Which::Named(line), Act::Load)
            }
            Call::Store { given, core, line } => {
                concerns(Who::Named(core), Which::Named(line), Act::Store(given))
            }
            Call::Fence { core } => concerns(Who::Named(core), Which::Nothing, Act::Fence),
            Call::Evict { core, line } => {
                concerns(Who::Named(core), Which::Named(line), Act::Transfer)
            }
            Call::Advance { core, by } => {
                concerns(Who::Named(core), Which::Nothing, Act::Advance(by))
            }
            Call::Serve { core } => concerns(Who::Named(core), Which::Asked, Act::Transfer),
            Call::Receive { core } => concerns(Who::Named(core), Which::Answered, Act::Transfer),
            Call::Yield { line } => concerns(Who::Owner, Which::Named(line), Act::Transfer),
            Call::Take { line } => concerns(Who::Nobody, Which::Named(line), Act::Transfer),
            Call::Drop { core, line } => {
                concerns(Who::Named(core), Which::Named(line), Act::Transfer)
            }
            Call::Writeback { core, line } => {
                concerns(Who::Named(core), Which::Named(line), Act::Transfer)
            }
            Call::Victim { core } => concerns(Who::Named(core), Which::Victim, Act::Transfer),
        }
    }
}

// A core, a line, and what is done.
fn concerns(core: Who, line: Which, act: Act) -> About
    ensures { result ≡ concerns core line act }
{
    About { core, line, act }
}

// The name of what was done, where nothing was refused or committed; a victim's has its line.
#[derive(Clone, Copy, PartialEq, Eq, Debug)]
pub enum Name {
    Open,
    Ask,
    Recall,
    Share,
    Renew,
    Own,
    Drop,
    Evict,
    Advance,
    Yield,
    Take,
    Writeback,
    Victim { line: usize },
}

// A commit's kind and, but for a fence, its line.
#[derive(Clone, Copy, PartialEq, Eq, Debug)]
pub enum Kind {
    Load { line: usize },
    Store { line: usize },
    Fence,
}

// What a call answers: the number of its refusal, the name of what was done, or a commit. The bytes
// of a load's or a store's commit are beside the answer. A refusal is a number, since `Class::of`, `tables::span_of` and
// `listing::put_record` are promised for every number, and the `refused` of specs/Step has any.
#[derive(Clone, Copy, PartialEq, Eq, Debug)]
pub enum Answer {
    Refused(u8),
    Done(Name),
    Commit { core: usize, ts: Stamp, kind: Kind },
}

// What a call with its answer counts as: a commit by its kind, an ask, what a serve answered, a refusal, or nothing
// of these.
#[derive(Clone, Copy, PartialEq, Eq, Debug)]
pub enum Class {
    Load,
    Store,
    Fence,
    Ask,
    Share,
    Renew,
    Own,
    Refused,
    Other,
}

// Whether a call is a serve.
fn is_serve(call: Call) -> bool
    ensures { result ≡ is_serve call }
{
    matches!(call, Call::Serve { .. })
}

// The class of an answer that names what was done. A share, a renewal and an own are counted where a serve answers them: a
// receive answers the same again.
fn name_class(serves: bool, name: Name) -> Class
    ensures { result ≡ name_class serves name }
{
    match name {
        Name::Ask => Class::Ask,
        Name::Share if serves => Class::Share,
        Name::Renew if serves => Class::Renew,
        Name::Own if serves => Class::Own,
        _ => Class::Other,
    }
}

impl Class {
    // The class of a call with its answer.
    #[tactic(auto, unfolding(crate::specs::Step::meaning))]
    pub fn of(call: Call, answer: Answer) -> Class
        ensures { result ≡ class_of call (meaning answer []) }
    {
        match answer {
            Answer::Refused(_) => Class::Refused,
            Answer::Done(name) => name_class(is_serve(call), name),
            Answer::Commit { kind, .. } => match kind {
                Kind::Load { .. } => Class::Load,
                Kind::Store { .. } => Class::Store,
                Kind::Fence => Class::Fence,
            },
        }
    }
}

// How many step lines were met, how many of them were commits and refusals, and how many were of each class that the
// tally counts.
#[derive(Clone, Copy, PartialEq, Eq, Debug)]
pub struct Counts {
    pub steps: u64,
    pub commits: u64,
    pub refusals: u64,
    pub loads: u64,
    pub stores: u64,
    pub fences: u64,
    pub asks: u64,
    pub shares: u64,
    pub renews: u64,
    pub owns: u64,
}

impl Counts {
    // Nothing met.
    pub const NONE: Counts = Counts {
        steps: 0,
        commits: 0,
        refusals: 0,
        loads: 0,
        stores: 0,
        fences: 0,
        asks: 0,
        shares: 0,
        renews: 0,
        owns: 0,
    };
}

// Which line of bytes a step moves, and where to.
#[derive(Clone, Copy, PartialEq, Eq, Debug)]
pub enum Move {
    // No bytes move.
    Still,
    // The bytes given to a store become the core's copy.
    Store,
    // The manager's line becomes the answer to the core.
    Answer,
    // The answer to the core becomes its copy.
    Receive,
    // The core's copy becomes the line's writeback.
    Writeback,
    // The writeback becomes the manager's line.
    Take,
}

// The pieces of the machine that a step looks at: a line's number, one core, its copy of that line, the manager's line, and how
// many copies the core holds.
#[derive(Clone, Copy, PartialEq, Eq, Debug)]
pub struct Pieces {
    pub number: usize,
    pub core: Core,
    pub copy: Copy,
    pub line: ManagerLine,
    pub copies: usize,
}

impl Pieces {
    // An answer and the bytes that move, with the pieces as they are.
    pub fn row(self, answer: Answer, moves: Move) -> Effect
        ensures { result ≡ row answer moves self.core self.copy self.line }
    {
        Effect {
            answer,
            moves,
            core: self.core,
            copy: self.copy,
            line: self.line,
        }
    }
}

// What a step makes of the core, the copy and the manager's line that it looks at.
#[derive(Clone, Copy, PartialEq, Eq, Debug)]
pub struct Effect {
    pub answer: Answer,
    pub moves: Move,
    pub core: Core,
    pub copy: Copy,
    pub line: ManagerLine,
}
