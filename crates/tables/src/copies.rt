// Going through the copies of a core, line by line: how many are held, and which is the victim.
ghost use Rattle.std.specs.Prelude.{◌≡◌};
ghost use Rattle.protocol.specs.Copies.{is_held, rts_of, rank_of, below};
ghost use Rattle.tables.specs.Look.{one_more, nothing_found, with_copy};

use protocol::{Copy, Opening, Stamp};

// What was found so far: how many copies are held, and the one of them whose rank is the least, with its
// line; no copy and line 0 where none is held.
#[derive(Clone, Copy, PartialEq, Eq, Debug)]
pub struct Look {
    pub copies: usize,
    pub line: usize,
    pub copy: Copy,
}

// Whether a core holds a copy.
pub fn is_held(copy: Copy) -> bool
    ensures { result ≡ is_held copy }
{
    !matches!(copy, Copy::None)
}

// The end of a copy's lease.
fn rts_of(copy: Copy) -> Stamp
    ensures { result ≡ rts_of copy }
{
    match copy {
        Copy::None => Stamp(0),
        Copy::Shared { rts, .. } | Copy::Owned { rts, .. } => rts,
    }
}

// Whether a copy's rank is below that of another line's: by rts, then by line.
#[tactic(auto, unfolding(protocol::specs::Copies::below))]
fn ranks_below(copy: Copy, line: usize, found: Copy, at: usize) -> bool
    ensures { result ≡ below (rank_of copy line) (rank_of found at) }
{
    let rts = rts_of(copy);
    let least = rts_of(found);
    rts.earlier(least) || rts.same(least) && line < at
}

// One copy more; a core has no more than MOST_LINES.
fn one_more(copies: usize) -> usize
    ensures { result ≡ one_more copies }
{
    if copies < Opening::MOST_LINES {
        copies + 1
    } else {
        copies
    }
}

impl Look {
    // Nothing found yet.
    pub fn nothing() -> Look
        ensures { result ≡ nothing_found }
    {
        Look {
            copies: 0,
            line: 0,
            copy: Copy::None,
        }
    }

    // With the copy of one line more.
    #[tactic(auto, unfolding(crate::specs::Look::with_copy))]
    pub fn with(self, line: usize, copy: Copy) -> Look
        ensures { result ≡ with_copy self line copy }
    {
        if !is_held(copy) {
            return self;
        }
        let copies = one_more(self.copies);
        if !is_held(self.copy) || ranks_below(copy, line, self.copy, self.line) {
            Look { copies, line, copy }
        } else {
            Look { copies, ..self }
        }
    }
}
