// Where the lines of bytes start in the two lent buffers, for a core and a line that are there.
ghost use mathlib.Core.Bool.{true, false};
ghost use Rattle.std.specs.Prelude.{◌≡◌, MatchOption};
ghost use Rattle.protocol.specs.Buffers.{copy_start, manager_start, writeback_start, answer_start, There};
ghost use Rattle.buffers.specs.Moves.{is_there};

use protocol::Opening;

// Where the lines of bytes of a core and a line start, both of which an opening inside the limits has.
#[derive(Clone, Copy)]
pub(crate) struct Places {
    opening: Opening,
    core: usize,
    line: usize,
    ghost there: { There opening core line },
}

impl Places {
    // Those of this core and line, where the opening lies inside the limits and has both.
    pub(crate) fn of(opening: Opening, core: usize, line: usize) -> Option<Places>
        ensures { MatchOption result (is_there opening core line ≡ false) (λ p. (is_there opening core line ≡ true) × (p.opening ≡ opening) × (p.core ≡ core) × (p.line ≡ line)) }
    {
        if opening.fits() && core < opening.cores && line < opening.lines {
            Some(Places {
                opening,
                core,
                line,
            })
        } else {
            None
        }
    }

    // The core's copy of the line, in the private buffer.
    pub(crate) fn copy(&self) -> usize
        ensures { result ≡ copy_start self.now.opening self.now.core self.now.line }
    {
        (self.core * self.opening.lines + self.line) * self.opening.width
    }

    // The manager's line, in the shared buffer.
    pub(crate) fn manager(&self) -> usize
        ensures { result ≡ manager_start self.now.opening self.now.line }
    {
        self.line * self.opening.width
    }

    // The line's writeback, in the shared buffer.
    pub(crate) fn writeback(&self) -> usize
        ensures { result ≡ writeback_start self.now.opening self.now.line }
    {
        (self.opening.lines + self.line) * self.opening.width
    }

    // The answer to the core, in the shared buffer.
    pub(crate) fn answer(&self) -> usize
        ensures { result ≡ answer_start self.now.opening self.now.core }
    {
        (2 * self.opening.lines + self.core) * self.opening.width
    }
}
