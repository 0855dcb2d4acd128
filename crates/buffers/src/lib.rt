// Where each line of bytes starts in the two lent buffers, and moving one from its place to another.
//
// The public functions take any values at all: where a place or a length does not fit, a start is 0 and
// a move leaves both buffers as they were.
#![tactic(auto)]

mod lines;
mod places;

ghost use Rattle.std.specs.Prelude.{◌≡◌};
ghost use Rattle.protocol.specs.{Pick.pick, Buffers.{copy_start, manager_start, given_fits}};
ghost use Rattle.buffers.specs.Moves.{is_there, Moved};

use places::Places;
use protocol::{Given, Move, Opening};

// Where a core's copy of a line starts in the private buffer; 0 where the opening has no such place.
pub fn copy_start(opening: Opening, core: usize, line: usize) -> usize
    ensures { result ≡ pick (is_there opening core line) (copy_start opening core line) 0 }
{
    Places::of(opening, core, line).map_or(0, |at| at.copy())
}

// Where the manager's line starts in the shared buffer; 0 where the opening has no such place.
pub fn manager_start(opening: Opening, core: usize, line: usize) -> usize
    ensures { result ≡ pick (is_there opening core line) (manager_start opening line) 0 }
{
    Places::of(opening, core, line).map_or(0, |at| at.manager())
}

// Whether the count of the bytes given to a store is that of one line.
fn given_fits(moves: Move, width: usize, count: usize) -> bool
    ensures { result ≡ given_fits moves width count }
{
    match moves {
        Move::Store => count == width,
        _ => true,
    }
}

// Moves the line of bytes that a step moves, if its places and lengths fit; else both buffers stay
// as they were. `given` is what is given to a store, and `read` how it is read.
pub fn move_bytes(
    moves: Move,
    read: Given,
    opening: Opening,
    private: &mut [u8],
    shared: &mut [u8],
    core: usize,
    line: usize,
    given: &[u8],
)
    ensures { Moved moves read opening core line given.now «private».old shared.old «private».new shared.new }
{
    if matches!(moves, Move::Still) {
        return;
    }
    let Some(at) = Places::of(opening, core, line) else {
        return;
    };
    let width = opening.width;
    if !refusals::lengths_fit(opening, private.len(), shared.len()) {
        return;
    }
    if !given_fits(moves, width, read.count(given.len())) {
        return;
    }
    match moves {
        Move::Still => {}
        Move::Store => lines::put_given(private, at.copy(), read, given),
        Move::Answer => lines::shift_line(shared, at.answer(), at.manager(), width),
        Move::Receive => lines::move_line(private, at.copy(), shared, at.answer(), width),
        Move::Writeback => lines::move_line(shared, at.writeback(), private, at.copy(), width),
        Move::Take => lines::shift_line(shared, at.manager(), at.writeback(), width),
    }
}
