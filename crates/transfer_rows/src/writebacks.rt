// The rows of evict, drop and writeback, of yield and of take; and of victim, which names the line that a core would give up.
ghost use Rattle.std.specs.Prelude.{ℕ, ◌≡◌};
ghost use Rattle.protocol.specs.{Pick.both, Refusals.{has_owner, stands}, Tables.{evict_table, yielded, effect_of}};

use protocol::{
    Answer, Call, Copy, Effect, Flight, Manager, ManagerLine, Move, Name, Opening, Pieces, Recall,
    Stamp,
};
use refusals::refused;

// A copy is given up, and the answer is this name: a shared one goes; an owned one becomes the writeback; 26 where there is none.
fn give_up(name: Name, pieces: Pieces) -> Effect
    ensures { result ≡ evict_table name pieces.copy pieces }
{
    match pieces.copy {
        Copy::None => refused(26, pieces),
        Copy::Shared { .. } => Effect {
            copy: Copy::None,
            ..pieces.row(Answer::Done(name), Move::Still)
        },
        Copy::Owned { wts, rts, .. } => Effect {
            copy: Copy::None,
            line: pieces.line.written_back(wts, rts),
            ..pieces.row(Answer::Done(name), Move::Writeback)
        },
    }
}

// evict: whichever fits the copy.
pub fn evict(pieces: Pieces) -> Effect
    ensures { (c l : ℕ) (o : Opening) → result ≡ effect_of (Call.Evict c l) pieces o }
{
    give_up(Name::Evict, pieces)
}

// drop: a shared copy goes; 26 where there is none, 30 where it is owned.
pub fn drop(pieces: Pieces) -> Effect
    ensures { (c l : ℕ) (o : Opening) → result ≡ effect_of (Call.Drop c l) pieces o }
{
    match pieces.copy {
        Copy::Owned { .. } => refused(30, pieces),
        Copy::None | Copy::Shared { .. } => give_up(Name::Drop, pieces),
    }
}

// writeback: an owned copy becomes the writeback; 26 where there is none, 30 where it is shared.
pub fn writeback(pieces: Pieces) -> Effect
    ensures { (c l : ℕ) (o : Opening) → result ≡ effect_of (Call.Writeback c l) pieces o }
{
    match pieces.copy {
        Copy::Shared { .. } => refused(30, pieces),
        Copy::None | Copy::Owned { .. } => give_up(Name::Writeback, pieces),
    }
}

// What a recall leaves of the owner's copy.
fn yielded_copy(recall: Recall, wts: Stamp, rts: Stamp) -> Copy
    ensures { result ≡ yielded recall wts rts }
{
    match recall {
        Recall::Downgrade => Copy::Shared { wts, rts },
        _ => Copy::None,
    }
}

// Whether the line is owned and a recall stands.
fn is_recalled(line: ManagerLine) -> bool
    ensures { result ≡ both (has_owner line.manager) (stands line.recall) }
{
    matches!(line.manager, Manager::Owned { .. })
        && matches!(line.recall, Recall::Downgrade | Recall::Flush)
}

// yield: the owner's copy becomes the writeback; 23 without a recall, 24 without an owned copy.
pub fn yield_line(pieces: Pieces) -> Effect
    ensures { (l : ℕ) (o : Opening) → result ≡ effect_of (Call.Yield l) pieces o }
{
    let line = pieces.line;
    if !is_recalled(line) {
        return refused(23, pieces);
    }
    match pieces.copy {
        Copy::Owned { wts, rts, .. } => Effect {
            copy: yielded_copy(line.recall, wts, rts),
            line: line.written_back(wts, rts),
            ..pieces.row(Answer::Done(Name::Yield), Move::Writeback)
        },
        _ => refused(24, pieces),
    }
}

// take: the writeback becomes the manager's version, and recall and writeback are settled; 25 without one.
pub fn take(pieces: Pieces) -> Effect
    ensures { (l : ℕ) (o : Opening) → result ≡ effect_of (Call.Take l) pieces o }
{
    match pieces.line.writeback {
        None => refused(25, pieces),
        Some(Flight { wts, rts }) => Effect {
            line: ManagerLine {
                manager: Manager::Shared { wts, rts },
                recall: Recall::None,
                writeback: None,
            },
            ..pieces.row(Answer::Done(Name::Take), Move::Take)
        },
    }
}

// victim: the line of the pieces' number, and nothing changes; 26 where the core holds no copy.
pub fn victim(pieces: Pieces) -> Effect
    ensures { (c : ℕ) (o : Opening) → result ≡ effect_of (Call.Victim c) pieces o }
{
    if pieces.copies == 0 {
        return refused(26, pieces);
    }
    let name = Name::Victim {
        line: pieces.number,
    };
    pieces.row(Answer::Done(name), Move::Still)
}
