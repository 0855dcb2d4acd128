// The rows of serve and receive.
ghost use Rattle.std.specs.Prelude.{ℕ, ◌≡◌};
ghost use Rattle.protocol.specs.{Refusals.{is_copy, no_room}, Tables.{recalled, same_version, serve_load, receive_grant, receive_renew, effect_of}};

use protocol::{
    Answer, Call, Copy, Effect, Grant, Manager, ManagerLine, Move, Name, Opening, Pieces, Recall,
    Slot, Stamp, Want,
};
use refusals::refused;

// The recall after a request for an owned line.
fn recall_after(want: Want, recall: Recall) -> Recall
    ensures { result ≡ recalled want recall }
{
    match (want, recall) {
        (Want::Store, _) => Recall::Flush,
        (Want::Load, Recall::None) => Recall::Downgrade,
        (Want::Load, _) => recall,
    }
}

// Whether the version held is the manager's.
fn same_version(held: Option<Stamp>, wts: Stamp) -> bool
    ensures { result ≡ same_version held wts }
{
    matches!(held, Some(version) if version.same(wts))
}

// A load served on a shared line, whose lease now ends at rts: renew where the version is the same,
// with no bytes; else share, with bytes.
fn serve_load(same: bool, l: usize, wts: Stamp, rts: Stamp, pieces: Pieces) -> Effect
    ensures { result ≡ serve_load same l wts rts pieces }
{
    let (name, grant, moves) = if same {
        (Name::Renew, Grant::Renew, Move::Still)
    } else {
        (Name::Share, Grant::Share, Move::Answer)
    };
    let slot = Slot::Answered {
        grant,
        line: l,
        wts,
        rts,
    };
    Effect {
        core: pieces.core.slotted(slot),
        line: pieces.line.managed(Manager::Shared { wts, rts }),
        ..pieces.row(Answer::Done(name), moves)
    }
}

// serve: the request in the core's slot, or 21 where it does not ask. An owned line is recalled and the slot
// stays; a shared one is leased to a load, or 27 where the lease would pass the greatest timestamp, and
// given to a store.
pub fn serve(c: usize, pieces: Pieces, opening: Opening) -> Effect
    ensures { result ≡ effect_of (Call.Serve c) pieces opening }
{
    let core = pieces.core;
    let line = pieces.line;
    let Slot::Asked {
        want,
        line: l,
        lts,
        held,
    } = core.slot
    else {
        return refused(21, pieces);
    };
    match (line.manager, want) {
        (Manager::Owned { .. }, _) => Effect {
            line: ManagerLine {
                recall: recall_after(want, line.recall),
                ..line
            },
            ..pieces.row(Answer::Done(Name::Recall), Move::Still)
        },
        (Manager::Shared { wts, rts }, Want::Load) => match lts.after(opening.lease) {
            None => refused(27, pieces),
            Some(end) => serve_load(same_version(held, wts), l, wts, rts.later(end), pieces),
        },
        (Manager::Shared { wts, rts }, Want::Store) => {
            let slot = Slot::Answered {
                grant: Grant::Own,
                line: l,
                wts,
                rts,
            };
            Effect {
                core: core.slotted(slot),
                line: line.managed(Manager::Owned { core: c }),
                ..pieces.row(Answer::Done(Name::Own), Move::Answer)
            }
        }
    }
}

// A renewal received: a shared copy takes the new end of its lease; with no copy, or an owned one,
// it is dropped, and no copy changes.
fn receive_renew(rts: Stamp, pieces: Pieces) -> Effect
    ensures { result ≡ receive_renew pieces.copy rts pieces }
{
    let core = pieces.core.slotted(Slot::Empty);
    match pieces.copy {
        Copy::Shared { wts, .. } => Effect {
            core,
            copy: Copy::Shared { wts, rts },
            ..pieces.row(Answer::Done(Name::Renew), Move::Still)
        },
        _ => Effect {
            core,
            ..pieces.row(Answer::Done(Name::Drop), Move::Still)
        },
    }
}

// A grant received: the slot becomes empty.
fn receive_grant(grant: Grant, wts: Stamp, rts: Stamp, pieces: Pieces) -> Effect
    ensures { result ≡ receive_grant grant wts rts pieces }
{
    let core = pieces.core.slotted(Slot::Empty);
    match grant {
        Grant::Share => Effect {
            core,
            copy: Copy::Shared { wts, rts },
            ..pieces.row(Answer::Done(Name::Share), Move::Receive)
        },
        Grant::Renew => receive_renew(rts, pieces),
        Grant::Own => Effect {
            core,
            copy: Copy::Owned {
                dirty: false,
                wts,
                rts,
            },
            ..pieces.row(Answer::Done(Name::Own), Move::Receive)
        },
    }
}

// Whether a grant is a copy of the line.
fn is_copy(grant: Grant) -> bool
    ensures { result ≡ is_copy grant }
{
    matches!(grant, Grant::Share | Grant::Own)
}

// Whether a core that holds so many copies has no room for one of the line.
fn no_room(copy: Copy, copies: usize, opening: Opening) -> bool
    ensures { result ≡ no_room copy copies opening }
{
    matches!(copy, Copy::None) && opening.cap <= copies
}

// receive: the grant in the core's slot; 22 where there is no answer, 31 where it brings a copy for which a
// core that holds so many has no room.
pub fn receive(pieces: Pieces, opening: Opening) -> Effect
    ensures { (c : ℕ) → result ≡ effect_of (Call.Receive c) pieces opening }
{
    let Slot::Answered {
        grant,
        wts,
        rts,
        ..
    } = pieces.core.slot
    else {
        return refused(22, pieces);
    };
    if is_copy(grant) && no_room(pieces.copy, pieces.copies, opening) {
        return refused(31, pieces);
    }
    receive_grant(grant, wts, rts, pieces)
}
