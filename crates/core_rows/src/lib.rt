// The rows of load, store, fence and advance as code: what each makes of one core, its copy of a line and
// the manager's line.
//
// Every row takes any pieces and decides the refusals of its step, 20 and 27: the number, with the pieces
// as they are.
#![tactic(auto, unfolding(protocol::specs::Tables::effect_of, protocol::specs::Tables::table_of, protocol::specs::Tables::load_table, protocol::specs::Tables::load_owned, protocol::specs::Tables::store_table, protocol::specs::Tables::fence_table, protocol::specs::Tables::advance_table, protocol::specs::Refusals::state_refusal, protocol::specs::Refusals::state_rules, protocol::specs::Pick::first))]

ghost use Rattle.std.specs.Prelude.{ℕ, ◌≡◌, Some};
ghost use Rattle.protocol.specs.{Pick.{pick, fails}, Stamps.after, Refusals.is_empty, Tables.{held_of, asking, refused_row, effect_of}};

use protocol::{
    Answer, Call, Copy, Effect, Given, Kind, Move, Name, Opening, Pieces, Slot, Stamp, Want,
};
use refusals::refused;

// The version of the shared copy held.
fn held_of(copy: Copy) -> Option<Stamp>
    ensures { result ≡ held_of copy }
{
    match copy {
        Copy::Shared { wts, .. } => Some(wts),
        _ => None,
    }
}

// The slot becomes asked, or 20 where it is in use.
fn ask(want: Want, l: usize, pieces: Pieces) -> Effect
    ensures { result ≡ pick (fails (is_empty pieces.core.slot)) (refused_row 20 pieces) (asking want l pieces) }
{
    let core = pieces.core;
    match core.slot {
        Slot::Empty => {
            let slot = Slot::Asked {
                want,
                line: l,
                lts: core.clocks.lts,
                held: held_of(pieces.copy),
            };
            Effect {
                core: core.slotted(slot),
                ..pieces.row(Answer::Done(Name::Ask), Move::Still)
            }
        }
        _ => refused(20, pieces),
    }
}

// The answer of a commit.
fn commit(core: usize, ts: Stamp, kind: Kind) -> Answer
    ensures { result ≡ Answer.Commit core ts kind }
{
    Answer::Commit { core, ts, kind }
}

// load: commits on an owned copy and within a shared one's lease; else asks, or 20.
pub fn load(c: usize, l: usize, pieces: Pieces) -> Effect
    ensures { (o : Opening) → result ≡ effect_of (Call.Load c l) pieces o }
{
    let core = pieces.core;
    let before = core.clocks;
    let kind = Kind::Load { line: l };
    match pieces.copy {
        Copy::Shared { wts, rts } if before.lts.at_most(rts) => {
            let clocks = before.load(wts);
            Effect {
                core: core.clocked(clocks),
                ..pieces.row(commit(c, clocks.lts, kind), Move::Still)
            }
        }
        Copy::Owned {
            dirty: true,
            wts,
            rts,
        } => Effect {
            copy: Copy::Owned {
                dirty: true,
                wts,
                rts: rts.later(before.lts),
            },
            ..pieces.row(commit(c, before.lts, kind), Move::Still)
        },
        Copy::Owned {
            dirty: false,
            wts,
            rts,
        } => {
            let next = before.load(wts);
            Effect {
                core: core.clocked(next),
                copy: Copy::Owned {
                    dirty: false,
                    wts,
                    rts: rts.later(next.lts),
                },
                ..pieces.row(commit(c, next.lts, kind), Move::Still)
            }
        }
        _ => ask(Want::Load, l, pieces),
    }
}

// The earliest that the lease of an owned copy lets a store be: its end where the copy is dirty, else one
// past it, where that is a timestamp.
fn earliest_of(dirty: bool, rts: Stamp) -> Option<Stamp>
    ensures { result ≡ pick dirty (Some rts) (after rts 1) }
{
    if dirty { Some(rts) } else { rts.after(1) }
}

// store: commits on an owned copy, from the end of its lease on where it is dirty, and past it where it is
// not, or 27 where that passes the greatest timestamp; else asks, or 20.
pub fn store(c: usize, l: usize, pieces: Pieces) -> Effect
    ensures { (g : Given) (o : Opening) → result ≡ effect_of (Call.Store g c l) pieces o }
{
    let core = pieces.core;
    let Copy::Owned { dirty, rts, .. } = pieces.copy else {
        return ask(Want::Store, l, pieces);
    };
    let Some(earliest) = earliest_of(dirty, rts) else {
        return refused(27, pieces);
    };
    let clocks = core.clocks.store(earliest);
    let ts = clocks.sts;
    Effect {
        core: core.clocked(clocks),
        copy: Copy::Owned {
            dirty: true,
            wts: ts,
            rts: ts,
        },
        ..pieces.row(commit(c, ts, Kind::Store { line: l }), Move::Store)
    }
}

// fence: commits at the later of the core's clocks.
pub fn fence(c: usize, pieces: Pieces) -> Effect
    ensures { (o : Opening) → result ≡ effect_of (Call.Fence c) pieces o }
{
    let core = pieces.core;
    let clocks = core.clocks.fence();
    Effect {
        core: core.clocked(clocks),
        ..pieces.row(commit(c, clocks.lts, Kind::Fence), Move::Still)
    }
}

// advance: lts grows, or 27 where it passes the greatest timestamp.
pub fn advance(by: u32, pieces: Pieces) -> Effect
    ensures { (c : ℕ) (o : Opening) → result ≡ effect_of (Call.Advance c by) pieces o }
{
    let core = pieces.core;
    match core.clocks.lts.after(by) {
        None => refused(27, pieces),
        Some(to) => Effect {
            core: core.clocked(core.clocks.advance(to)),
            ..pieces.row(Answer::Done(Name::Advance), Move::Still)
        },
    }
}
