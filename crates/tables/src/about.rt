// The core and the line that a call is about, as indices of the state's arrays: those that it names, the
// line of its core's request, the owner of its line, its core's victim. Where the opening has no such core
// or line, or lies outside the limits, the index is 0, so that every call, refused or not, finds elements to
// look at.
ghost use Rattle.std.specs.Prelude.{◌≡◌, ◌<◌, ◌≤◌};
ghost use Rattle.protocol.specs.{Limits.{most_cores, most_lines}, About.named_line, Machine.{slot_line, the_core, the_line, copy_at}};
ghost use Rattle.tables.specs.{Found.Found, Look.{looks_over, Top, look_to}, Seen.Sees};

use crate::copies::Look;
use crate::seen::Seen;
use protocol::{About, Call, Manager, Opening, Pieces, Slot, State, Which, Who};

// n where it is below `count`, of which there are at most `most`; else 0.
fn found(n: usize, count: usize, most: usize) -> usize
    requires { 0 < most }
    ensures { Found n count most result }
{
    if count <= most && n < count { n } else { 0 }
}

// The line that a call names, 0 where it names none.
fn named(line: Which) -> usize
    ensures { result ≡ named_line line }
{
    if let Which::Named(l) = line { l } else { 0 }
}

// Whether a call about this line looks over all copies of its core. A receive counts them, but not where a
// core may hold a copy of each line: it has room then.
fn looks_over(line: Which, opening: Opening) -> bool
    ensures { result ≡ looks_over line opening }
{
    match line {
        Which::Answered => opening.cap < opening.lines,
        Which::Victim => true,
        _ => false,
    }
}

// The core that a call is about, by who has its line.
fn core_by(core: Who, manager: Manager) -> usize
    ensures { result ≡ the_core core manager }
{
    match (core, manager) {
        (Who::Named(c), _) => c,
        (Who::Owner, Manager::Owned { core }) => core,
        _ => 0,
    }
}

// The line that a slot speaks of.
fn slot_line(slot: Slot) -> usize
    ensures { result ≡ slot_line slot }
{
    match slot {
        Slot::Empty => 0,
        Slot::Asked { line, .. } | Slot::Answered { line, .. } => line,
    }
}

// The line that a call is about, by its core's slot and victim.
fn line_by(line: Which, slot: Slot, victim: usize) -> usize
    ensures { result ≡ the_line line slot victim }
{
    match line {
        Which::Named(l) => l,
        Which::Asked | Which::Answered => slot_line(slot),
        Which::Nothing => 0,
        Which::Victim => victim,
    }
}

// The line that a call names.
pub fn named_line(about: About, opening: Opening) -> usize
    ensures { Found (named_line about.line) opening.lines most_lines result }
{
    found(named(about.line), opening.lines, Opening::MOST_LINES)
}

// The core that a call is about, by who has the line that it names.
pub fn core_of(about: About, manager: Manager, opening: Opening) -> usize
    ensures { Found (the_core about.core manager) opening.cores most_cores result }
{
    found(
        core_by(about.core, manager),
        opening.cores,
        Opening::MOST_CORES,
    )
}

// How many lines a call goes through to look over its core's copies, from line 0 on: all of the opening's, or none.
pub fn looked_over(about: About, opening: Opening) -> usize
    ensures { Top about.line opening result }
{
    let lines = opening.lines;
    if looks_over(about.line, opening) && lines <= Opening::MOST_LINES {
        lines
    } else {
        0
    }
}

// The line that a call is about, by its core's slot and victim.
pub fn line_of(about: About, slot: Slot, victim: usize, opening: Opening) -> usize
    ensures { Found (the_line about.line slot victim) opening.lines most_lines result }
{
    found(
        line_by(about.line, slot, victim),
        opening.lines,
        Opening::MOST_LINES,
    )
}

// Goes through the copies that a core has of the lines below `lines`.
fn look_over(state: &State, core: usize, lines: usize) -> Look
    requires { (core < most_cores) × (lines ≤ most_lines) }
    ensures { result ≡ look_to (copy_at state.now core) lines }
{
    let first = core * Opening::MOST_LINES;
    let mut look = Look::nothing();
    for (line, cell) in state.cell[first..first + lines].iter().enumerate() {
        look = look.with(line, cell.copy);
    }
    look
}

impl Seen {
    // What a call sees of a state: the core and the line that it is about, and the pieces there.
    pub fn of(call: Call, state: &State) -> Seen
        ensures { Sees call state.now result }
    {
        let opening = state.opening;
        let about = call.about();
        let named = named_line(about, opening);
        let core = core_of(about, state.line[named].manager, opening);
        let look = look_over(state, core, looked_over(about, opening));
        let line = line_of(about, state.core[core].slot, look.line, opening);
        let pieces = Pieces {
            number: line,
            core: state.core[core],
            copy: state.cell[core * Opening::MOST_LINES + line].copy,
            line: state.line[line],
            copies: look.copies,
        };
        Seen { core, pieces }
    }
}
