// The refusals because of the input: 13, which looks at the digits given to a store, 1 and 2, which look
// over the state and the buffers, and 3 to 6, which look at what the call names.
ghost use mathlib.Core.{Path.◌≡◌, Bool.true};
ghost use Rattle.std.specs.Prelude.{◌≤◌};
ghost use Rattle.protocol.specs.Limits.{most_cores, most_lines, opening_fits};
ghost use Rattle.protocol.specs.Refusals.{owner_fits, slot_fits, owners_fit, slots_fit, state_fits, buffers_fit, machine_refusal, no_core, no_line};
ghost use Rattle.protocol.specs.Refusals.{given_refusal, wrong_count, by_nothing, call_refusal};
ghost use Rattle.refusals.specs.Input.{machine_with, input_refusal, lengths_fit, applies};

use protocol::{About, Act, Call, Given, Manager, Opening, Slot, State, Which, Who};

// Whether the core that owns a line, if one does, is one of the cores. A `match` says both cases; `matches!` would turn the comparison.
fn owner_fits(cores: usize, manager: Manager) -> bool
    ensures { result ≡ owner_fits cores manager }
{
    match manager {
        Manager::Shared { .. } => true,
        Manager::Owned { core } => core < cores,
    }
}

// Whether the line that a slot speaks of, if it does, is one of the lines.
fn slot_fits(lines: usize, slot: Slot) -> bool
    ensures { result ≡ slot_fits lines slot }
{
    match slot {
        Slot::Empty => true,
        Slot::Asked { line, .. } | Slot::Answered { line, .. } => line < lines,
    }
}

// Whether every owner among the lines of a state's opening is one of its cores.
fn owners_fit(state: &State) -> bool
    requires { state.now.opening.lines ≤ most_lines }
    ensures { result ≡ owners_fit state.now.opening state.now.line }
{
    let Opening { cores, lines, .. } = state.opening;
    state.line[..lines]
        .iter()
        .all(|l| owner_fits(cores, l.manager))
}

// Whether every slot among the cores of a state's opening speaks of one of its lines.
fn slots_fit(state: &State) -> bool
    requires { state.now.opening.cores ≤ most_cores }
    ensures { result ≡ slots_fit state.now.opening state.now.core }
{
    let Opening { cores, lines, .. } = state.opening;
    state.core[..cores].iter().all(|k| slot_fits(lines, k.slot))
}

// Whether refusal 1 does not apply.
pub fn state_fits(state: &State) -> bool
    ensures { result ≡ state_fits state.now }
{
    state.opening.fits() && owners_fit(state) && slots_fit(state)
}

// Whether refusal 2 does not apply to buffers of these lengths.
fn buffers_fit(opening: Opening, private: usize, shared: usize) -> bool
    requires { opening_fits opening ≡ true }
    ensures { result ≡ buffers_fit opening «private» shared }
{
    let Opening {
        cores,
        lines,
        width,
        ..
    } = opening;
    private == cores * lines * width && shared == (2 * lines + cores) * width
}

// Whether an opening lies inside the limits and buffers of these lengths fit it.
pub fn lengths_fit(opening: Opening, private: usize, shared: usize) -> bool
    ensures { result ≡ lengths_fit opening «private» shared }
{
    opening.fits() && buffers_fit(opening, private, shared)
}

// 1 or 2, the first that applies to a state and buffers of these lengths.
pub fn machine_refusal(state: &State, private: usize, shared: usize) -> Option<u8>
    ensures { result ≡ applies (machine_refusal (machine_with state.now «private» shared)) }
{
    if !state_fits(state) {
        return Some(1);
    }
    if !buffers_fit(state.opening, private, shared) {
        return Some(2);
    }
    None
}

// 3: whether the core that a call names is none of the opening's.
fn no_core(core: Who, opening: Opening) -> bool
    ensures { result ≡ no_core core opening }
{
    matches!(core, Who::Named(c) if opening.cores <= c)
}

// 4: whether the line that a call names is none of the opening's.
fn no_line(line: Which, opening: Opening) -> bool
    ensures { result ≡ no_line line opening }
{
    matches!(line, Which::Named(l) if opening.lines <= l)
}

// 5: whether the bytes given to a store are not a line's in count.
fn wrong_count(act: Act, opening: Opening, count: usize) -> bool
    ensures { result ≡ wrong_count act opening count }
{
    matches!(act, Act::Store(_) if count != opening.width)
}

// 6: whether an advance is by 0.
fn by_nothing(act: Act) -> bool
    ensures { result ≡ by_nothing act }
{
    matches!(act, Act::Advance(0))
}

// 3, 4, 5 or 6, the first that applies; count is that of a store's bytes.
pub fn call_refusal(call: Call, opening: Opening, count: usize) -> Option<u8>
    ensures { result ≡ applies (call_refusal call opening count) }
{
    let About { core, line, act } = call.about();
    if no_core(core, opening) {
        return Some(3);
    }
    if no_line(line, opening) {
        return Some(4);
    }
    if wrong_count(act, opening, count) {
        return Some(5);
    }
    if by_nothing(act) {
        return Some(6);
    }
    None
}

// 13 where a store is given digits that are wrong.
fn given_refusal(read: Given, given: &[u8]) -> Option<u8>
    ensures { result ≡ applies (given_refusal read given.now) }
{
    match read {
        Given::Digits if !spelling::is_data(given) => Some(13),
        _ => None,
    }
}

// The first of 13 and 1 to 6 that applies; `given` is what is given to a store.
pub fn input_refusal(
    call: Call,
    state: &State,
    private: usize,
    shared: usize,
    given: &[u8],
) -> Option<u8>
    ensures { result ≡ applies (input_refusal (machine_with state.now «private» shared) call given.now) }
{
    let read = call.about().act.given();
    given_refusal(read, given)
        .or_else(|| machine_refusal(state, private, shared))
        .or_else(|| call_refusal(call, state.opening, read.count(given.len())))
}
