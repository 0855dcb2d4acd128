// Makes mixed calls on one engine, for the benchmark (tests/calls/bench), and prints how many of them
// were refused.
//
// Its arguments are the count of calls, and the engine's cores, lines and width. The lease is 10, the
// capacity the lines, and the buffers are zeros. Whether the calls are made by `engine::step` or by their
// names is no argument but a constant: the compiler puts `step` in line where a program calls it at one
// place only.
#![tactic(auto)]

ghost use Rattle.std.specs.Prelude.{◌≡◌, true};
ghost use Rattle.protocol.specs.Limits.{opening_fits};

use engine::Returned;
use protocol::{Answer, Call, Given, Opening, State};
use std::rt::Env;

// A pseudo-random number after another.
fn next(x: u64) -> u64 {
    let a = x ^ (x << 13);
    let b = a ^ (a >> 7);
    b ^ (b << 17)
}

// A number below n, or 0.
fn below(x: u64, n: usize) -> usize {
    (x as usize).checked_rem(n).unwrap_or(0)
}

// The call of a kind below 20.
fn call_of(kind: u64, core: usize, line: usize) -> Call {
    match kind {
        0..=4 => Call::Load { core, line },
        5..=8 => Call::Store {
            given: Given::Bytes,
            core,
            line,
        },
        9..=11 => Call::Serve { core },
        12..=14 => Call::Receive { core },
        15 => Call::Evict { core, line },
        16 => Call::Yield { line },
        17 => Call::Take { line },
        18 => Call::Fence { core },
        _ => Call::Advance { core, by: 1 },
    }
}

// Whether loads are made by their name; the benchmark builds the program both ways.
const NAMED: bool = false;

// Makes a call, a load by its name.
fn named(s: State, private: &mut [u8], shared: &mut [u8], call: Call, given: &[u8]) -> Returned {
    match call {
        Call::Load { core, line } => engine::load(s, private, shared, core, line),
        _ => engine::step(s, private, shared, call, given),
    }
}

// Makes `count` calls on a fresh engine of an opening that fits: 25 in 100 loads, 20 stores, 15 serves, 15 receives, and 5
// each of evict, yield, take, fence and advance. Answers how many of them were refused.
fn calls(count: u64, opening: Opening, private: &mut [u8], shared: &mut [u8], given: &[u8]) -> u64 {
    let mut d = Returned::from(engine::open(opening));
    let mut x: u64 = 1;
    let mut refused: u64 = 0;
    for _ in 0..count {
        x = next(x);
        let kind = (x % 4294967296) % 20;
        let core = below(x >> 32, opening.cores);
        let line = below(x >> 40, opening.lines);
        let call = call_of(kind, core, line);
        if NAMED {
            d = named(d.state, private, shared, call, given);
        } else {
            d = engine::step(d.state, private, shared, call, given);
        }
        if matches!(d.answer, Answer::Refused(_)) {
            refused += 1;
        }
    }
    refused
}

// The number that an argument spells.
fn argument(rt: &impl Env, i: usize) -> Option<u32> {
    let mut text = [0u8; 16];
    let n = rt.arg(i, &mut text).unwrap_or(0);
    spelling::read_number(&text[..n])
}

// The count of calls and the engine that the arguments say.
fn arguments(rt: &impl Env) -> Option<(u64, Opening)> {
    let count = argument(rt, 1)?;
    let lines = argument(rt, 3)? as usize;
    let opening = Opening {
        cores: argument(rt, 2)? as usize,
        lines,
        width: argument(rt, 4)? as usize,
        lease: 10,
        cap: lines,
    };
    Some((u64::from(count), opening))
}

// Makes `count` calls on an engine of an opening, and prints how many of them were refused.
fn run(rt: &impl Print, count: u64, opening: Opening)
    requires { opening_fits opening ≡ true }
{
    let mut private = [0u8; 65536];
    let mut shared = [0u8; 9216];
    let given = [7u8; 64];
    let refused = calls(
        count,
        opening,
        &mut private[0..opening.private_length()],
        &mut shared[0..opening.shared_length()],
        &given[0..opening.width],
    );
    let _ = println!(rt; "{refused}");
}

// A write that fails is passed over.
fn main(rt: HostRuntime) {
    match arguments(&rt) {
        Some((count, opening)) if opening.fits() => run(&rt, count, opening),
        _ => {
            let _ = eprintln!(rt; "usage: bench_calls CALLS CORES LINES WIDTH");
        }
    }
}
