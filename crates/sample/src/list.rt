// A list of calls by `step`: bytes move at every place where they can, and each refusal of an opening or
// a call, 1 to 7, 13, 20 to 27, 30 and 31, is met. Three cores, two lines, a width of two bytes, a lease of 2,
// and room for two copies a core; then for one.
//
// A list has five bytes for each call: its kind, a digit for the core, a digit for the line, one byte
// more, and a blank. The kinds are L load, S store (the byte and a `-`), s store of no bytes,
// H store in digits (the byte, four times), F fence, E evict, D drop, W writeback, A advance (by the digit), M advance by the greatest number,
// V serve, R receive, Y yield, T take and C victim (the copy to give up). The core and the line say besides what is shown.
use super::session::Session;
use protocol::{Call, Given, Opening};

// The call of a kind; a take where the kind is none.
fn call_of(kind: u8, core: usize, line: usize, by: u32) -> Call {
    match kind {
        b'L' => Call::Load { core, line },
        b'S' | b's' => Call::Store {
            given: Given::Bytes,
            core,
            line,
        },
        b'H' => Call::Store {
            given: Given::Digits,
            core,
            line,
        },
        b'F' => Call::Fence { core },
        b'E' => Call::Evict { core, line },
        b'D' => Call::Drop { core, line },
        b'W' => Call::Writeback { core, line },
        b'A' => Call::Advance { core, by },
        b'M' => Call::Advance { core, by: u32::MAX },
        b'V' => Call::Serve { core },
        b'R' => Call::Receive { core },
        b'Y' => Call::Yield { line },
        b'C' => Call::Victim { core },
        _ => Call::Take { line },
    }
}

// Plays a list on an engine of three cores, two lines of two bytes, a lease of 2, and this capacity.
fn play(rt: &impl Print, cap: usize, list: &[u8]) {
    let mut s = Session::<12, 14>::open(Opening {
        cores: 3,
        lines: 2,
        width: 2,
        lease: 2,
        cap,
    });
    s.print_record(rt, 0);
    for (i, &[kind, core, line, value, _]) in list.as_chunks::<5>().0.iter().enumerate() {
        let core = usize::from(core % 16);
        let line = usize::from(line % 16);
        let call = call_of(kind, core, line, u32::from(value % 16));
        // What a store is given; other calls pass over it.
        match kind {
            b's' => s.call(|s, p, q| engine::step(s, p, q, call, b"")),
            b'H' => s.call(|s, p, q| engine::step(s, p, q, call, &[value; 4])),
            _ => s.call(|s, p, q| engine::step(s, p, q, call, &[value, b'-'])),
        }
        s.print(rt, i as u64 + 1, core, line);
    }
}

// Calls 1 to 22: core 0 shares line 0; core 1 owns it and stores; a load of core 0 has it recalled;
// core 1 yields it by a downgrade, and the manager takes it; core 0 shares the new bytes. On the way
// 20, 22, 21, 24 and 25.
// Calls 23 to 33: core 0 renews its copy; it evicts the copy before the next renewal comes, which is
// dropped. Then 26.
// Calls 34 to 50: core 0 owns the line and stores; core 1 has it recalled for its own store; core 0
// yields it by a flush, and the manager takes it; core 1 owns it, stores and evicts it, and the
// manager takes it. On the way 23.
// Calls 51 to 54: core 2 owns line 1 and stores. Calls 55 to 59: 3, 4, 5, 6 and 27.
// Calls 60 to 69: core 2 writes line 1 back, which is no copy to drop, and the manager takes it; core 2
// shares it, which is no copy to write back, loads it and drops it. On the way 30, 26 and 30.
// Calls 70 to 76: core 2 asks for line 1 by a store in digits, owns it, and stores to it. On the way 13
// twice, with the slot in use.
// Then, with room for one copy, calls 1 to 12: core 0 has no victim; it shares line 0, which is its victim, and
// has no room for line 1 until it drops it. On the way 26 and 31.
pub(crate) fn play_all(rt: &impl Print) {
    play(
        rt,
        2,
        b"L00. L01. R00. V00. V00. R00. L00. S10a V10. R10. S10a L00. A003 L00. V00. Y10. Y10. T20. \
          T20. V00. R00. L00. \
          A003 L00. V00. R00. L00. A003 L00. V00. E00. R00. E00. \
          S00b V00. R00. L00. S00b L00. F00. S10c Y00. V10. Y00. T20. V10. R10. S10c E10. T10. \
          S21d V21. R21. S21d \
          L30. L02. s00e A000 M00. \
          D21. W21. W21. T21. L21. V21. R21. W21. L21. D21. \
          H21e H21z H21- V21. R21. H21e L21. ",
    );
    play(
        rt,
        1,
        b"C00. L00. V00. R00. C00. L01. V00. R00. D00. R01. L01. C01. ",
    );
    outside(rt);
}

// 7; and on the state that a refused opening returns, 2 with a shared buffer that is too short,
// and 1 with a lease of 0.
fn outside(rt: &impl Print) {
    let mut short = Session::<1, 2>::open(Opening {
        cores: 17,
        lines: 1,
        width: 1,
        lease: 1,
        cap: 1,
    });
    short.print_record(rt, 0);
    let mut broken = Session::<1, 3>::on(short.last());
    short.call(|s, p, q| engine::load(s, p, q, 0, 0));
    short.print(rt, 1, 0, 0);
    broken.call(|mut s, p, q| {
        s.opening.lease = 0;
        engine::load(s, p, q, 0, 0)
    });
    broken.print(rt, 2, 0, 0);
}
