// Stores in digits by direct calls, at every width: what right digits store, also to a dirty line at the greatest timestamp, each
// number that right and wrong digits are refused with, and that nothing is stored where a call asks or is refused. What it prints is
// compared with what the second implementation answers to the same calls.
//
// For each width, on an engine of two cores and two lines, it prints the answers to a list of calls, each with digits of its own,
// and line 1 as core 1 sees it; then how many of the stores with one wrong digit, at each position in turn, were refused with 13;
// then both buffers.
//
// A list has five bytes for each call: its kind, a digit for the core, a digit for the line, which digits it is given, and a blank.
// The kinds are S a store in digits, B the same on a state with a lease of 0, T the same with a private buffer that is a byte short,
// M advance by the greatest number, L load, V serve and R receive. The digits are r those of a line, x the same with a wrong one first,
// o one digit less, l one more, f a byte less, m a byte more, and e none.
#![tactic(auto)]

ghost use Rattle.std.specs.Prelude.{◌≤◌};

use engine::Returned;
use protocol::{Answer, Call, Given, Opening, Place};

// The widest line, and how many digits one byte more than that has.
const WIDEST: usize = 64;

const MOST_DIGITS: usize = 130;

// The digits.
const HEX: [u8; 16] = *b"0123456789abcdef";

// How many calls there are, and the calls.
const CALLS: usize = 32;

const LIST: [u8; 5 * CALLS] =
    *b"S11r V1.. R1.. S11r S11x S11o S11l S11e S11f S11m S21r S21x S12r S12x S01r S01r S01x B11r B11x T11r \
      T11x M1.. S11r S11r S11x S10r V1.. R1.. L10. S10r S10x R0.. ";

// How many bytes a line has.
#[derive(Clone, Copy)]
struct Width {
    bytes: usize,
    ghost inside: { (1 ≤ bytes) × (bytes ≤ 64) },
}

impl Width {
    // How many digits a call is given.
    fn digits(self, which: u8) -> usize
        ensures { result ≤ 130 }
    {
        match which {
            b'o' => 2 * self.bytes - 1,
            b'l' => 2 * self.bytes + 1,
            b'f' => 2 * self.bytes - 2,
            b'm' => 2 * self.bytes + 2,
            b'e' => 0,
            _ => 2 * self.bytes,
        }
    }
}

// An engine of two cores and two lines, its buffers, of which it uses the first bytes, and what its last call gave.
#[derive(Drop)]
struct Engine {
    width: Width,
    private: [u8; 4 * WIDEST],
    shared: [u8; 6 * WIDEST],
    last: Returned,
}

impl Engine {
    // A fresh one of this width.
    fn open(width: Width) -> Engine {
        let opened = engine::open(Opening {
            cores: 2,
            lines: 2,
            width: width.bytes,
            lease: 10,
            cap: 2,
        });
        Engine {
            width,
            private: [0; 4 * WIDEST],
            shared: [0; 6 * WIDEST],
            last: opened.into(),
        }
    }

    fn private(&self) -> &[u8] {
        &self.private[..4 * self.width.bytes]
    }

    fn shared(&self) -> &[u8] {
        &self.shared[..6 * self.width.bytes]
    }

    // Makes a call of a kind. The engine is changed in place, since by value it would be copied at every call; the buffers, which are small, are
    // lent as copies that are put back.
    fn make(&mut self, kind: u8, core: usize, line: usize, digits: &[u8]) {
        let width = self.width.bytes;
        let mut private = self.private;
        let mut shared = self.shared;
        let mut state = self.last.state;
        let p = &mut private[..4 * width];
        let q = &mut shared[..6 * width];
        self.last = match kind {
            b'S' => engine::store_digits(state, p, q, core, line, digits),
            b'T' => engine::store_digits(state, &mut p[1..], q, core, line, digits),
            b'B' => {
                state.opening.lease = 0;
                let mut broken = engine::store_digits(state, p, q, core, line, digits);
                broken.state.opening.lease = 10;
                broken
            }
            _ => engine::step(state, p, q, call_of(kind, core, line), b""),
        };
        self.private = private;
        self.shared = shared;
    }
}

// Writes what was put at the start of a buffer. A write that fails is passed over. `sample` has the same, since a library's function that prints
// to a runtime could promise nothing (docs/DECISIONS.md, Printing).
fn write(rt: &impl Print, out: &[u8], put: Option<usize>) {
    if let Some(text) = put.and_then(|end| out.get(..end)) {
        let _ = rt.write_all(text);
    }
}

// Prints the record of the n-th call, with the bytes of its commit.
fn print_record(rt: &impl Print, n: u64, engine: &Engine) {
    let mut out = [0u8; 256];
    let last = engine.last;
    let bytes = engine::commit_bytes(engine.private(), last.start, last.count);
    let record = listing::put_record(&mut out, 0, Place(n), last.answer, Given::Bytes, bytes);
    write(rt, &out, record);
}

// Prints a text and bytes behind it.
fn print_bytes(rt: &impl Print, text: &[u8], bytes: &[u8]) {
    let mut out = [0u8; 1024];
    let line = listing::put_with_data(&mut out, 0, text, Given::Bytes, bytes);
    write(rt, &out, line);
}

// A call of a kind that is no store.
fn call_of(kind: u8, core: usize, line: usize) -> Call {
    match kind {
        b'L' => Call::Load { core, line },
        b'M' => Call::Advance { core, by: u32::MAX },
        b'V' => Call::Serve { core },
        _ => Call::Receive { core },
    }
}

// Digits that tell the bytes of a line apart, and the halves of a byte; other digits for another number.
fn spell(n: usize) -> [u8; MOST_DIGITS]
    requires { n ≤ 100 }
{
    let mut digits = [0u8; MOST_DIGITS];
    for (i, digit) in digits.iter_mut().enumerate() {
        *digit = HEX[(7 * i + n) % 16];
    }
    digits
}

// Plays the list, and prints each answer.
fn play(rt: &impl Print, engine: &mut Engine) {
    let width = engine.width;
    for (i, &[kind, core, line, which, _]) in LIST.as_chunks::<5>().0.iter().enumerate() {
        let mut digits = spell(width.bytes + i);
        if which == b'x' {
            digits[0] = b'g';
        }
        engine.make(
            kind,
            usize::from(core % 16),
            usize::from(line % 16),
            &digits[..width.digits(which)],
        );
        print_record(rt, i as u64 + 1, engine);
    }
}

// Stores with one wrong digit, at each position of a line's in turn, and prints how many were refused with 13.
fn one_wrong(rt: &impl Print, engine: &mut Engine) {
    let width = engine.width;
    let count = 2 * width.bytes;
    let mut digits = spell(width.bytes + CALLS);
    let mut refused: usize = 0;
    for i in 0..count {
        let right = digits[i];
        digits[i] = b'g';
        engine.make(b'S', 1, 1, &digits[..count]);
        digits[i] = right;
        if matches!(engine.last.answer, Answer::Refused(13)) {
            refused += 1;
        }
    }
    let _ = println!(rt; "one wrong digit, refused=13: {refused}");
}

// All of it at one width.
fn at_width(rt: &impl Print, width: Width) {
    let bytes = width.bytes;
    let _ = println!(rt; "width={bytes}");
    let mut engine = Engine::open(width);
    play(rt, &mut engine);
    let shown = engine::show(engine.last.state, engine.private(), engine.shared(), 1, 1);
    print_bytes(rt, b"shown data=", shown);
    one_wrong(rt, &mut engine);
    print_bytes(rt, b"private data=", engine.private());
    print_bytes(rt, b"shared data=", engine.shared());
}

fn main(rt: HostRuntime) {
    for bytes in 1..=WIDEST {
        at_width(&rt, Width { bytes });
    }
}
