// The calls of the engine that the sample does not make, each by its name: two cores, one line of one byte, a lease of 10.
use super::session::Session;
use protocol::Opening;

// A fresh engine.
fn opened() -> Session<2, 4> {
    Session::open(Opening {
        cores: 2,
        lines: 1,
        width: 1,
        lease: 10,
        cap: 1,
    })
}

// Core 1 shares line 0, which is its victim, and evicts it.
fn evict(rt: &impl Print) {
    let mut s = opened();
    s.call(|s, p, q| engine::load(s, p, q, 1, 0));
    s.call(|s, p, q| engine::serve(s, p, q, 1));
    s.call(|s, p, q| engine::receive(s, p, q, 1));
    s.call(|s, p, q| engine::victim(s, p, q, 1));
    s.print(rt, 4, 1, 0);
    s.call(|s, p, q| engine::evict(s, p, q, 1, 0));
    s.print(rt, 5, 1, 0);
}

// Core 1 advances, makes a fence, and owns line 0, which it does not drop (30), does not yield without a recall (23), and writes
// back.
fn others(rt: &impl Print) {
    let mut s = opened();
    s.call(|s, p, q| engine::advance(s, p, q, 1, 5));
    s.print(rt, 1, 1, 0);
    s.call(|s, p, q| engine::fence(s, p, q, 1));
    s.print(rt, 2, 1, 0);
    s.call(|s, p, q| engine::store(s, p, q, 1, 0, b"\x07"));
    s.call(|s, p, q| engine::serve(s, p, q, 1));
    s.call(|s, p, q| engine::receive(s, p, q, 1));
    s.call(|s, p, q| engine::drop(s, p, q, 1, 0));
    s.print(rt, 6, 1, 0);
    s.call(|s, p, q| engine::yield_line(s, p, q, 0));
    s.print(rt, 7, 1, 0);
    s.call(|s, p, q| engine::writeback(s, p, q, 1, 0));
    s.print(rt, 8, 1, 0);
}

// Core 1 owns line 0 and stores to it by the digits of its byte; by a digit that is none (13), and by one digit (13), it does not.
fn digits(rt: &impl Print) {
    let mut s = opened();
    s.call(|s, p, q| engine::store_digits(s, p, q, 1, 0, b"1f"));
    s.call(|s, p, q| engine::serve(s, p, q, 1));
    s.call(|s, p, q| engine::receive(s, p, q, 1));
    s.call(|s, p, q| engine::store_digits(s, p, q, 1, 0, b"1f"));
    s.print(rt, 4, 1, 0);
    s.call(|s, p, q| engine::store_digits(s, p, q, 1, 0, b"2g"));
    s.print(rt, 5, 1, 0);
    s.call(|s, p, q| engine::store_digits(s, p, q, 1, 0, b"2"));
    s.print(rt, 6, 1, 0);
}

pub(crate) fn play_all(rt: &impl Print) {
    evict(rt);
    others(rt);
    digits(rt);
}
