// Direct calls: the sample of the scope document, each call by its name; then every other call by its
// name too; then a list of calls by `step`, in which bytes move at every place where they can and each
// refusal is met.
//
// The sample: a store asks for the line, which is served and received, the store and a load commit, and
// a take finds no writeback.
#![tactic(auto)]

mod list;
mod named;
mod session;

use protocol::Opening;
use session::Session;

fn main(rt: HostRuntime) {
    let mut s = Session::<1, 3>::open(Opening {
        cores: 1,
        lines: 1,
        width: 1,
        lease: 10,
        cap: 1,
    });
    s.print_record(&rt, 0);
    s.call(|s, p, q| engine::store(s, p, q, 0, 0, b"\x07"));
    s.print(&rt, 1, 0, 0);
    s.call(|s, p, q| engine::serve(s, p, q, 0));
    s.print(&rt, 2, 0, 0);
    s.call(|s, p, q| engine::receive(s, p, q, 0));
    s.print(&rt, 3, 0, 0);
    s.call(|s, p, q| engine::store(s, p, q, 0, 0, b"\x07"));
    s.print(&rt, 4, 0, 0);
    s.call(|s, p, q| engine::load(s, p, q, 0, 0));
    s.print(&rt, 5, 0, 0);
    s.call(|s, p, q| engine::take(s, p, q, 0));
    s.print(&rt, 6, 0, 0);
    named::play_all(&rt);
    list::play_all(&rt);
}
