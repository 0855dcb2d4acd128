// Conversions into lent buffers of other lengths than the programs': a result with no room, a byte too little, just enough and a
// byte more; and numbers that come before 14, where the buffer is too short besides.
//
// Every buffer is filled with dots. Of each conversion it prints the answer and the whole buffer after it: a result, dots past it,
// and only dots where the journal was refused.
#![tactic(auto)]

ghost use Rattle.std.specs.Prelude.{◌≤◌};

use convert::To;
use grammar::Refusal;

// The longest buffer.
const MOST: usize = 200;

// A buffer that has no room for any result.
const SHORT: usize = 8;

// Prints an answer. A write that fails is passed over.
fn print_answer(rt: &impl Print, answer: Result<usize, Refusal>) {
    let _ = match answer {
        Ok(n) => println!(rt; "length={n}"),
        Err(refusal) => {
            let n = refusal.number();
            println!(rt; "refused={n}")
        }
    };
}

// Converts a journal into a buffer of so many bytes, and prints the answer and the buffer.
fn play(rt: &impl Print, to: To, journal: &[u8], room: usize)
    requires { room ≤ 200 }
{
    let mut buffer = [b'.'; MOST];
    let out = &mut buffer[..room];
    print_answer(rt, convert::convert(to, journal, out));
    let _ = rt.write_all(out);
    let _ = println!(rt;);
}

// Converts a journal whose result has so many bytes into four buffers.
fn play_around(rt: &impl Print, to: To, journal: &[u8], length: usize)
    requires { (1 ≤ length) × (length ≤ 199) }
{
    for room in [0, length - 1, length, length + 1] {
        play(rt, to, journal, room);
    }
}

// An evict before the line has come, which is a drop, and one after, which is a writeback.
fn to_second(rt: &impl Print) {
    play_around(
        rt,
        To::Second,
        b"fabric=1 cores=1 lines=1 width=1 lease=1\n\
          op=store core=0 line=0 data=07\n\
          op=serve core=0\n\
          op=evict core=0 line=0\n\
          op=receive core=0\n\
          op=evict core=0 line=0\n",
        161,
    );
}

// A drop, and a writeback of a copy that is gone.
fn to_first(rt: &impl Print) {
    play_around(
        rt,
        To::First,
        b"fabric=2 cores=1 lines=1 width=1 lease=1 cap=1\n\
          op=load core=0 line=0\n\
          op=serve core=0\n\
          op=receive core=0\n\
          op=drop core=0 line=0\n\
          op=writeback core=0 line=0\n",
        143,
    );
}

// 10 for a last line without its newline; 11 for nothing, and for a first line of the other form; 12 behind sizes that are 7; 7.
fn refused_to_second(rt: &impl Print) {
    let journals: [&[u8]; 5] = [
        b"fabric=1 cores=1 lines=1 width=1 lease=1\nop=serve core=0",
        b"",
        b"fabric=2 cores=1 lines=1 width=1 lease=1 cap=1\n",
        b"fabric=1 cores=17 lines=1 width=1 lease=1\nop=serve core=00\n",
        b"fabric=1 cores=17 lines=1 width=1 lease=1\n",
    ];
    for journal in journals {
        play(rt, To::Second, journal, SHORT);
    }
}

// A drop of a copy that is owned.
const THIRTY: &[u8] = b"fabric=2 cores=1 lines=1 width=1 lease=1 cap=1\n\
                        op=store core=0 line=0 data=07\n\
                        op=serve core=0\n\
                        op=receive core=0\n\
                        op=drop core=0 line=0\n";

// 11 for a first line of the other form; 7 for a cap over lines; 32 for a cap below lines, for a victim, and for a step that answers
// 30, also with room for the lines before it.
fn refused_to_first(rt: &impl Print) {
    let journals: [&[u8]; 5] = [
        b"fabric=1 cores=1 lines=1 width=1 lease=1\n",
        b"fabric=2 cores=1 lines=1 width=1 lease=1 cap=2\n",
        b"fabric=2 cores=1 lines=2 width=1 lease=1 cap=1\n",
        b"fabric=2 cores=1 lines=1 width=1 lease=1 cap=1\nop=victim core=0\n",
        THIRTY,
    ];
    for journal in journals {
        play(rt, To::First, journal, SHORT);
    }
    play(rt, To::First, THIRTY, MOST);
}

fn main(rt: HostRuntime) {
    to_second(&rt);
    to_first(&rt);
    refused_to_second(&rt);
    refused_to_first(&rt);
}
