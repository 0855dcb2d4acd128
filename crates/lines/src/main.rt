// How far a journal reads: the journal of standard input is read, line by line, to its end or to the first line that is refused.
// One line is printed: how many lines were read, and the number of the refusal if there is one. It is an example of a walk with
// the reader; unlike `steps` it takes a read that fails for the end of the input.
#![tactic(auto)]

ghost use Rattle.std.specs.Prelude.{◌≡◌, ◌≤◌, length};
ghost use Rattle.journal.specs.Journal.{goes_on};
ghost use Rattle.lines.specs.Count.{CountsLines};

use grammar::Refusal;
use journal::{Item, Reader};
use std::io::Read;

// How many lines were read, and what is after them: the end, or a refusal.
#[derive(Clone, Copy)]
struct LineCount {
    lines: usize,
    last: Result<Option<Item>, Refusal>,
}

// Whether reading goes on after an answer.
fn goes_on(n: Result<Option<Item>, Refusal>) -> bool
    ensures { result ≡ goes_on n }
{
    matches!(n, Ok(Some(_)))
}

// A whole journal, by a reader from its start: each step is that of the reader that the one before returned.
fn count_lines(journal: &[u8]) -> LineCount
    ensures { CountsLines journal.now result }
{
    let mut lines = 0;
    let mut s = Reader::new(journal).next();
    while goes_on(s.next) {
        lines += 1;
        s = s.reader.next();
    }
    LineCount {
        lines,
        last: s.next,
    }
}

// Reads a journal to its end, or to a read that fails: how many bytes it has. One byte more than the longest journal that is taken suffices
// to tell one that is too long. It is not `runner::read_input`, which answers an error where a read fails, and not what was read before.
fn read_journal<R: Read>(input: &mut R, journal: &mut [u8; 65537]) -> usize
    ensures { result ≤ length journal.new }
{
    let mut done = 0;
    while done < journal.len() {
        let Ok(n @ 1..) = input.read(&mut journal[done..]) else {
            break;
        };
        done += n;
    }
    done
}

// A write that fails is passed over.
fn main(rt: HostRuntime) {
    let mut journal = [0u8; 65537];
    let n = read_journal(&mut rt.stdin(), &mut journal);
    let t = count_lines(&journal[..n]);
    let lines = t.lines;
    let _ = match t.last {
        Ok(_) => println!(rt; "lines={lines}"),
        Err(refusal) => {
            let number = refusal.number();
            println!(rt; "lines={lines} refused={number}")
        }
    };
}
