// What a host simulator calls: lines and whole journals, bytes in, bytes out. The crate `host_c` exports these functions to C, and
// include/fabric.h declares them.
//
// Each one hands its bytes on, to what the programs call too, and says the answer in a number. Parameters and numbers are those of C.
#![tactic(auto)]

ghost use Rattle.std.specs.Prelude.{◌≡◌};
ghost use Rattle.convert.specs.declared.To.TheVariants.{First, Second};
ghost use Rattle.host.specs.{Verdict.Verdict, Answers.{ChecksFor, size_of, number_of, length_or, ListsFor, TalliesFor, ConvertsFor}};

use grammar::Refusal;

// What C gets where a text has no room: SIZE_MAX.
const NO_ROOM: usize = usize::MAX;

// 0 for a step line of a `fabric=1` journal, and otherwise its refusal: 10, 11, 12 or 13. The newline is not passed.
pub fn fabric_check_line(line: &[u8]) -> u32
    ensures { Verdict line.now result }
{
    grammar::number_of(grammar::read_line(line, 1))
}

// 0 for a journal that reads whole, and otherwise the refusal that ends its listing: 7, 10 to 14. `line` is then the number of
// the last line, or of the one that is refused.
pub fn fabric_check(journal: &[u8], line: &mut usize) -> u32
    ensures { ChecksFor journal.now result line.new }
{
    let checked = whole::check(journal);
    *line = checked.line;
    checked.number()
}

// Where a text ends, or that it has no room.
fn size_of(put: Option<usize>) -> usize
    ensures { result ≡ size_of put }
{
    put.unwrap_or(NO_ROOM)
}

// The listing of a journal, at the start of `out`: its length, or SIZE_MAX where it has no room there.
pub fn fabric_list(journal: &[u8], out: &mut [u8]) -> usize
    ensures { ListsFor journal.now out.old out.new result }
{
    size_of(whole::list(journal, out))
}

// The line of a journal's tally, at the start of `out`: its length, or SIZE_MAX where it has no room there.
pub fn fabric_tally(journal: &[u8], out: &mut [u8]) -> usize
    ensures { TalliesFor journal.now out.old out.new result }
{
    let counts = whole::tally(journal);
    size_of(listing::put_tally(out, 0, counts))
}

// A conversion's answer as a number: 0, with the length of the result in `length`, or its refusal.
fn answer_of(converted: Result<usize, Refusal>, length: &mut usize) -> u32
    ensures { (result ≡ number_of converted) × (length.new ≡ length_or converted length.old) }
{
    match converted {
        Ok(n) => {
            *length = n;
            0
        }
        Err(refusal) => u32::from(refusal.number()),
    }
}

// A journal of `fabric=2` as one of `fabric=1`, at the start of `out`: 0, or the refusal.
pub fn fabric_to1(journal: &[u8], out: &mut [u8], length: &mut usize) -> u32
    ensures { ConvertsFor First journal.now out.old out.new length.old length.new result }
{
    answer_of(convert::to1(journal, out), length)
}

// A journal of `fabric=1` as one of `fabric=2`, at the start of `out`: 0, or the refusal.
pub fn fabric_to2(journal: &[u8], out: &mut [u8], length: &mut usize) -> u32
    ensures { ConvertsFor Second journal.now out.old out.new length.old length.new result }
{
    answer_of(convert::to2(journal, out), length)
}
