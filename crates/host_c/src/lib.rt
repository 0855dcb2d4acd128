// What C calls, by the names of include/fabric.h: each function is that of `host`, and promises the same.
#![tactic(auto)]

ghost use Rattle.convert.specs.declared.To.TheVariants.{First, Second};
ghost use Rattle.host.specs.{Verdict.Verdict, Answers.{ChecksFor, ListsFor, TalliesFor, ConvertsFor}};

// 0 for a step line of a `fabric=1` journal, and otherwise its refusal: 10, 11, 12 or 13. The newline is not passed.
#[unsafe(no_mangle)]
pub extern "C" fn fabric_check_line(line: &[u8]) -> u32
    ensures { Verdict line.now result }
{
    host::fabric_check_line(line)
}

// 0 for a journal that reads whole, and otherwise the refusal that ends its listing: 7, 10 to 14. `line` is then the number of
// the last line, or of the one that is refused.
#[unsafe(no_mangle)]
pub extern "C" fn fabric_check(journal: &[u8], line: &mut usize) -> u32
    ensures { ChecksFor journal.now result line.new }
{
    host::fabric_check(journal, line)
}

// The listing of a journal, at the start of `out`: its length, or SIZE_MAX where it has no room there.
#[unsafe(no_mangle)]
pub extern "C" fn fabric_list(journal: &[u8], out: &mut [u8]) -> usize
    ensures { ListsFor journal.now out.old out.new result }
{
    host::fabric_list(journal, out)
}

// The line of a journal's tally, at the start of `out`: its length, or SIZE_MAX where it has no room there.
#[unsafe(no_mangle)]
pub extern "C" fn fabric_tally(journal: &[u8], out: &mut [u8]) -> usize
    ensures { TalliesFor journal.now out.old out.new result }
{
    host::fabric_tally(journal, out)
}

// A journal of `fabric=2` as one of `fabric=1`, at the start of `out`: 0, or the refusal.
#[unsafe(no_mangle)]
pub extern "C" fn fabric_to1(journal: &[u8], out: &mut [u8], length: &mut usize) -> u32
    ensures { ConvertsFor First journal.now out.old out.new length.old length.new result }
{
    host::fabric_to1(journal, out, length)
}

// A journal of `fabric=1` as one of `fabric=2`, at the start of `out`: 0, or the refusal.
#[unsafe(no_mangle)]
pub extern "C" fn fabric_to2(journal: &[u8], out: &mut [u8], length: &mut usize) -> u32
    ensures { ConvertsFor Second journal.now out.old out.new length.old length.new result }
{
    host::fabric_to2(journal, out, length)
}
