// The journal's lines: what one line says, by the forms of the grammar.
//
// A form is a kind (`op=load`) and then keys, each with its value. Two bytes of a line, its tag, tell the only row of the table that it
// may have; one function, `fill`, reads the keys of any row. A new first line or step is a new row: here in `ROWS_BY_TAG`, `fill_row`
// and, for a step, `call_of`; and in specs/Table.antt; with the counts in both. The rows that a journal of some form has are one range
// of the table. Texts are named where they are compared, as constants: a text that is looked up by its key makes `steps` 3 % slower.
#![tactic(auto)]

ghost use Rattle.std.specs.Prelude.{ℕ, ◌≡◌, ◌≤◌, ◌<◌, length, drop};
ghost use Rattle.grammar.specs.Scan.{tag_of, RowAt, form_of, key_text, field_parts, texted, key_value, After, ValueRead, Reads, FoundIn, answer_of, cap_of, Called};
ghost use Rattle.grammar.specs.{Table.{rows_of, number_count, step_count, row_count, range_of}, Line.{LineOf, number_by}, Refusal.number};

use protocol::{Call, Given, Opening};
use std::ops::Range;

// Why a journal is refused, or its run ends: each refusal has a number of the scope.
#[derive(Clone, Copy, Debug, PartialEq, Eq)]
pub enum Refusal {
    // The opening sizes, lease or capacity lie outside the limits.
    Unfit = 7,
    // A line over 200 bytes, or a last line without its newline.
    TooLong = 10,
    // No form of the grammar, or nothing where the first line is due.
    NoForm = 11,
    // A value that is no number.
    NotNumber = 12,
    // A value that is no data.
    NotData = 13,
    // A journal over 65,536 bytes, or a result that has no room.
    TooMuch = 14,
    // A journal of `fabric=2` that `fabric=1` has no like of.
    Unlike = 32,
}

impl Refusal {
    // The scope's number.
    pub fn number(self) -> u8
        ensures { result ≡ number self }
    {
        self as u8
    }
}

// What can stand for a refusal where it is told as a number: a refusal of the grammar's, or a number, which stands for itself.
pub trait Numbered {
    // The number of a value.
    ghost numbered: { Self → ℕ };

    // The number.
    fn as_number(self) -> u32
        ensures { result ≡ numbered self };
}

impl Numbered for Refusal {
    ghost numbered = { number };

    fn as_number(self) -> u32 {
        u32::from(self.number())
    }
}

impl Numbered for u32 {
    ghost numbered = { λ n. n };

    fn as_number(self) -> u32 {
        self
    }
}

// What a line says: it opens an engine, or it is a step.
#[derive(Clone, Copy)]
pub enum Line {
    // The first line: the journal's form (1 for `fabric=1`, 2 for `fabric=2`), and the opening sizes, lease and capacity.
    Opening {
        form: u32,
        opening: Opening,
    },
    // A step line; a store's digits are at `start..end` of the line, an empty part of any other.
    Step {
        call: Call,
        start: usize,
        end: usize,
    },
}

// Where the rows start that have a place in `fabric=2` alone; how many of the rows are steps, and how many there are with the first lines;
// how many numbers a line has at most (`second_start`, `step_count`, `row_count`, `number_count` of specs/Table.antt).
const SECOND: usize = 9;

const STEPS: usize = 12;

const ROWS: usize = STEPS + 2;

const NUMBERS: usize = 5;

// The row of each tag, as a letter from a on; ~, which is no row's, where there is none. The tag of a line or a form is 15 times its
// seventh byte and its eighth, modulo 32: no two rows have the same.
const ROWS_BY_TAG: [u8; 32] = *b"~a~~mn~~~~~i~~~ejkdcfl~~h~~~bg~~";

// The keys of the grammar. The value of `data=` is data, and of every other a number.
#[derive(Clone, Copy)]
enum Key {
    Core,
    Line,
    By,
    Data,
    Cores,
    Lines,
    Width,
    Lease,
    Cap,
}

// What is wrong in a line that has a form: a number (the refusal 12), or else the data (13).
#[derive(Clone, Copy)]
enum Wrong {
    Number,
    Data,
}

// What was read of a line by a form: what is wrong, the numbers in the places of their values, and where the data start (the
// line's end, if there are none).
#[derive(Clone, Copy)]
struct Values {
    wrong: Option<Wrong>,
    number: [u32; NUMBERS],
    start: usize,
}

// The offset after a text that is in a line at an offset; None where it is not there.
fn after(line: &[u8], at: usize, text: &[u8]) -> Option<usize>
    requires { at ≤ length line.now }
    ensures { After line.now at text.now result }
{
    if line[at..].starts_with(text) {
        Some(at + text.len())
    } else {
        None
    }
}

// The offset after a key that is in a line at an offset; None where it is not there.
fn after_key(line: &[u8], at: usize, key: Key) -> Option<usize>
    requires { at ≤ length line.now }
    ensures { After line.now at (key_text key) result }
{
    match key {
        Key::Core => after(line, at, b" core="),
        Key::Line => after(line, at, b" line="),
        Key::By => after(line, at, b" by="),
        Key::Data => after(line, at, b" data="),
        Key::Cores => after(line, at, b" cores="),
        Key::Lines => after(line, at, b" lines="),
        Key::Width => after(line, at, b" width="),
        Key::Lease => after(line, at, b" lease="),
        Key::Cap => after(line, at, b" cap="),
    }
}

// Reads the i-th value of a line, which is that of a key and starts at an offset of it.
fn read_value(values: &mut Values, i: usize, key: Key, start: usize, value: &[u8])
    requires { i < number_count }
    ensures { ValueRead values.old i start value.now (key_value key) values.new }
{
    match key {
        Key::Data if spelling::is_data(value) => values.start = start,
        Key::Data => values.wrong = values.wrong.or(Some(Wrong::Data)),
        _ => match spelling::read_number(value) {
            Some(n) => values.number[i] = n,
            None => values.wrong = Some(Wrong::Number),
        },
    }
}

// The line read from `head` on, where its kind ends, against keys, each with its value: none where it has not this form.
fn fill(line: &[u8], head: usize, keys: &[Key]) -> Option<Values>
    requires { (head ≤ length line.now) × (length keys.now ≤ number_count) }
    ensures { Reads line.now (field_parts keys.now) (drop head line.now) result }
{
    let mut values = Values {
        wrong: None,
        number: [0u32; NUMBERS],
        start: line.len(),
    };
    let mut at = head;
    for (i, &key) in keys.iter().enumerate() {
        let start = after_key(line, at, key)?;
        at = spelling::run_end(line, start, b' ');
        let value = &line[start..at];
        read_value(&mut values, i, key, start, value);
    }
    if at < line.len() {
        return None;
    }
    Some(values)
}

// The line read against a kind and keys, each with its value. Always inlined, so that the kind is compared as a constant.
#[inline(always)]
fn read(line: &[u8], kind: &[u8], keys: &[Key]) -> Option<Values>
    requires { length keys.now ≤ number_count }
    ensures { Reads line.now (texted kind.now (field_parts keys.now)) line.now result }
{
    fill(line, after(line, 0, kind)?, keys)
}

// The line read against the form of a row: its kind and its keys.
fn fill_row(line: &[u8], row: usize) -> Option<Values>
    requires { row < row_count }
    ensures { Reads line.now (form_of row) line.now result }
{
    match row {
        0 => read(line, b"op=evict", &[Key::Core, Key::Line]),
        1 => read(line, b"op=load", &[Key::Core, Key::Line]),
        2 => read(line, b"op=store", &[Key::Core, Key::Line, Key::Data]),
        3 => read(line, b"op=fence", &[Key::Core]),
        4 => read(line, b"op=serve", &[Key::Core]),
        5 => read(line, b"op=receive", &[Key::Core]),
        6 => read(line, b"op=advance", &[Key::Core, Key::By]),
        7 => read(line, b"op=yield", &[Key::Line]),
        8 => read(line, b"op=take", &[Key::Line]),
        9 => read(line, b"op=drop", &[Key::Core, Key::Line]),
        10 => read(line, b"op=writeback", &[Key::Core, Key::Line]),
        11 => read(line, b"op=victim", &[Key::Core]),
        12 => read(
            line,
            b"fabric=1",
            &[Key::Cores, Key::Lines, Key::Width, Key::Lease],
        ),
        _ => read(
            line,
            b"fabric=2",
            &[Key::Cores, Key::Lines, Key::Width, Key::Lease, Key::Cap],
        ),
    }
}

// The only row that a line may have whose seventh and eighth byte are these.
fn row_at(a: u8, b: u8) -> usize
    ensures { RowAt (tag_of a b) result }
{
    usize::from(ROWS_BY_TAG[(usize::from(a) * 15 + usize::from(b)) % 32] - b'a')
}

// The rows of a form of journal; no form beyond has any. Rows are numbers, and no enum, since those of a form are a range of the table.
fn range_of(form: u32) -> Range<usize>
    ensures { result ≡ range_of form }
{
    match form {
        0 => STEPS..ROWS,
        1 => 0..SECOND,
        2 => 1..STEPS,
        _ => 0..0,
    }
}

// The row whose form a line has, and what was read by it.
#[derive(Clone, Copy)]
struct Found {
    row: usize,
    values: Values,
}

// Which of some rows has the line, and what is read by it.
fn find(line: &[u8], rows: Range<usize>) -> Option<Found>
    requires { rows.end ≤ row_count }
    ensures { FoundIn line.now rows result }
{
    if line.len() < 8 {
        return None;
    }
    let row = row_at(line[6], line[7]);
    if !rows.contains(&row) {
        return None;
    }
    let values = fill_row(line, row)?;
    Some(Found { row, values })
}

// The call of a step row, given the line's numbers.
fn call_of(row: usize, number: [u32; NUMBERS]) -> Call
    requires { row < step_count }
    ensures { Called row number result }
{
    let a = number[0] as usize;
    let b = number[1] as usize;
    let by = number[1];
    match row {
        0 => Call::Evict { core: a, line: b },
        1 => Call::Load { core: a, line: b },
        2 => Call::Store {
            given: Given::Digits,
            core: a,
            line: b,
        },
        3 => Call::Fence { core: a },
        4 => Call::Serve { core: a },
        5 => Call::Receive { core: a },
        6 => Call::Advance { core: a, by },
        7 => Call::Yield { line: a },
        8 => Call::Take { line: a },
        9 => Call::Drop { core: a, line: b },
        10 => Call::Writeback { core: a, line: b },
        _ => Call::Victim { core: a },
    }
}

// The capacity that a first line says, given its numbers of lines and of `cap=`: `fabric=1` has no `cap=`, and means as many as lines.
fn cap_of(form: u32, lines: u32, cap: u32) -> u32
    ensures { result ≡ cap_of form lines cap }
{
    if form == 1 { lines } else { cap }
}

// What a row that was found says, of a line that ends at `end`.
fn answer(found: Found, end: usize) -> Result<Line, Refusal>
    requires { found.row < row_count }
    ensures { result ≡ answer_of found end }
{
    let Found { row, values } = found;
    let number = values.number;
    match values.wrong {
        Some(Wrong::Number) => return Err(Refusal::NotNumber),
        Some(Wrong::Data) => return Err(Refusal::NotData),
        None => {}
    }
    if row < STEPS {
        return Ok(Line::Step {
            call: call_of(row, number),
            start: values.start,
            end,
        });
    }
    let form = (row - STEPS) as u32 + 1;
    Ok(Line::Opening {
        form,
        opening: Opening {
            cores: number[0] as usize,
            lines: number[1] as usize,
            width: number[2] as usize,
            lease: number[3],
            cap: cap_of(form, number[1], number[4]) as usize,
        },
    })
}

// What one line says, newline not counted. Form 0 expects the first line of a journal; form 1 is a journal that began with
// `fabric=1`, form 2 one that began with `fabric=2`; no line has a form beyond. `LineOf (rows_of form)` is promised for every number, so
// a form is no enum.
pub fn read_line(line: &[u8], form: u32) -> Result<Line, Refusal>
    ensures { LineOf (rows_of form) line.now result }
{
    if 200 < line.len() {
        return Err(Refusal::TooLong);
    }
    match find(line, range_of(form)) {
        Some(found) => answer(found, line.len()),
        None => Err(Refusal::NoForm),
    }
}

// The scope's number of an answer: that of what refuses the line, and 0 for a line that is read. It is what C gets. It is promised for
// every number, not only for those of the grammar's own refusals.
pub fn number_of<R: Numbered>(line: Result<Line, R>) -> u32
    ensures { result ≡ number_by R.numbered line }
{
    match line {
        Ok(_) => 0,
        Err(refusal) => refusal.as_number(),
    }
}
