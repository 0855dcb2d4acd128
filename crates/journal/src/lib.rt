// A journal read line by line.
//
// An offset and a form say where reading is: it starts at offset 0 in form 0, where the first line is due. `step_at` says what
// is there. A `Reader` holds the journal with the offset and the form; `next` returns what is there and the reader after
// it together, and nobody else can set its offset, so no byte is passed over. A refusal, or the end, leaves the reader where it is:
// asking again gives the same answer.
#![tactic(auto)]

ghost use Rattle.std.specs.Prelude.{◌≡◌};
ghost use Rattle.journal.specs.Journal.{NextOf, offset_after, form_after, ReadOf, StepOf};

use grammar::{Line, Refusal};
use protocol::{Call, Opening};

// A line at an offset of a journal. `next` is the offset of the line after it.
#[derive(Clone, Copy)]
pub enum Item {
    // The first line: the journal's form, and the opening sizes, lease and capacity.
    Opening {
        form: u32,
        opening: Opening,
        next: usize,
    },
    // A step; its data digits are at `start..end` of the journal, an empty part but for a store.
    Step {
        call: Call,
        start: usize,
        end: usize,
        next: usize,
    },
}

// What is at an offset of a journal of the form given: a line, the end of the input, or a refusal. Form 0 expects the first line.
pub fn step_at(journal: &[u8], at: usize, form: u32) -> Result<Option<Item>, Refusal>
    ensures { NextOf journal.now at form result }
{
    if 65536 < journal.len() {
        return Err(Refusal::TooMuch);
    }
    if journal.len() <= at {
        if form == 0 {
            return Err(Refusal::NoForm);
        }
        return Ok(None);
    }
    let e = spelling::run_end(journal, at, b'\n');
    if journal.len() <= e {
        return Err(Refusal::TooLong);
    }
    let line = grammar::read_line(&journal[at..e], form)?;
    Ok(Some(match line {
        Line::Opening { form, opening } => Item::Opening {
            form,
            opening,
            next: e + 1,
        },
        Line::Step { call, start, end } => Item::Step {
            call,
            start: at + start,
            end: at + end,
            next: e + 1,
        },
    }))
}

// The offset after an answer: the next line's; a refusal, or the end, leaves it.
fn offset_after(at: usize, n: Result<Option<Item>, Refusal>) -> usize
    ensures { result ≡ offset_after at n }
{
    match n {
        Ok(Some(Item::Opening { next, .. })) => next,
        Ok(Some(Item::Step { next, .. })) => next,
        Ok(None) => at,
        Err(_) => at,
    }
}

// The form after an answer: the first line names it.
fn form_after(form: u32, n: Result<Option<Item>, Refusal>) -> u32
    ensures { result ≡ form_after form n }
{
    match n {
        Ok(Some(Item::Opening { form: named, .. })) => named,
        Ok(Some(Item::Step { .. })) => form,
        Ok(None) => form,
        Err(_) => form,
    }
}

// One reading: what is at an offset, and the offset and the form after it.
#[derive(Clone, Copy)]
struct Read {
    at: usize,
    form: u32,
    next: Result<Option<Item>, Refusal>,
}

// The work of a reader's step, on the slice and the numbers.
fn read_at(journal: &[u8], at: usize, form: u32) -> Read
    ensures { ReadOf journal.now at form result }
{
    let next = step_at(journal, at, form);
    Read {
        at: offset_after(at, next),
        form: form_after(form, next),
        next,
    }
}

// A journal, an offset in it where a line starts, and the journal's form: 0 until its first line was read.
#[derive(Clone, Copy)]
pub struct Reader<'a> {
    journal: &'a [u8],
    at: usize,
    form: u32,
}

// What a reader returns: what was where it was, and the reader after it.
#[derive(Clone, Copy)]
pub struct Step<'a> {
    pub reader: Reader<'a>,
    pub next: Result<Option<Item>, Refusal>,
}

impl<'a> Reader<'a> {
    // A reader at the start of a journal.
    pub fn new(journal: &'a [u8]) -> Reader<'a>
        ensures { (result.journal ≡ journal.entry) × (result.at ≡ 0) × (result.form ≡ 0) }
    {
        Reader {
            journal,
            at: 0,
            form: 0,
        }
    }

    // What is where the reader is, and the reader after it, over the same bytes.
    pub fn next(self) -> Step<'a>
        ensures { StepOf self.entry result }
    {
        let r = read_at(self.journal, self.at, self.form);
        Step {
            reader: Reader {
                journal: self.journal,
                at: r.at,
                form: r.form,
            },
            next: r.next,
        }
    }
}
