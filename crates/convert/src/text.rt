// The text of a result, which is written one piece after the other into a buffer of the longest journal's length. A function that has a
// `requires` says what is known where it is called.
ghost use mathlib.Core.{List.{[], ◌∷◌, ◌++◌}};
ghost use Rattle.std.specs.Prelude.{◌≤◌, length};
ghost use Rattle.spelling.specs.Decimal.{decimal};
ghost use Rattle.convert.specs.Spelling.{opening_line};
ghost use Rattle.convert.specs.Writing.{Holds, Appends, sizes_text, skip_of, changed};

use super::{Change, MOST, To};
use protocol::Opening;

// The text is at the start of `bytes`, up to `end`; or it is longer than they are, and has no end.
#[derive(Drop)]
pub(crate) struct Text {
    pub(crate) bytes: [u8; MOST],
    pub(crate) end: Option<usize>,
}

impl Text {
    // The empty text.
    #[inline]
    pub(crate) fn new() -> Self
        ensures { Holds result [] }
    {
        Text {
            bytes: [0u8; MOST],
            end: Some(0),
        }
    }

    // A piece behind the text.
    fn put(&mut self, piece: &[u8])
        ensures { Appends self.old piece.now self.new }
    {
        if let Some(end) = self.end {
            self.end = spelling::put_text(&mut self.bytes, end, piece);
        }
    }

    // A key and its number in decimal.
    fn put_field(&mut self, key: &[u8], n: u64)
        ensures { Appends self.old (key.now ++ decimal n) self.new }
    {
        let mut digits = [0u8; 20];
        let start = spelling::put_number_before(&mut digits, 20, n);
        self.put(key);
        self.put(&digits[start..]);
    }

    // The form of a first line and its sizes.
    fn put_sizes(&mut self, form: &[u8], opening: Opening)
        ensures { Appends self.old (form.now ++ sizes_text opening) self.new }
    {
        self.put(form);
        self.put_field(b" cores=", opening.cores as u64);
        self.put_field(b" lines=", opening.lines as u64);
        self.put_field(b" width=", opening.width as u64);
        self.put_field(b" lease=", opening.lease as u64);
    }

    // The first line of the result, with its newline.
    pub(crate) fn put_opening(&mut self, to: To, opening: Opening)
        ensures { Appends self.old (opening_line to opening ++ (10 ∷ [])) self.new }
    {
        match to {
            To::First => self.put_sizes(b"fabric=1", opening),
            To::Second => {
                self.put_sizes(b"fabric=2", opening);
                self.put_field(b" cap=", opening.cap as u64);
            }
        }
        self.put(b"\n");
    }

    // A kind, and what is behind it.
    fn put_kind(&mut self, kind: &[u8], rest: &[u8])
        ensures { Appends self.old (kind.now ++ rest.now) self.new }
    {
        self.put(kind);
        self.put(rest);
    }

    // A line in the other form.
    pub(crate) fn put_line(&mut self, change: Change, line: &[u8])
        requires { skip_of change ≤ length line.now }
        ensures { Appends self.old (changed change line.now) self.new }
    {
        match change {
            Change::Same => self.put(line),
            Change::ToDrop => self.put_kind(b"op=drop", &line[8..]),
            Change::ToWriteback => self.put_kind(b"op=writeback", &line[8..]),
            Change::FromDrop => self.put_kind(b"op=evict", &line[7..]),
            Change::FromWriteback => self.put_kind(b"op=evict", &line[12..]),
        }
    }
}
