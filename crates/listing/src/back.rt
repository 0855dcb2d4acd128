// A line of text that is built from its end to its start: a number's digits come last digit first.
ghost use Rattle.std.specs.Prelude.{◌≡◌, ◌+◌, ◌≤◌, ◌++◌, [], length, drop};
ghost use Rattle.spelling.specs.Decimal.{decimal};

// The text stands at the end of `bytes`, from `start` on.
#[derive(Drop)]
pub(crate) struct Back<const N: usize> {
    bytes: [u8; N],
    start: usize,
    ghost inside: { start ≤ N },
}

impl<const N: usize> Back<N> {
    // A line without text.
    #[inline]
    pub(crate) fn new() -> Self
        ensures text { drop result.start result.bytes ≡ [] }
        ensures start { result.start ≡ N }
    {
        Back {
            bytes: [0u8; N],
            start: N,
        }
    }

    // A text in front of the line.
    #[inline]
    pub(crate) fn text(&mut self, text: &[u8])
        requires { length text.now ≤ self.old.start }
        ensures text { drop self.new.start self.new.bytes ≡ text.now ++ drop self.old.start self.old.bytes }
        ensures start { self.new.start + length text.now ≡ self.old.start }
    {
        self.start -= text.len();
        spelling::put_text(&mut self.bytes, self.start, text);
    }

    // A number in front of it: at most twenty digits.
    #[inline]
    pub(crate) fn number(&mut self, n: u64)
        requires { 20 ≤ self.old.start }
        ensures text { drop self.new.start self.new.bytes ≡ decimal n ++ drop self.old.start self.old.bytes }
        ensures start { self.old.start ≤ self.new.start + 20 }
    {
        self.start = spelling::put_number_before(&mut self.bytes, self.start, n);
    }

    // A key and its number in front of it.
    #[inline]
    pub(crate) fn field(&mut self, key: &[u8], n: u64)
        requires { length key.now + 20 ≤ self.old.start }
        ensures text { drop self.new.start self.new.bytes ≡ key.now ++ (decimal n ++ drop self.old.start self.old.bytes) }
        ensures start { self.old.start ≤ self.new.start + (length key.now + 20) }
    {
        self.number(n);
        self.text(key);
    }

    // The line.
    #[inline]
    pub(crate) fn line(&self) -> &[u8]
        ensures { result.now ≡ drop self.now.start self.now.bytes }
    {
        let bytes = &self.bytes[..];
        &bytes[self.start..]
    }
}
