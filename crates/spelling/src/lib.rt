// Numbers in decimal and bytes in hex, as the journal and the listing spell them (N and H of the scope).
//
// Reading and printing are promised by the same two definitions, `decimal` and `hex` of specs/, so what is printed is read
// back as it was, and what is read prints as it was.
#![tactic(auto)]

ghost use Rattle.std.specs.Prelude.{◌≡◌, ◌+◌, ◌-◌, ◌*◌, ◌≤◌, ◌<◌, length, drop, SomeIff};
ghost use Rattle.spelling.specs.{Bytes.{All, up_to, Test, Without}, Decimal.{decimal, NumberOf}, Hex.{digit, nibble, hex, unhex, HexDigit, DataTest, HexTest}};
ghost use Rattle.spelling.specs.Over.{PutAt, PutBefore};

// Whether none of the bytes is `stop`. Every byte is looked at, so that they can be compared at once: with `all` it is slower.
fn is_clear(s: &[u8], stop: u8) -> bool
    ensures { Test (Without stop s.now) result }
{
    let mut clear = true;
    for b in s {
        clear = clear & (*b != stop);
    }
    clear
}

// How many bytes from the front on are surely not `stop`: eight bytes at a time.
fn clear_len(s: &[u8], stop: u8) -> usize
    ensures within { result ≤ length s.now }
    ensures clear { length (up_to stop s.now) ≡ result + length (up_to stop (drop result s.now)) }
{
    let mut n: usize = 0;
    for eight in s.chunks_exact(8) {
        if !is_clear(eight, stop) {
            return n;
        }
        n += 8;
    }
    n
}

// Where the next byte `stop` is, from `at` on, or else the end: a blank ends a value, a newline a line.
pub fn run_end(s: &[u8], at: usize, stop: u8) -> usize
    ensures { result ≡ at + length (up_to stop (drop at s.now)) }
{
    if s.len() < at {
        return at;
    }
    let clear = clear_len(&s[at..], stop);
    for i in at + clear..s.len() {
        if s[i] == stop {
            return i;
        }
    }
    s.len()
}

// The number that a decimal digit stands for; of any other byte, None.
fn digit_value(b: u8) -> Option<u32>
    ensures { SomeIff result ((48 ≤ b) × (b ≤ 57)) (b - 48) }
{
    match b {
        b'0'..=b'9' => Some(u32::from(b - b'0')),
        _ => None,
    }
}

// A number with one more digit behind it; None for a byte that is no digit, after a leading zero, and above 4,294,967,295.
fn with_digit(v: u32, b: u8) -> Option<u32>
    ensures { SomeIff result ((48 ≤ b) × (b ≤ 57) × (0 < v) × (v * 10 + (b - 48) ≤ 4294967295)) (v * 10 + (b - 48)) }
{
    if v == 0 {
        return None;
    }
    v.checked_mul(10)?.checked_add(digit_value(b)?)
}

// The number that the whole of `s` spells: digits without a leading zero, at most 4,294,967,295.
pub fn read_number(s: &[u8]) -> Option<u32>
    ensures { NumberOf s.now result }
{
    let (first, rest) = s.split_first()?;
    let mut v = digit_value(*first)?;
    for b in rest {
        v = with_digit(v, *b)?;
    }
    Some(v)
}

// Whether a byte is a lower-case hex digit. Both ranges are looked at: `matches!` on them makes `is_data` slower.
pub fn is_hex(b: u8) -> bool
    ensures { HexTest b result }
{
    ((b'0' <= b) & (b <= b'9')) | ((b'a' <= b) & (b <= b'f'))
}

// Whether every byte is a hex digit. Every byte is looked at, so that they can be compared at once: with `all` it is slower.
fn all_hex(s: &[u8]) -> bool
    ensures { Test (All HexDigit s.now) result }
{
    let mut ok = true;
    for b in s {
        ok = ok & is_hex(*b);
    }
    ok
}

// Whether the whole of `s` is data: one pair of hex digits or more.
pub fn is_data(s: &[u8]) -> bool
    ensures { DataTest s.now result }
{
    !s.is_empty() && s.len() % 2 == 0 && all_hex(s)
}

// Where `n` bytes end that are put at an offset of a buffer of `size` bytes, or None where they do not fit.
fn end_of(size: usize, at: usize, n: usize) -> Option<usize>
    ensures { SomeIff result (at + n ≤ size) (at + n) }
{
    at.checked_add(n).filter(|end| *end <= size)
}

// A text as it is, into a lent buffer at an offset; the answer is the offset after it. Where it does not fit, the answer is None
// and the buffer is left as it was.
pub fn put_text(out: &mut [u8], at: usize, text: &[u8]) -> Option<usize>
    ensures { PutAt out.old at text.now out.new result }
{
    let end = end_of(out.len(), at, text.len())?;
    out[at..end].copy_from_slice(text);
    Some(end)
}

// A number in decimal, the last digit just before an offset of a lent buffer; the answer is where the first digit is. A
// number has at most twenty digits: where fewer bytes lie before the offset, or it lies past the buffer's end, the buffer is
// left as it was and the answer is the offset itself.
pub fn put_number_before(out: &mut [u8], end: usize, n: u64) -> usize
    ensures { PutBefore out.old end (decimal n) out.new result }
{
    if end < 20 || out.len() < end {
        return end;
    }
    let mut k = end;
    let mut m = n;
    // The last digit put is the first of the number; one loop for all of them divides once more, and is slower.
    while 10 <= m {
        k -= 1;
        out[k] = b'0' + (m % 10) as u8;
        m /= 10;
    }
    k -= 1;
    out[k] = b'0' + m as u8;
    k
}

// The hex digit of a number below 16.
fn hex_digit(d: u8) -> u8
    requires { d < 16 }
    ensures { result ≡ digit d }
{
    if d < 10 { b'0' + d } else { 87 + d }
}

// Bytes in hex, two digits a byte, into a lent buffer at an offset; the answer is the offset after them. Where they do not fit,
// the answer is None and the buffer is left as it was.
pub fn put_hex(out: &mut [u8], at: usize, bytes: &[u8]) -> Option<usize>
    ensures { PutAt out.old at (hex bytes.now) out.new result }
{
    let end = end_of(out.len(), at, 2 * bytes.len())?;
    for (i, b) in bytes.iter().enumerate() {
        out[at + 2 * i] = hex_digit(*b / 16);
        out[at + 2 * i + 1] = hex_digit(*b % 16);
    }
    Some(end)
}

// The number that a hex digit stands for; of any other byte, some number below 16.
fn nibble(b: u8) -> u8
    ensures { result ≡ nibble b }
{
    (b % 16 + 9 * (b / 64)) % 16
}

// The bytes that digits spell, two digits a byte, into a lent buffer at an offset; the answer is the offset after them. Where they
// do not fit, the answer is None and the buffer is left as it was. Whether they are digits is not looked at: `is_data` does that.
pub fn put_unhex(out: &mut [u8], at: usize, digits: &[u8]) -> Option<usize>
    ensures { PutAt out.old at (unhex digits.now) out.new result }
{
    let end = end_of(out.len(), at, digits.len() / 2)?;
    for (i, pair) in digits.chunks_exact(2).enumerate() {
        out[at + i] = nibble(pair[0]) * 16 + nibble(pair[1]);
    }
    Some(end)
}
