// Copying one line's bytes to its place in a lent buffer.
//
// The bytes that digits spell are decoded straight into the middle part of a buffer that is lent. Each function `requires` that the
// line and its place lie in the buffer: `move_bytes`, which calls them, has looked.
ghost use Rattle.std.specs.Prelude.{◌≡◌, ◌+◌, ◌≤◌, length};
ghost use Rattle.spelling.specs.{Over.over, Hex.unhex};
ghost use Rattle.protocol.specs.{Limits.most_width, Buffers.part, Given.bytes_as};

use protocol::{Given, Opening};

// Writes src over the bytes of buf from `at`.
fn put_line(buf: &mut [u8], at: usize, src: &[u8])
    requires { at + length src.now ≤ length buf.old }
    ensures { buf.new ≡ over buf.old at src.now }
{
    buf[at..at + src.len()].copy_from_slice(src);
}

// Writes the bytes that digits spell over those of buf from `at`.
fn put_digits(buf: &mut [u8], at: usize, digits: &[u8])
    requires { at + length (unhex digits.now) ≤ length buf.old }
    ensures { buf.new ≡ over buf.old at (unhex digits.now) }
{
    let e = at + digits.len() / 2;
    spelling::put_unhex(&mut buf[at..e], 0, digits);
}

// Writes the bytes given to a store over those of buf from `at`.
pub(crate) fn put_given(buf: &mut [u8], at: usize, read: Given, given: &[u8])
    requires { at + length (bytes_as read given.now) ≤ length buf.old }
    ensures { buf.new ≡ over buf.old at (bytes_as read given.now) }
{
    match read {
        Given::Bytes => put_line(buf, at, given),
        Given::Digits => put_digits(buf, at, given),
    }
}

// Copies the n bytes of src from `from` over those of dst from `at`.
pub(crate) fn move_line(dst: &mut [u8], at: usize, src: &[u8], from: usize, n: usize)
    requires { (from + n ≤ length src.now) × (at + n ≤ length dst.old) }
    ensures { dst.new ≡ over dst.old at (part src.now from n) }
{
    put_line(dst, at, &src[from..from + n]);
}

// Copies the n bytes of buf from `from` over those from `to`, by way of a line of its own.
pub(crate) fn shift_line(buf: &mut [u8], to: usize, from: usize, n: usize)
    requires { (n ≤ most_width) × (from + n ≤ length buf.old) × (to + n ≤ length buf.old) }
    ensures { buf.new ≡ over buf.old to (part buf.old from n) }
{
    let mut line = [0u8; Opening::MOST_WIDTH];
    line[..n].copy_from_slice(&buf[from..from + n]);
    put_line(buf, to, &line[..n]);
}
