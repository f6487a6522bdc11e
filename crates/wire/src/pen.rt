// Writers into a lent buffer. A total one asks for no room: it answers the place past what it writes, fit or not.
ghost use Rattle.std.specs.Prelude.{◌≡◌, [], ◌∷◌, ◌+◌, ◌^◌, ◌≤◌, ◌<◌, length};
ghost use Rattle.wire.specs.Numbers.{bytes};
ghost use Rattle.wire.specs.Writing.{put, Wrote, Put};

use crate::number;

// Copies src to a place.
fn copy_at(out: &mut [u8], at: usize, src: &[u8])
    requires { at + length src.now ≤ length out.old }
    ensures { out.new ≡ put out.old at src.now }
{
    out[at..at + src.len()].copy_from_slice(src);
}

// Copies src to the front, and answers its length.
pub fn copy(out: &mut [u8], src: &[u8]) -> usize
    requires { length src.now ≤ length out.old }
    ensures { Wrote src.now out.old result out.new }
{
    copy_at(out, 0, src);
    src.len()
}

// Writes one byte.
pub fn put_byte(out: &mut [u8], at: usize, b: u8) -> usize
    requires { at < 2 ^ 63 }
    ensures { Put (b ∷ []) out.old at result out.new }
{
    if at < out.len() {
        out[at] = b;
        return at + 1;
    }
    at + 1
}

// Writes the last four bytes of a number, all at once.
pub fn put_word(out: &mut [u8], at: usize, n: usize) -> usize
    requires { at < 2 ^ 62 }
    ensures { Put (bytes 4 n) out.old at result out.new × (result ≡ at + 4) }
{
    let r = at + 4;
    if r <= out.len() {
        number::put32(out, at, n);
        return r;
    }
    r
}

// Writes a part.
pub fn put_part(out: &mut [u8], at: usize, src: &[u8]) -> usize
    requires { at + length src.now < 2 ^ 63 }
    ensures { Put src.now out.old at result out.new }
{
    let r = at + src.len();
    if r <= out.len() {
        copy_at(out, at, src);
        return r;
    }
    r
}

// Writes the last `width` bytes of a number.
pub fn put_number(out: &mut [u8], at: usize, width: usize, n: usize) -> usize
    requires { (at < 2 ^ 62) × (width < 65536) }
    ensures { Put (bytes width n) out.old at result out.new × (result ≡ at + width) }
{
    let mut m = n;
    for i in (0..width).rev() {
        put_byte(out, at + i, (m % 256) as u8);
        m /= 256;
    }
    at + width
}
