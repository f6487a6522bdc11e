// The length of a descriptor's contents: one to four bytes of 7 bits each.
ghost use Rattle.std.specs.Prelude.{◌≡◌, ◌+◌, ◌^◌, ◌≤◌, ◌<◌, [], length};
ghost use Rattle.wire.specs.Writing.{Put};
ghost use Rattle.descriptors.specs.Lengths.{length_at, least_more, more_on, shortest};

use wire::{number, pen};

// The most bytes of a length.
const MOST: usize = 4;

// A number, and how many bytes say it.
#[derive(Clone, Copy, Debug, PartialEq, Eq)]
pub struct Length {
    pub number: usize,
    pub span: usize,
}

// The length at the front, where four bytes at most say one.
pub fn read(part: &[u8]) -> Option<Length>
    ensures { result ≡ length_at part.now }
{
    let mut n = 0;
    for k in 0..part.len().min(MOST) {
        let b = number::byte(part, k);
        if b < 128 {
            return Some(Length {
                number: n * 128 + b,
                span: k + 1,
            });
        }
        n = n * 128 + b % 128;
    }
    None
}

// How many bytes stand before the last of the shortest.
#[tactic(auto, unfolding(crate::specs::Lengths::least_more, wire::specs::Tests::if_lt))]
fn least_more(n: usize) -> usize
    ensures { (result ≡ least_more n) × (result ≤ 3) }
{
    match n {
        0..128 => 0,
        128..16384 => 1,
        16384..2097152 => 2,
        _ => 3,
    }
}

// Writes w bytes of a number with the top bit set.
fn put_more(out: &mut [u8], at: usize, w: usize, n: usize) -> usize
    requires { (at < 2 ^ 61) × (w ≤ 3) }
    ensures { Put (more_on w n []) out.old at result out.new × (result ≡ at + w) }
{
    if w == 0 {
        return at;
    }
    let m = put_more(out, at, w - 1, n / 128);
    pen::put_byte(out, m, (128 + n % 128) as u8)
}

// Writes a number in as few bytes as say it, four at most.
pub fn put(out: &mut [u8], at: usize, n: usize) -> usize
    requires { at < 2 ^ 61 }
    ensures { Put (shortest n) out.old at result out.new × (result ≤ at + 4) }
{
    let m = put_more(out, at, least_more(n), n / 128);
    pen::put_byte(out, m, (n % 128) as u8)
}

// How many bytes that takes.
pub fn span(n: usize) -> usize
    ensures { (result ≡ length (shortest n)) × (result ≤ 4) }
{
    least_more(n) + 1
}
