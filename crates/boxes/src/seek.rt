// Counting and finding boxes by their code.
ghost use Rattle.std.specs.Prelude.{◌≡◌, ◌+◌, ◌≤◌, ◌<◌, length};
ghost use Rattle.wire.specs.Tests.{pick};
ghost use Rattle.boxes.specs.Boxes.{boxes, total, tiles as tiles_of};
ghost use Rattle.boxes.specs.Seek.{tiling_of, meant as meant_by, count as count_of, nth as nth_in, place_in, start_in, SeenAs, plain_tiles};

use crate::walk;
use crate::walk::{BoxAt, Step, Walk};

// Any box is meant by this number.
pub const ANY: usize = 0;

// How a part ends: with its last box, or torn at the place of bytes that are no box.
pub fn ends(part: &[u8]) -> Result<(), usize>
    ensures { result ≡ tiling_of part.now }
{
    let mut w = Walk { at: 0 };
    loop {
        match w.step(part) {
            Step::Found(_, next) => {
                w = next;
            }
            Step::End => {
                return Ok(());
            }
            Step::Broken(p) => {
                return Err(p);
            }
        }
    }
}

// Whether boxes tile a part.
pub fn tiles(part: &[u8]) -> bool
    ensures { result ≡ tiles_of part.now }
{
    ends(part).is_ok()
}

// How many of one box of code d are meant, 1 or 0: a number, since all that ask add it up.
#[tactic(auto, unfolding(crate::specs::Seek::meant, wire::specs::Tests::if_eq))]
fn meant(c: usize, d: usize) -> usize
    ensures { (result ≡ meant_by c d) × (result ≤ 1) }
{
    usize::from(c == ANY || d == c)
}

// How many boxes have a code.
pub fn count(part: &[u8], c: usize) -> usize
    ensures { (result ≡ count_of c (boxes part.now)) × (result ≤ length part.now) }
{
    let mut w = Walk { at: 0 };
    let mut n = 0;
    loop {
        match w.step(part) {
            Step::Found(b, next) => {
                n = n + meant(c, b.code);
                w = next;
            }
            Step::End => {
                return n;
            }
            Step::Broken(_) => {
                return n;
            }
        }
    }
}

// How many boxes have a code in a part that plain boxes tile, and 0 where they don't tile it.
pub fn tally(part: &[u8], c: usize) -> usize
    ensures { result ≡ pick (plain_tiles part.now) (count_of c (boxes part.now)) 0 }
{
    let mut w = Walk { at: 0 };
    let mut n = 0;
    loop {
        match w.plain_step(part) {
            Step::Found(b, next) => {
                n = n + meant(c, b.code);
                w = next;
            }
            Step::End => {
                return n;
            }
            Step::Broken(_) => {
                return 0;
            }
        }
    }
}

// The n-th box that has a code, from 0.
pub fn nth(part: &[u8], c: usize, n: usize) -> Option<BoxAt>
    ensures { SeenAs part.now c n result }
{
    let mut w = Walk { at: 0 };
    let mut seen = 0;
    loop {
        match w.step(part) {
            Step::Found(b, next) => {
                let m = seen + meant(c, b.code);
                if n < m {
                    return Some(b);
                }
                seen = m;
                w = next;
            }
            Step::End => {
                return None;
            }
            Step::Broken(_) => {
                return None;
            }
        }
    }
}

// Where the whole boxes of a part end.
fn past(part: &[u8]) -> usize
    ensures { result ≡ total (boxes part.now) }
{
    match ends(part) {
        Ok(()) => part.len(),
        Err(p) => p,
    }
}

// How far into the part the n-th box that has a code starts, and past all boxes where there is none.
pub fn place(part: &[u8], c: usize, n: usize) -> usize
    ensures { (result ≡ place_in c n (boxes part.now)) × (result ≤ length part.now) }
{
    match nth(part, c, n) {
        Some(b) => b.at,
        None => past(part),
    }
}

// How far into the part its payload starts.
pub fn start(part: &[u8], c: usize, n: usize) -> usize
    ensures { (result ≡ start_in c n (boxes part.now)) × (result ≤ length part.now) }
{
    match nth(part, c, n) {
        Some(b) => b.at + b.head,
        None => past(part),
    }
}

// The payload of the n-th box that has a code, and nothing where there is none.
pub fn payload(part: &[u8], c: usize, n: usize) -> &[u8]
    ensures { result.now ≡ nth_in c n (boxes part.now) }
{
    match nth(part, c, n) {
        Some(b) => walk::body(part, b),
        None => &part[0..0],
    }
}
