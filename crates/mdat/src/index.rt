// An index of a file: for each 256 bytes the start of a box that stands before.
ghost use Rattle.std.specs.Prelude.{◌≡◌, ◌*◌, ◌≤◌, ◌<◌, length};
ghost use Rattle.mdat.specs.Search.{STRIDE, PLACES, Index, Nearest, Noted};

use boxes::walk::{Step, Walk};

// How many bytes of the file have one number.
const STRIDE: usize = 256;

// How many numbers the longest file has.
pub const PLACES: usize = 4097;

// Notes the start of a box for the places from number j on up to its end, and answers the number past them.
fn note(index: &mut [u32], from: usize, at: usize, end: usize) -> usize
    requires { (length index.old ≤ PLACES) × (from < length index.old → at ≤ STRIDE * from) }
    ensures { Noted at end result index.old index.new }
{
    for j in from..index.len() {
        if end <= STRIDE * j {
            return j;
        }
        index[j] = at as u32;
    }
    index.len()
}

// Fills it by one walk over the boxes.
pub fn fill(index: &mut [u32], file: &[u8])
    requires { (length index.old ≤ PLACES) × Index file.now index.old }
    ensures { (length index.new ≡ length index.old) × Index file.now index.new }
{
    let mut w = Walk { at: 0 };
    let mut j = 0;
    loop {
        match w.step(file) {
            Step::Found(b, next) => {
                j = note(index, j, b.at, next.at);
                w = next;
            }
            Step::End => {
                return;
            }
            Step::Broken(_) => {
                return;
            }
        }
    }
}

fn wide(x: u32) -> usize
    ensures { result ≡ x }
{
    x as usize
}

// What it has for a place, and the front where it is empty.
fn for_place(index: &[u32], offset: usize) -> usize
    ensures { Nearest index.now 0 offset result }
{
    if index.is_empty() {
        return 0;
    }
    if offset == 0 {
        return 0;
    }
    let j = ((offset - 1) / STRIDE).min(index.len() - 1);
    wide(index[j])
}

// Where a search for what stands at a place starts: behind the last payload or by the index, whichever is nearer.
pub fn start(index: &[u32], end: usize, offset: usize) -> usize
    ensures { Nearest index.now end offset result }
{
    let from = for_place(index, offset);
    if offset <= end {
        return from;
    }
    if end < from {
        return from;
    }
    end
}
