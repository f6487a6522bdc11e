// The parts of an `esds`, by their tags, and what each of them has. They stay numbers and no enum: a part is its tag in the file (`part_in`).
#![tactic(auto, unfolding(crate::specs::Parts::holder, crate::specs::Parts::part_in, crate::specs::Parts::fixed_of, crate::specs::Parts::own_of, crate::specs::Parts::held_of, crate::specs::Parts::own_fits, wire::specs::Clauses::is_eq, wire::specs::Tests::if_eq))]

ghost use Rattle.std.specs.Prelude.{◌≡◌, ◌≤◌, length};
ghost use Rattle.descriptors.specs.Parts.{holder as holder_of, part_in, fixed_of, own_of, held_of, own_fits};

use wire::lend;

pub const ES: usize = 3;

pub const CONFIGURATION: usize = 4;

pub const SPECIFIC: usize = 5;

pub const SL: usize = 6;

// What holds the descriptors that stand in none, and what a descriptor is that belongs nowhere.
pub const TOP: usize = 1;

pub const OTHER: usize = 0;

// The part that a tag belongs into.
fn holder(tag: usize) -> usize
    ensures { result ≡ holder_of tag }
{
    match tag {
        ES => TOP,
        CONFIGURATION | SL => ES,
        SPECIFIC => CONFIGURATION,
        _ => OTHER,
    }
}

// The part that a tag is in the part k.
pub fn part_in(k: usize, tag: usize) -> usize
    ensures { result ≡ part_in k tag }
{
    if holder(tag) == k { tag } else { OTHER }
}

// How many bytes of its own a part has before the descriptors that it holds; 0 for one that holds none.
fn fixed(j: usize) -> usize
    ensures { result ≡ fixed_of j }
{
    match j {
        ES => 3,
        CONFIGURATION => 13,
        _ => 0,
    }
}

// The bytes of its own.
pub fn own(j: usize, contents: &[u8]) -> &[u8]
    ensures { result.now ≡ own_of j contents.now }
{
    match fixed(j) {
        0 => contents,
        n => lend::front(contents, n),
    }
}

// Those of the descriptors that it holds.
pub fn held(j: usize, contents: &[u8]) -> &[u8]
    ensures { (result.now ≡ held_of j contents.now) × (length result.now ≤ length contents.now) }
{
    match fixed(j) {
        0 => &contents[0..0],
        n => lend::rest(contents, n),
    }
}

// Whether its own bytes fit.
pub fn own_fits(j: usize, own: &[u8]) -> bool
    ensures { result ≡ own_fits j own.now }
{
    if j == SL {
        return own.len() == 1;
    }
    let n = fixed(j);
    n == 0 || own.len() == n
}
