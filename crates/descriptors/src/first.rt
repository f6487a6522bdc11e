// The first of the descriptors that stand in a part, where there is one.
ghost use Rattle.std.specs.Prelude.{◌≡◌, ℕ, ◌≤◌};
ghost use Rattle.descriptors.specs.Parts.{holding};
ghost use Rattle.descriptors.specs.Trees.{first_head, first_own, first_held, after_first, tree};

use crate::{descriptor, part};
use wire::lend;

// The length of its header.
pub fn head(bytes: &[u8]) -> usize
    ensures { ((k : ℕ) → result ≡ first_head (tree k bytes.now)) × (result ≤ 5) }
{
    match descriptor::read(bytes) {
        Some(d) => d.head,
        None => 0,
    }
}

// The bytes of its own.
pub fn own(bytes: &[u8], k: usize) -> &[u8]
    ensures { result.now ≡ first_own (tree k bytes.now) }
{
    match descriptor::read(bytes) {
        Some(d) => {
            let from = d.head;
            let to = d.span;
            part::own(part::part_in(k, d.tag), &bytes[from..to])
        }
        None => &bytes[0..0],
    }
}

// Those of the descriptors that it holds.
pub fn held(bytes: &[u8], k: usize) -> &[u8]
    ensures { tree (holding k) result.now ≡ first_held (tree k bytes.now) }
{
    match descriptor::read(bytes) {
        Some(d) => {
            let from = d.head;
            let to = d.span;
            part::held(part::part_in(k, d.tag), &bytes[from..to])
        }
        None => &bytes[0..0],
    }
}

// Those after it.
pub fn after(bytes: &[u8]) -> &[u8]
    ensures { (k : ℕ) → tree k result.now ≡ after_first (tree k bytes.now) }
{
    match descriptor::read(bytes) {
        Some(d) => lend::rest(bytes, d.span),
        None => &bytes[0..0],
    }
}
