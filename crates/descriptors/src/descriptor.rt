// The descriptor at the front of a part.
ghost use Rattle.std.specs.Prelude.{◌≡◌, ◌+◌, ◌^◌, ◌≤◌, ◌<◌};
ghost use Rattle.wire.specs.Writing.{Put};
ghost use Rattle.descriptors.specs.Trees.{front_of};
ghost use Rattle.descriptors.specs.Texts.{head_text};

use crate::length;
use wire::{lend, number, pen};

// Its tag, its header's length, and its whole one.
#[derive(Clone, Copy, Debug, PartialEq, Eq)]
pub struct Descriptor {
    pub tag: usize,
    pub head: usize,
    pub span: usize,
}

// The one there, where the bytes are a whole one.
pub fn read(part: &[u8]) -> Option<Descriptor>
    ensures { result ≡ front_of part.now }
{
    let length = length::read(lend::rest(part, 1))?;
    let head = 1 + length.span;
    let span = head + length.number;
    if part.len() < span {
        return None;
    }
    Some(Descriptor {
        tag: number::byte(part, 0),
        head,
        span,
    })
}

// Writes the header of one with n bytes of contents.
pub fn put_head(out: &mut [u8], at: usize, tag: usize, n: usize) -> usize
    requires { at < 2 ^ 60 }
    ensures { Put (head_text tag n) out.old at result out.new × (result ≤ at + 5) }
{
    let m = pen::put_number(out, at, 1, tag);
    length::put(out, m, n)
}
