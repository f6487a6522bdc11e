// The descriptors of a part, read recursively: each holds fewer bytes than what it stands in.
#![tactic(auto, unfolding(crate::specs::Reading::part_after, crate::specs::Reading::met, wire::specs::Tests::if_eq))]

ghost use Rattle.std.specs.Prelude.{◌≡◌};
ghost use Rattle.descriptors.specs.Trees.{tree};
ghost use Rattle.descriptors.specs.Reading.{part_after, met as met_of, read_on};

use crate::{descriptor, part};
use wire::lend;

// Of what was read so far: whether all fit; and the last part, OTHER where one came that isn't wanted there.
#[derive(Clone, Copy, Debug, PartialEq, Eq)]
pub struct Reading {
    pub fits: bool,
    pub last: usize,
}

// The part j where it may come right after the part `last`, else OTHER.
fn follow(last: usize, j: usize) -> usize
    ensures { result ≡ part_after last j }
{
    match (last, j) {
        (part::TOP, part::ES) => j,
        (part::ES, part::CONFIGURATION) => j,
        (part::CONFIGURATION, part::SPECIFIC | part::SL) => j,
        (part::SPECIFIC, part::SL) => j,
        _ => part::OTHER,
    }
}

// One descriptor more.
fn met(r: Reading, j: usize, own: &[u8]) -> Reading
    ensures { result ≡ met_of r j own.now }
{
    Reading {
        fits: part::own_fits(j, own) && r.fits,
        last: follow(r.last, j),
    }
}

// The descriptors that stand in the part k, each with those that it holds.
pub fn read(bytes: &[u8], k: usize, before: Reading) -> Reading
    ensures { result ≡ read_on before (tree k bytes.now) }
{
    let mut r = before;
    let mut rest = bytes;
    while !rest.is_empty() {
        match descriptor::read(rest) {
            Some(d) => {
                let j = part::part_in(k, d.tag);
                let from = d.head;
                let to = d.span;
                let contents = &rest[from..to];
                r = met(r, j, part::own(j, contents));
                r = read(part::held(j, contents), j, r);
                rest = lend::rest(rest, to);
            }
            None => {
                return Reading {
                    fits: false,
                    last: r.last,
                };
            }
        }
    }
    r
}
