// The values in an `esds`, read from its descriptors.
#![tactic(auto, using(wire::proofs::Numbers::word_byte), unfolding(crate::specs::Values::has_esds, crate::specs::Values::kind_rule, crate::specs::Values::fixed_by, wire::specs::Clauses::every, wire::specs::Clauses::either, wire::specs::Clauses::is_eq, wire::specs::Tests::if_eq))]

ghost use Rattle.std.specs.Prelude.{◌≡◌, ◌^◌, ◌<◌};
ghost use Rattle.descriptors.specs.Parts.{TOP};
ghost use Rattle.descriptors.specs.Trees.{tree};
ghost use Rattle.esds.specs.Values.{values_by, esds_in, has_esds, kind_rule, fixed_by, fixed_in};

use descriptors::{first, part};
use entry_heads::kind;
use wire::number;

// The kind of the entry, the ES number, what the decoder configuration says, and 1 where specific information is there, else 0.
// That stays a number: it is one of the eight that are given, and `specific_rule` refuses any other (50).
#[derive(Clone, Copy, Debug, PartialEq, Eq)]
pub struct Values {
    pub kind: usize,
    pub number: usize,
    pub object: usize,
    pub stream: usize,
    pub buffer: usize,
    pub maximum: usize,
    pub average: usize,
    pub specific: usize,
}

// The values, and the place and the length of the specific information, both 0 where it isn't there.
#[derive(Clone, Copy, Debug, PartialEq, Eq)]
pub struct Esds {
    pub values: Values,
    pub place: usize,
    pub span: usize,
}

// Whether an entry of a kind has an `esds`.
pub fn has_esds(kind: usize) -> bool
    ensures { result ≡ has_esds kind }
{
    kind == kind::MP4V || kind == kind::MP4A
}

// Whether object type and stream type are those of the kind.
pub fn kind_rule(v: Values) -> bool
    ensures { result ≡ kind_rule v }
{
    match v.kind {
        kind::MP4V => v.object == 0x20 && v.stream == 4,
        _ => v.object == 0x40 && v.stream == 5,
    }
}

// Whether the fixed numbers are right in the own bytes of the three parts that have some, and those of the values.
fn fixed_by(es: &[u8], configuration: &[u8], sl: &[u8], v: Values) -> bool
    ensures { result ≡ fixed_by es.now configuration.now sl.now v }
{
    let b = number::byte(configuration, 1);
    number::byte(es, 2) == 0
        && b / 2 % 2 == 0
        && b % 2 == 1
        && number::byte(sl, 0) == 2
        && kind_rule(v)
}

// What the own bytes of two parts say, in an entry of a kind.
fn values_by(kind: usize, es: &[u8], own: &[u8], specific: usize) -> Values
    ensures { result ≡ values_by kind es.now own.now specific }
{
    Values {
        kind,
        number: number::word16(es, 0),
        object: number::byte(own, 0),
        stream: number::byte(own, 1) / 4,
        buffer: number::word24(own, 2),
        maximum: number::word32(own, 5),
        average: number::word32(own, 9),
        specific,
    }
}

// What the descriptors say that start at a place, in an entry of a kind.
pub fn read(bytes: &[u8], kind: usize, place: usize) -> Esds
    requires { place < 2 ^ 32 }
    ensures { result ≡ esds_in kind place (tree TOP bytes.now) }
{
    let held = first::held(bytes, part::TOP);
    let es = first::own(bytes, part::TOP);
    let own = first::own(held, part::ES);
    let specific = first::held(held, part::ES);
    let head = first::head(specific);
    if head == 0 {
        return Esds {
            values: values_by(kind, es, own, 0),
            place: 0,
            span: 0,
        };
    }
    Esds {
        values: values_by(kind, es, own, 1),
        place: place + first::head(bytes) + 3 + first::head(held) + 13 + head,
        span: first::own(specific, part::CONFIGURATION).len(),
    }
}

// Whether the fixed numbers of the descriptors are right, for values that they say.
pub fn fixed(bytes: &[u8], v: Values) -> bool
    ensures { result ≡ fixed_in (tree TOP bytes.now) v }
{
    let held = first::held(bytes, part::TOP);
    fixed_by(
        first::own(bytes, part::TOP),
        first::own(held, part::ES),
        first::own(first::after(held), part::ES),
        v,
    )
}
