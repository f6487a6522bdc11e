// The `esds` that values make, and which values have one.
#![tactic(auto, unfolding(crate::specs::Texts::specific_rule, crate::specs::Texts::values_rule, wire::specs::Clauses::every, wire::specs::Clauses::either, wire::specs::Clauses::is_eq, wire::specs::Clauses::is_lt))]

ghost use Rattle.std.specs.Prelude.{◌≡◌, [], ◌∷◌, ◌+◌, ◌^◌, ◌≤◌, ◌<◌, length};
ghost use Rattle.wire.specs.Clauses.{is_lt, every};
ghost use Rattle.wire.specs.Writing.{Put};
ghost use Rattle.descriptors.specs.Lengths.{shortest, TOO_LONG as too_long};
ghost use Rattle.esds.specs.Texts.{specific_text, configuration_text, configuration_body, es_body, esds_text, specific_rule, values_rule, SizesOf};

use crate::value::Values;
use descriptors::{descriptor, length, part};
use entry_heads::put;
use wire::pen;

// A length from here on is too large for four bytes.
const TOO_LONG: usize = 268435456;

// How many bytes the contents of the decoder configuration and of the ES descriptor have, and the whole box.
#[derive(Clone, Copy, Debug, PartialEq, Eq)]
pub struct Sizes {
    pub configuration: usize,
    pub es: usize,
    pub whole: usize,
}

// The length of a descriptor with n bytes of contents.
fn around(n: usize) -> usize
    requires { n < 2 ^ 32 }
    ensures { (result ≡ 1 + length (shortest n) + n) × (result ≤ n + 5) }
{
    1 + length::span(n) + n
}

// That of the specific information, 0 where it isn't there.
fn specific_length(v: Values, specific: &[u8]) -> usize
    requires { length specific.now < too_long }
    ensures { (result ≡ length (specific_text v specific.now)) × (result ≤ length specific.now + 5) }
{
    if v.specific == 0 {
        return 0;
    }
    around(specific.len())
}

pub fn measure(v: Values, specific: &[u8]) -> Sizes
    requires { length specific.now < too_long }
    ensures { SizesOf v specific.now result }
{
    let configuration = 13 + specific_length(v, specific);
    let es = 3 + around(configuration) + 3;
    Sizes {
        configuration,
        es,
        whole: 12 + around(es),
    }
}

// Whether specific information is there or not, and has no bytes where it isn't.
fn specific_rule(v: Values, specific: &[u8]) -> bool
    ensures { result ≡ specific_rule v specific.now }
{
    v.specific == 1 || v.specific == 0 && specific.len() == 0
}

// Whether the contents of the two descriptors that hold others aren't too long.
fn bodies_rule(v: Values, specific: &[u8]) -> bool
    requires { length specific.now < too_long }
    ensures { result ≡ every (is_lt (length (configuration_body v specific.now)) too_long ∷ is_lt (length (es_body v specific.now)) too_long ∷ []) }
{
    let z = measure(v, specific);
    z.configuration < TOO_LONG && z.es < TOO_LONG
}

// Whether every number fits its place, and no contents are too long.
pub fn values_rule(v: Values, specific: &[u8]) -> bool
    ensures { result ≡ values_rule v specific.now }
{
    v.number < 65536
        && v.object < 256
        && v.stream < 64
        && v.buffer < 16777216
        && v.maximum < 4294967296
        && v.average < 4294967296
        && specific_rule(v, specific)
        && specific.len() < TOO_LONG
        && bodies_rule(v, specific)
}

// Writes the own bytes of the decoder configuration.
fn put_configuration(out: &mut [u8], at: usize, v: Values) -> usize
    requires { (at < 2 ^ 40) × (v.stream < 64) }
    ensures { Put (configuration_text v) out.old at result out.new × (result ≡ at + 13) }
{
    let a = pen::put_number(out, at, 1, v.object);
    let b = pen::put_number(out, a, 1, 4 * v.stream + 1);
    let c = pen::put_number(out, b, 3, v.buffer);
    let d = pen::put_number(out, c, 4, v.maximum);
    pen::put_number(out, d, 4, v.average)
}

// Writes the specific information, where it is there.
fn put_specific(out: &mut [u8], at: usize, v: Values, specific: &[u8]) -> usize
    requires { (at < 2 ^ 41) × (length specific.now < too_long) }
    ensures { Put (specific_text v specific.now) out.old at result out.new × (result ≤ at + length specific.now + 5) }
{
    if v.specific == 0 {
        return at;
    }
    let a = descriptor::put_head(out, at, part::SPECIFIC, specific.len());
    pen::put_part(out, a, specific)
}

// Writes the contents of the ES descriptor.
fn put_es(out: &mut [u8], at: usize, v: Values, specific: &[u8], configuration: usize) -> usize
    requires { (at < 2 ^ 39) × (v.stream < 64) × (length specific.now < too_long) × (configuration ≡ length (configuration_body v specific.now)) }
    ensures { Put (es_body v specific.now) out.old at result out.new }
{
    let a = pen::put_number(out, at, 2, v.number);
    let b = pen::put_number(out, a, 1, 0);
    let c = descriptor::put_head(out, b, part::CONFIGURATION, configuration);
    let d = put_configuration(out, c, v);
    let e = put_specific(out, d, v, specific);
    let f = descriptor::put_head(out, e, part::SL, 1);
    pen::put_number(out, f, 1, 2)
}

// Writes the box.
pub fn put_esds(out: &mut [u8], v: Values, specific: &[u8], z: Sizes) -> usize
    requires { (v.stream < 64) × (length specific.now < too_long) × (SizesOf v specific.now z) }
    ensures { Put (esds_text v specific.now) out.old 0 result out.new }
{
    let a = put::header(out, 0, z.whole, codes::ESDS);
    let b = pen::put_number(out, a, 4, 0);
    let c = descriptor::put_head(out, b, part::ES, z.es);
    put_es(out, c, v, specific, z.configuration)
}
