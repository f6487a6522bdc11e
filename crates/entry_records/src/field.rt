// The fields of a record, and their rule.
#![tactic(auto, using(wire::proofs::Numbers::word_byte), unfolding(crate::specs::Fields::record_in, crate::specs::Fields::amr_rule, crate::specs::Fields::rates_rule, crate::specs::Fields::h263_rule, wire::specs::Clauses::every, wire::specs::Clauses::either, wire::specs::Clauses::is_eq, wire::specs::Clauses::is_lt, wire::specs::Tests::if_eq))]

ghost use Rattle.std.specs.Prelude.{◌≡◌, [], ◌∷◌};
ghost use Rattle.wire.specs.Clauses.{is_eq, either};
ghost use Rattle.entry_heads.specs.Kinds.{SamrKind, SawbKind};
ghost use Rattle.entry_records.specs.Fields.{amr_in, rates_in, h263_in, record_in, amr_rule, rates_rule, h263_rule, fields_rule};

use entry_heads::kind;
use entry_rules::decoder;
use release::Release;
use wire::number;

// A `samr` or `sawb` entry, by its kind.
#[derive(Clone, Copy, Debug, PartialEq, Eq)]
pub struct Amr {
    pub kind: usize,
    pub reference: usize,
    pub scale: usize,
    pub vendor: usize,
    pub version: usize,
    pub modes: usize,
    pub period: usize,
    pub frames: usize,
}

// The rates of a `bitr`: given is 1 where one follows, and else 0, and so are the two rates.
// It stays a number beside them: the writer takes any numbers, and refuses those of no record, which a type would keep out.
#[derive(Clone, Copy, Debug, PartialEq, Eq)]
pub struct Rates {
    pub given: usize,
    pub average: usize,
    pub maximum: usize,
}

// An `s263` entry.
#[derive(Clone, Copy, Debug, PartialEq, Eq)]
pub struct H263 {
    pub reference: usize,
    pub width: usize,
    pub height: usize,
    pub vendor: usize,
    pub version: usize,
    pub level: usize,
    pub profile: usize,
    pub rates: Rates,
}

// A record.
#[derive(Clone, Copy, Debug, PartialEq, Eq)]
pub enum Record {
    Speech(Amr),
    Picture(H263),
}

// The fields of a `samr` or `sawb` entry.
fn read_amr(kind: usize, entry: &[u8]) -> Amr
    ensures { result ≡ amr_in kind entry.now }
{
    Amr {
        kind,
        reference: number::word16(entry, 14),
        scale: number::word16(entry, 32),
        vendor: number::word32(entry, 44),
        version: number::byte(entry, 48),
        modes: number::word16(entry, 49),
        period: number::byte(entry, 51),
        frames: number::byte(entry, 52),
    }
}

// The rates in an `s263` entry.
fn read_rates(entry: &[u8]) -> Rates
    ensures { result ≡ rates_in entry.now }
{
    Rates {
        given: usize::from(entry.len() == 117),
        average: number::word32(entry, 109),
        maximum: number::word32(entry, 113),
    }
}

// The fields of an `s263` entry.
fn read_h263(entry: &[u8]) -> H263
    ensures { result ≡ h263_in entry.now }
{
    H263 {
        reference: number::word16(entry, 14),
        width: number::word16(entry, 32),
        height: number::word16(entry, 34),
        vendor: number::word32(entry, 94),
        version: number::byte(entry, 98),
        level: number::byte(entry, 99),
        profile: number::byte(entry, 100),
        rates: read_rates(entry),
    }
}

// The record that stands in an entry of a kind, where the kind has one.
pub fn inside(kind: usize, entry: &[u8]) -> Option<Record>
    ensures { result ≡ record_in kind entry.now }
{
    match kind {
        kind::SAMR | kind::SAWB => Some(Record::Speech(read_amr(kind, entry))),
        kind::S263 => Some(Record::Picture(read_h263(entry))),
        _ => None,
    }
}

// Whether a kind is `samr` or `sawb`.
fn spoken(kind: usize) -> bool
    ensures { result ≡ either (is_eq kind SamrKind ∷ is_eq kind SawbKind ∷ []) }
{
    kind == kind::SAMR || kind == kind::SAWB
}

// Whether each field of a `samr` or `sawb` fits its place and the modes, period and frames meet their rule.
fn amr_rule(release: Release, f: Amr) -> bool
    ensures { result ≡ amr_rule release f }
{
    spoken(f.kind)
        && f.reference < 65536
        && f.scale < 65536
        && f.vendor < 4294967296
        && f.version < 256
        && f.modes < 65536
        && f.period < 256
        && f.frames < 256
        && decoder::frames_rule(f.kind, release, f.modes, f.period, f.frames)
}

// Whether rates fit their places, or are 0 where no `bitr` follows.
fn rates_rule(rates: Rates) -> bool
    ensures { result ≡ rates_rule rates }
{
    match rates.given {
        1 => rates.average < 4294967296 && rates.maximum < 4294967296,
        0 => rates.average == 0 && rates.maximum == 0,
        _ => false,
    }
}

// Whether each field of an `s263` fits its place.
fn h263_rule(f: H263) -> bool
    ensures { result ≡ h263_rule f }
{
    f.reference < 65536
        && f.width < 65536
        && f.height < 65536
        && f.vendor < 4294967296
        && f.version < 256
        && f.level < 256
        && f.profile < 256
        && rates_rule(f.rates)
}

// Whether fields meet the rule.
pub fn rule(release: Release, fields: Option<Record>) -> bool
    ensures { result ≡ fields_rule release fields }
{
    match fields {
        Some(Record::Speech(f)) => amr_rule(release, f),
        Some(Record::Picture(f)) => h263_rule(f),
        None => false,
    }
}
