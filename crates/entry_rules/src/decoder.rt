// Decoder records: the `damr` and `d263` boxes of an entry.
#![tactic(auto, using(crate::proofs::Modes::modes_is, wire::proofs::Numbers::word_byte), unfolding(crate::specs::Decoders::box_rule, crate::specs::Decoders::period_rule, crate::specs::Decoders::frames_rule, crate::specs::Decoders::damr_rule, crate::specs::Decoders::rated_rule, crate::specs::Decoders::d263_rule, crate::specs::Decoders::record_rule, wire::specs::Clauses::every, wire::specs::Clauses::either, wire::specs::Clauses::is_eq, wire::specs::Clauses::is_le, wire::specs::Tests::if_eq))]

ghost use Rattle.std.specs.Prelude.{◌≡◌, ◌<◌};
ghost use Rattle.entry_rules.specs.Decoders.{box_rule, modes_rule, period_rule, frames_rule, damr_rule, rated_rule, d263_rule, record_rule};

use entry_heads::kind;
use release::Release;
use wire::{lend, number};

// Whether a part is one whole box of a code.
pub fn box_rule(code: usize, part: &[u8]) -> bool
    ensures { result ≡ box_rule code part.now }
{
    number::word32(part, 0) == part.len() && number::word32(part, 4) == code
}

// Whether a codec has the modes: bits 9 to 14 are no modes of `samr`, 10 to 14 none of `sawb`.
fn modes_rule(kind: usize, modes: usize) -> bool
    ensures { result ≡ modes_rule kind modes }
{
    match kind {
        kind::SAMR => modes / 512 % 64 == 0,
        _ => modes / 1024 % 32 == 0,
    }
}

// Whether a period fits the frames.
fn period_rule(period: usize, frames: usize) -> bool
    requires { 0 < frames }
    ensures { result ≡ period_rule period frames }
{
    period == 0 || frames % period == 0 || period % frames == 0
}

// Whether modes, period and frames meet the rule.
pub fn frames_rule(
    kind: usize,
    release: Release,
    modes: usize,
    period: usize,
    frames: usize,
) -> bool
    ensures { result ≡ frames_rule kind release modes period frames }
{
    modes_rule(kind, modes)
        && 1 <= frames
        && frames <= release::most_frames(release)
        && period_rule(period, frames)
}

// Whether a part is the `damr` of a kind.
fn damr_rule(kind: usize, release: Release, part: &[u8]) -> bool
    ensures { result ≡ damr_rule kind release part.now }
{
    box_rule(codes::DAMR, part)
        && part.len() == 17
        && frames_rule(
            kind,
            release,
            number::word16(part, 13),
            number::byte(part, 15),
            number::byte(part, 16),
        )
}

// Whether a `d263` ends with its profile or with one `bitr`.
fn rated_rule(part: &[u8]) -> bool
    ensures { result ≡ rated_rule part.now }
{
    part.len() == 15 || part.len() == 31 && box_rule(codes::BITR, lend::rest(part, 15))
}

// Whether a part is a `d263`.
fn d263_rule(part: &[u8]) -> bool
    ensures { result ≡ d263_rule part.now }
{
    box_rule(codes::D263, part) && rated_rule(part)
}

// Whether a part is the decoder record of an entry of a kind.
pub fn record_rule(kind: usize, release: Release, part: &[u8]) -> bool
    ensures { result ≡ record_rule kind release part.now }
{
    match kind {
        kind::SAMR | kind::SAWB => damr_rule(kind, release, part),
        kind::S263 => d263_rule(part),
        _ => false,
    }
}
