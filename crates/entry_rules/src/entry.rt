// Rule 10: a sample entry.
#![tactic(auto, unfolding(crate::specs::Entries::handler_rule, crate::specs::Entries::scale_rule, crate::specs::Entries::track_rule, crate::specs::Entries::esds_rule, crate::specs::Entries::avc_rule, crate::specs::Entries::inside_rule, crate::specs::Entries::rule_as, crate::specs::Entries::entry_rule, wire::specs::Clauses::every, wire::specs::Clauses::is_eq, wire::specs::Clauses::is_le, wire::specs::Tests::if_eq))]

ghost use Rattle.std.specs.Prelude.{◌≡◌};
ghost use Rattle.entry_rules.specs.Entries.{handler_rule, scale_rule, track_rule, around_rule, esds_rule, avc_rule, inside_rule, rule_as, entry_rule};

use crate::decoder;
use boxes::seek;
use entry_heads::{head, kind};
use release::Release;
use wire::{lend, number};

// What a track says of its entries: its time scale, its handler and its count of data references.
#[derive(Clone, Copy, Debug, PartialEq, Eq)]
pub struct Around {
    pub scale: usize,
    pub handler: usize,
    pub references: usize,
}

// Whether the handler of a track is that of a kind.
fn handler_rule(kind: usize, handler: usize) -> bool
    ensures { result ≡ handler_rule kind handler }
{
    let own = kind::handler(kind);
    own == 0 || own == handler
}

// Whether an audio entry has the time scale of its track.
fn scale_rule(kind: usize, scale: usize, entry: &[u8]) -> bool
    ensures { result ≡ scale_rule kind scale entry.now }
{
    kind::handler(kind) != codes::SOUN || number::word16(entry, 32) == scale
}

// Whether an entry fits its track.
fn track_rule(around: Around, kind: usize, entry: &[u8]) -> bool
    ensures { result ≡ track_rule around.scale around.handler around.references kind entry.now }
{
    let reference = number::word16(entry, 14);
    1 <= reference
        && reference <= around.references
        && handler_rule(kind, around.handler)
        && scale_rule(kind, around.scale, entry)
}

// Whether an entry fits the track around it, where it stands in one.
fn around_rule(around: Option<Around>, kind: usize, entry: &[u8]) -> bool
    ensures { result ≡ around_rule around kind entry.now }
{
    match around {
        Some(track) => track_rule(track, kind, entry),
        None => true,
    }
}

// Whether a part is one `esds`.
fn esds_rule(part: &[u8]) -> bool
    ensures { result ≡ esds_rule part.now }
{
    decoder::box_rule(codes::ESDS, part) && part.len() >= 12 && number::word32(part, 8) == 0
}

// Whether plain boxes tile a part and one is `avcC`.
fn avc_rule(part: &[u8]) -> bool
    ensures { result ≡ avc_rule part.now }
{
    seek::tally(part, codes::AVCC) == 1
}

// Whether a part follows the head of a kind rightly.
fn inside_rule(kind: usize, release: Release, part: &[u8]) -> bool
    ensures { result ≡ inside_rule kind release part.now }
{
    match kind {
        kind::OTHER => true,
        kind::MP4V | kind::MP4A => esds_rule(part),
        kind::AVC1 => avc_rule(part),
        _ => decoder::record_rule(kind, release, part),
    }
}

// Whether an entry meets the rule of a kind.
fn rule_as(kind: usize, around: Option<Around>, release: Release, entry: &[u8]) -> bool
    ensures { result ≡ rule_as kind around release entry.now }
{
    number::word32(entry, 0) == entry.len()
        && head::rule(kind, entry)
        && around_rule(around, kind, entry)
        && inside_rule(kind, release, lend::rest(entry, head::size(kind)))
}

// Whether an entry meets rule 10 of a release: alone, or in a track.
pub fn entry_rule(entry: &[u8], around: Option<Around>, release: Release) -> bool
    ensures { result ≡ entry_rule around release entry.now }
{
    rule_as(
        kind::of_code(number::word32(entry, 4)),
        around,
        release,
        entry,
    )
}
