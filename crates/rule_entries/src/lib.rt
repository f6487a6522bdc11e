// Rule 10 of a release: the sample entries of a file, each judged with what its track says.
#![tactic(auto)]

ghost use Rattle.std.specs.Prelude.{◌≡◌, Some, ◌+◌, ◌^◌, ◌<◌, ◌≤◌, [], ◌∷◌, length};
ghost use Rattle.boxes.specs.Box.{head_of};
ghost use Rattle.boxes.specs.Boxes.{FRONT, boxes};
ghost use Rattle.boxes.specs.Walk.{box_at};
ghost use Rattle.movie.specs.Ways.{to_stsd, start_along};
ghost use Rattle.movie.specs.Stsds.{stsds_from};
ghost use Rattle.movie.specs.Named.{list_in};
ghost use Rattle.release.specs.Releases.{release_of};
ghost use Rattle.entry_rules.specs.Entries.{entry_rule};
ghost use Rattle.rule_entries.specs.Ten.{around_of, bytes_of, entries_judged, stsds_judged, ten_at};

use boxes::walk;
use boxes::walk::{BoxAt, Step, Walk};
use entry_rules::entry;
use entry_rules::entry::Around;
use release::Release;
use rule::Verdict;

// The scale, the handler and the data references of a track.
fn around_of(track: &[u8]) -> Around
    ensures { Some result ≡ around_of track.now }
{
    Around {
        scale: movie::scale(track),
        handler: movie::handler(track),
        references: movie::references(track),
    }
}

// Whether one entry of a list meets its rule.
fn entry_meets(list: &[u8], b: BoxAt, around: Option<Around>, release: Release) -> bool
    requires { (b.head ≤ b.span) × (b.at + b.span ≤ length list.now) }
    ensures { result ≡ entry_rule around release (bytes_of list.now b) }
{
    let from = b.at;
    let to = b.at + b.span;
    entry::entry_rule(&list[from..to], around, release)
}

// The first entry of a list that starts at base which breaks its rule, alone or in a track.
pub fn entries_from(list: &[u8], base: usize, around: Option<Around>, release: Release) -> Verdict
    requires { base + length list.now < 2 ^ 63 }
    ensures { result ≡ entries_judged around release list.now base }
{
    let mut w = Walk { at: 0 };
    loop {
        match w.step(list) {
            Step::Found(b, next) => {
                if !entry_meets(list, b, around, release) {
                    return Err(base + b.at);
                }
                w = next;
            }
            Step::End => {
                return Ok(());
            }
            Step::Broken(_) => {
                return Ok(());
            }
        }
    }
}

// The entries of a track whose payload starts at base.
fn track_entries(track: &[u8], base: usize, release: Release) -> Verdict
    requires { base + length track.now < 2 ^ 60 }
    ensures { result ≡ entries_judged (around_of track.now) release (list_in track.now) (base + start_along to_stsd track.now + FRONT) }
{
    let around = around_of(track);
    let start = base + movie::stsd_start(track);
    entries_from(
        movie::entry::list(track),
        start + walk::FRONT,
        Some(around),
        release,
    )
}

// Those of a box of a `moov` that starts at base: none where it is no `trak`.
fn box_entries(part: &[u8], b: BoxAt, base: usize, release: Release) -> Verdict
    requires { (b.head ≡ head_of b.form) × (b.head ≤ b.span) × (b.at + b.span ≤ length part.now) × (base + length part.now < 2 ^ 60) }
    ensures { result ≡ stsds_judged release (stsds_from 0 (box_at part.now b ∷ []) (base + b.at)) }
{
    if b.code != codes::TRAK {
        return Ok(());
    }
    track_entries(walk::body(part, b), base + b.at + b.head, release)
}

// Those of a `moov` that starts at base.
fn movie_entries(part: &[u8], base: usize, release: Release) -> Verdict
    requires { base + length part.now < 2 ^ 60 }
    ensures { result ≡ stsds_judged release (stsds_from 0 (boxes part.now) base) }
{
    let mut found = Ok(());
    let mut w = Walk { at: 0 };
    loop {
        match w.step(part) {
            Step::Found(b, next) => {
                found = rule::sooner(found, box_entries(part, b, base, release));
                w = next;
            }
            Step::End => {
                return found;
            }
            Step::Broken(_) => {
                return found;
            }
        }
    }
}

// Rule 10 of a container of kind k in a file, its payload at base: only `moov` is asked.
pub fn ten_at(file: &[u8], k: usize, part: &[u8], base: usize) -> Verdict
    requires { base + length part.now < 2 ^ 60 }
    ensures { result ≡ ten_at (release_of (boxes file.now)) k part.now base }
{
    if k != codes::MOOV {
        return Ok(());
    }
    movie_entries(part, base, release::of_file(file))
}
