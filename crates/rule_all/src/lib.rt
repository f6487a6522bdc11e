// Rules 2 to 10 at once: each container is walked once, and the rules go to its boxes directly. The answer is a rule's number: those before it hold.
#![tactic(auto)]

pub mod edit;
mod track;

ghost use Rattle.std.specs.Prelude.{◌≡◌, [], ◌∷◌, ◌^◌, ◌≤◌, ◌<◌, length};
ghost use Rattle.wire.specs.Clauses.{every};
ghost use Rattle.codes.specs.Codes.{FTYP, MOOV, MVHD};
ghost use Rattle.boxes.specs.Containers.{FILE, LONGEST};
ghost use Rattle.movie.specs.Movie.{tracks};
ghost use Rattle.layout.specs.Slots.{slot_in, Lies};
ghost use Rattle.layout.specs.Tracks.{LaidOut, LaidOutAs, Spread};
ghost use Rattle.rule_headers.specs.Forms.{form};
ghost use Rattle.rule_lists.specs.Five.{MOST};
ghost use Rattle.rule_all.specs.All.{SureBefore};
ghost use Rattle.rule_all.specs.Tracks.{Again, SureWith, Joined, Tracked, TracksTold};

use boxes::containers;
use layout::every::Tracks;
use layout::tracks::{Movie, Unlaid};
use layout::{every, gather, tracks};
use rule_headers::forms;
use rule_lists::total;

// What a track says: before which rule it is sure to be fine, its ID, and how many sample entries it has.
#[derive(Clone, Copy, Debug, PartialEq, Eq)]
pub struct TrackSays {
    pub sure: usize,
    pub identity: usize,
    pub entries: usize,
}

// The same of the tracks so far: before which rule, how many sample entries, and the last three IDs.
#[derive(Clone, Copy, Debug, PartialEq, Eq)]
pub struct SoFar {
    pub sure: usize,
    pub total: usize,
    pub one: usize,
    pub two: usize,
    pub three: usize,
}

// Before which rule a file is sure to be fine, and its tracks.
#[derive(Clone, Copy, Debug, PartialEq, Eq)]
pub struct SureTracks {
    pub sure: usize,
    pub tracks: Tracks,
}

// In doubt from rule 2 on.
fn doubted() -> SureTracks
    ensures { result.sure ≡ 2 }
{
    SureTracks {
        sure: 2,
        tracks: every::blanks(0),
    }
}

// Whether `ftyp` and `mvhd` are as rule 4 wants them.
#[tactic(auto, unfolding(wire::specs::Clauses::every))]
fn heads_fine(file: &[u8], m: Movie) -> bool
    requires { Lies file.now m.ftyp × Lies file.now m.mvhd }
    ensures { result ≡ every (form FILE FTYP (slot_in file.now m.ftyp) ∷ form MOOV MVHD (slot_in file.now m.mvhd) ∷ []) }
{
    forms::form(containers::FILE, codes::FTYP, gather::bytes(file, m.ftyp))
        && forms::form(codes::MOOV, codes::MVHD, gather::bytes(file, m.mvhd))
}

// Whether an ID is one of those of the last three tracks, as many as there are.
fn again(identity: usize, i: usize, one: usize, two: usize, three: usize) -> bool
    ensures { Again result identity i one two three }
{
    (i >= 1 && identity == one) || (i >= 2 && identity == two) || (i >= 3 && identity == three)
}

// Before which rule the tracks are sure to be fine with track i, from 0: 2 where it isn't good, has an ID again or too many entries.
fn sure_with(p: SoFar, i: usize, t: TrackSays) -> usize
    requires { (p.total ≤ MOST) × (t.entries < 2 ^ 32) }
    ensures { SureWith p i t result }
{
    if t.sure < 10 {
        return 2;
    }
    if again(t.identity, i, p.one, p.two, p.three) {
        return 2;
    }
    if total::MOST < p.total + t.entries {
        return 2;
    }
    p.sure.min(t.sure)
}

// The tracks so far, and track i.
fn joined(p: SoFar, i: usize, t: TrackSays) -> SoFar
    requires { (p.total ≤ MOST) × (t.entries < 2 ^ 32) }
    ensures { Joined p i t result }
{
    SoFar {
        sure: sure_with(p, i, t),
        total: p.total + t.entries,
        one: t.identity,
        two: p.one,
        three: p.two,
    }
}

// 2; or 10, where each track is good, their IDs differ, and they have at most 8 sample entries; or 11, where these are fine too.
fn tracks_fine(file: &[u8], m: Movie) -> usize
    requires { LaidOut file.now m × (tracks file.now ≤ 4) × (length file.now ≤ LONGEST) }
    ensures { Tracked file.now result }
{
    let mut p = SoFar {
        sure: 11,
        total: 0,
        one: 0,
        two: 0,
        three: 0,
    };
    for i in 0..m.tracks {
        let Some(k) = layout::track::lay(file, tracks::track_slot(m, i)) else {
            return 2;
        };
        p = joined(p, i, track::judge(file, k, m.mdat));
        if p.sure < 10 {
            return 2;
        }
    }
    p.sure
}

// The same, with what the tracks say.
fn tracks_told(file: &[u8], m: Movie) -> SureTracks
    requires { LaidOut file.now m × Spread file.now m × (tracks file.now ≤ 4) × (length file.now ≤ LONGEST) }
    ensures { Tracked file.now result.sure × TracksTold file.now result }
{
    let mut p = SoFar {
        sure: 11,
        total: 0,
        one: 0,
        two: 0,
        three: 0,
    };
    let mut found = every::blanks(m.tracks);
    for i in 0..m.tracks {
        let Some(k) = layout::track::lay(file, tracks::track_slot(m, i)) else {
            return doubted();
        };
        p = joined(p, i, track::judge(file, k, m.mdat));
        if p.sure < 10 {
            return doubted();
        }
        found = every::with_track(found, i, every::told(file, k));
    }
    SureTracks {
        sure: p.sure,
        tracks: found,
    }
}

// Where the boxes of a file stand, by boxes of any form; none where they aren't as rules 2 and 3 want them.
fn any_shaped(file: &[u8]) -> Option<Movie>
    ensures { LaidOutAs file.now result }
{
    let m = tracks::any(file);
    if !m.shaped {
        return None;
    }
    Some(m)
}

// The same, by plain boxes, and by any only where a walk stopped at one that isn't plain.
fn shaped(file: &[u8]) -> Option<Movie>
    ensures { LaidOutAs file.now result }
{
    match tracks::lay(file) {
        Ok(m) => Some(m),
        Err(Unlaid::Broken) => None,
        Err(Unlaid::Stopped) => any_shaped(file),
    }
}

// A number of 2, 10 or 11, by where the boxes of a file stand: the rules from 2 on and before it hold.
pub fn sure_before(file: &[u8]) -> usize
    requires { length file.now ≤ LONGEST }
    ensures { SureBefore file.now result }
{
    let Some(m) = shaped(file) else {
        return 2;
    };
    if !heads_fine(file, m) {
        return 2;
    }
    tracks_fine(file, m)
}

// The same, and where it is 10 or 11 what the tracks say.
pub fn sure_tracks(file: &[u8]) -> SureTracks
    requires { length file.now ≤ LONGEST }
    ensures { SureBefore file.now result.sure × TracksTold file.now result }
{
    let Some(m) = shaped(file) else {
        return doubted();
    };
    if !heads_fine(file, m) {
        return doubted();
    }
    tracks_told(file, m)
}
