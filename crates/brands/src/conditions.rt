// The brands' own conditions.
ghost use Rattle.std.specs.Prelude.{◌≡◌, ◌≤◌, ◌<◌};
ghost use Rattle.boxes.specs.Boxes.{boxes};
ghost use Rattle.movie.specs.Movie.{tracks, track, handler as handler_of};
ghost use Rattle.layout.specs.Every.{TracksAt};
ghost use Rattle.layout.specs.Entries.{ListsAt};
ghost use Rattle.brands.specs.Brands.{handled as handled_of, one_entry, single as single_of, single_to, no_avc1, no_avc1_to};
ghost use Rattle.brands.specs.Brands.{isom_or_avc1};
ghost use Rattle.brands.specs.Brands.{few as few_of, early as early_of, second as second_of, ready as ready_of};
ghost use Rattle.brands.specs.Own.{OwnAt};

use boxes::seek;
use layout::entries::Lists;
use layout::every::Tracks;
use layout::{entries, every, gather};
use release::compatible;

// Whether `isom`, and whether it or `avc1` is listed; what `3gp4` and `3gp5`, what `3gp6`, and what `3gr6` asks.
#[derive(Clone, Copy)]
pub struct Own {
    pub isom: bool,
    pub base: bool,
    pub early: bool,
    pub few: bool,
    pub ready: bool,
}

// Whether `isom` or `avc1` is listed.
#[tactic(auto, unfolding(crate::specs::Brands::isom_or_avc1, wire::specs::Clauses::either))]
fn base(ftyp: &[u8]) -> bool
    ensures { result ≡ isom_or_avc1 ftyp.now }
{
    compatible::listed(ftyp, codes::ISOM) || compatible::listed(ftyp, codes::AVC1)
}

// A track's handler.
fn handler(file: &[u8], e: Tracks, t: usize) -> usize
    requires { TracksAt file.now e × (t < 4) }
    ensures { result ≡ handler_of (track file.now t) }
{
    let k = every::track(e, t);
    k.handler
}

// How many tracks have handler h.
fn handled(file: &[u8], e: Tracks, h: usize) -> usize
    requires { TracksAt file.now e × (tracks file.now ≤ 4) }
    ensures { result ≡ handled_of h file.now }
{
    let n = e.count;
    let mut sum = 0;
    for t in 0..n {
        sum += usize::from(handler(file, e, t) == h);
    }
    sum
}

// Whether track t has one sample entry.
fn one_entry(file: &[u8], l: Lists, t: usize) -> bool
    requires { ListsAt file.now l × (t < 4) }
    ensures { result ≡ one_entry (track file.now t) }
{
    let s = entries::list_slot(l, t);
    s.n == 1
}

// Whether it has one if it is to have one.
#[tactic(auto, unfolding(crate::specs::Brands::single, wire::specs::Tests::if_eq))]
fn single(file: &[u8], e: Tracks, l: Lists, t: usize) -> bool
    requires { TracksAt file.now e × ListsAt file.now l × (t < 4) }
    ensures { result ≡ single_of (track file.now t) }
{
    match handler(file, e, t) {
        codes::VIDE | codes::SOUN => one_entry(file, l, t),
        _ => true,
    }
}

fn all_single(file: &[u8], e: Tracks, l: Lists) -> bool
    requires { TracksAt file.now e × ListsAt file.now l × (tracks file.now ≤ 4) }
    ensures { result ≡ single_to file.now (tracks file.now) }
{
    let n = e.count;
    for t in 0..n {
        if !single(file, e, l, t) {
            return false;
        }
    }
    true
}

// Whether track t has no `avc1` entry.
fn no_avc1(file: &[u8], l: Lists, t: usize) -> bool
    requires { ListsAt file.now l × (t < 4) }
    ensures { result ≡ no_avc1 (track file.now t) }
{
    let s = entries::list_slot(l, t);
    seek::count(gather::bytes(file, s), codes::AVC1) == 0
}

fn no_avc1_in(file: &[u8], l: Lists) -> bool
    requires { ListsAt file.now l × (tracks file.now ≤ 4) }
    ensures { result ≡ no_avc1_to file.now (tracks file.now) }
{
    let n = l.tracks;
    for t in 0..n {
        if !no_avc1(file, l, t) {
            return false;
        }
    }
    true
}

// What `3gp4`, `3gp5` and `3gp6` ask of the tracks.
#[tactic(auto, unfolding(crate::specs::Brands::few, wire::specs::Clauses::every, wire::specs::Clauses::is_le))]
fn few(file: &[u8], e: Tracks, l: Lists) -> bool
    requires { TracksAt file.now e × ListsAt file.now l × (tracks file.now ≤ 4) }
    ensures { result ≡ few_of file.now }
{
    handled(file, e, codes::VIDE) <= 1
        && handled(file, e, codes::SOUN) <= 1
        && handled(file, e, codes::TEXT) <= 1
        && all_single(file, e, l)
}

// What `3gp4` and `3gp5` ask besides.
#[tactic(auto, unfolding(crate::specs::Brands::early, wire::specs::Clauses::every))]
fn early(file: &[u8], l: Lists, few: bool) -> bool
    requires { ListsAt file.now l × (tracks file.now ≤ 4) × (few ≡ few_of file.now) }
    ensures { result ≡ early_of file.now }
{
    few && no_avc1_in(file, l)
}

// The code of the second box, 0 where there is none: a number, since the definition has one there.
fn second(file: &[u8]) -> usize
    ensures { result ≡ second_of (boxes file.now) }
{
    match seek::nth(file, seek::ANY, 1) {
        Some(b) => b.code,
        None => 0,
    }
}

// Whether `moov` is right after `ftyp`.
#[tactic(auto, unfolding(crate::specs::Brands::ready, wire::specs::Clauses::is_eq))]
fn ready(file: &[u8]) -> bool
    ensures { result ≡ ready_of file.now }
{
    second(file) == codes::MOOV
}

// All of them.
pub fn asked(file: &[u8], e: Tracks, l: Lists) -> Own
    requires { TracksAt file.now e × ListsAt file.now l × (tracks file.now ≤ 4) }
    ensures { OwnAt file.now result }
{
    let ftyp = seek::payload(file, codes::FTYP, 0);
    let few = few(file, e, l);
    Own {
        isom: compatible::listed(ftyp, codes::ISOM),
        base: base(ftyp),
        early: early(file, l, few),
        few,
        ready: ready(file),
    }
}
