// The sample entries of a file, by their number in file order.
ghost use Rattle.std.specs.Prelude.{◌≡◌, ℕ, ◌+◌, ◌≤◌, length};
ghost use Rattle.boxes.specs.Boxes.{boxes};
ghost use Rattle.boxes.specs.Seek.{meant};
ghost use Rattle.codes.specs.Codes.{TRAK};
ghost use Rattle.boxes.specs.Containers.{LONGEST};
ghost use Rattle.movie.specs.Stsds.{stsds_from};
ghost use Rattle.movie.specs.Entries.{entries as entries_of_file};
ghost use Rattle.movie.specs.Named.{list_in, held as held_by, list_start, SpotAs, PlacedAs, NamedAs, spot_in};

use boxes::walk::{BoxAt, Step, Walk};
use boxes::{seek, walk};
use wire::{lend, number};

// An entry: its track, from 1; its number there, from 0; its place in the file; its length.
#[derive(Clone, Copy)]
pub struct EntryAt {
    pub track: usize,
    pub nth: usize,
    pub place: usize,
    pub span: usize,
}

// A track and a number there, both from 0.
#[derive(Clone, Copy)]
pub struct Spot {
    pub track: usize,
    pub nth: usize,
}

// The entries of a track: what stands past the front of its `stsd`.
pub fn list(track: &[u8]) -> &[u8]
    ensures { (result.now ≡ list_in track.now) × (length result.now ≤ length track.now) }
{
    lend::rest(crate::table(track, codes::STSD), walk::FRONT)
}

// How many entries a box of `moov` holds: none where it is no `trak`.
fn held(code: usize, body: &[u8]) -> usize
    ensures { (result ≡ held_by code body.now) × (result ≤ length body.now) }
{
    if code != codes::TRAK {
        return 0;
    }
    seek::count(list(body), seek::ANY)
}

// How many entries a file has.
pub fn entries(file: &[u8]) -> usize
    ensures { (result ≡ length (entries_of_file file.now)) × (result ≤ length file.now) }
{
    let moov = seek::payload(file, codes::MOOV, 0);
    let mut w = Walk { at: 0 };
    let mut n = 0;
    loop {
        match w.step(moov) {
            Step::Found(b, next) => {
                n = n + held(b.code, walk::body(moov, b));
                w = next;
            }
            Step::End => {
                return n;
            }
            Step::Broken(_) => {
                return n;
            }
        }
    }
}

// How many tracks a box of a code is: a number, since it is added up.
fn one_track(code: usize) -> usize
    ensures { (result ≡ meant TRAK code) × (result ≤ 1) }
{
    if code == codes::TRAK {
        return 1;
    }
    0
}

// In which track of a `moov` the entry i is, and its number there.
pub fn find_spot(moov: &[u8], i: usize) -> Option<Spot>
    ensures { (SpotAs moov.now i result) × ((p : ℕ) → result ≡ spot_in (stsds_from 0 (boxes moov.now) p) i) }
{
    let mut w = Walk { at: 0 };
    let mut t = 0;
    let mut left = i;
    loop {
        match w.step(moov) {
            Step::Found(b, next) => {
                let n = held(b.code, walk::body(moov, b));
                if left < n {
                    return Some(Spot {
                        track: t,
                        nth: left,
                    });
                }
                left = left - n;
                t = t + one_track(b.code);
                w = next;
            }
            Step::End => {
                return None;
            }
            Step::Broken(_) => {
                return None;
            }
        }
    }
}

// How far into the file the entries of track t, from 0, start.
fn list_start(file: &[u8], t: usize) -> usize
    requires { length file.now ≤ LONGEST }
    ensures { (result ≡ list_start file.now t) × (result ≤ 8388608) }
{
    let moov = seek::payload(file, codes::MOOV, 0);
    let to_track = seek::start(file, codes::MOOV, 0) + seek::start(moov, codes::TRAK, t);
    to_track + crate::stsd_start(crate::track(file, t)) + walk::FRONT
}

// Entry n of track t, both from 0.
fn entry_of(file: &[u8], t: usize, n: usize) -> Option<EntryAt>
    requires { (length file.now ≤ LONGEST) × (t ≤ LONGEST) }
    ensures { PlacedAs file.now t n result }
{
    match seek::nth(list(crate::track(file, t)), seek::ANY, n) {
        Some(b) => Some(EntryAt {
            track: t + 1,
            nth: n,
            place: list_start(file, t) + b.at,
            span: b.span,
        }),
        None => None,
    }
}

// Entry i, from 0 and in file order.
pub fn entry(file: &[u8], i: usize) -> Option<EntryAt>
    requires { length file.now ≤ LONGEST }
    ensures { NamedAs file.now i result }
{
    match find_spot(seek::payload(file, codes::MOOV, 0), i) {
        Some(s) => entry_of(file, s.track, s.nth),
        None => None,
    }
}
