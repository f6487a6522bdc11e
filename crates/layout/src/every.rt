// What every track of a file says, and where its lists stand: all that the reads ask for.
ghost use Rattle.std.specs.Prelude.{◌≡◌};
ghost use Rattle.movie.specs.Movie.{tracks as tracks_of};
ghost use Rattle.layout.specs.Slots.{Lies};
ghost use Rattle.layout.specs.Every.{blank_of, blanks_of, told_in, track_of, with_track, TrakAt, TrackAt, TracksAt};

use crate::gather::Slot;
use crate::track::Track;
use crate::{gather, track, tracks};
use wire::number;

// A track's handler, time scale and length in movie ticks, and the payloads of its `stsd` and `stts`.
#[derive(Clone, Copy, Debug, PartialEq, Eq)]
pub struct ReadTrack {
    pub handler: usize,
    pub scale: usize,
    pub ticks: usize,
    pub stsd: Slot,
    pub stts: Slot,
}

// How many tracks there are, and the first four; one that isn't there has no boxes.
#[derive(Clone, Copy, Debug, PartialEq, Eq)]
pub struct Tracks {
    pub count: usize,
    pub one: ReadTrack,
    pub two: ReadTrack,
    pub three: ReadTrack,
    pub four: ReadTrack,
}

// A track without boxes.
fn blank() -> ReadTrack
    ensures { result ≡ blank_of }
{
    let none = gather::none();
    ReadTrack {
        handler: 0,
        scale: 0,
        ticks: 0,
        stsd: none,
        stts: none,
    }
}

// From where its boxes stand.
pub fn told(file: &[u8], t: Track) -> ReadTrack
    requires { Lies file.now t.hdlr × Lies file.now t.mdhd × Lies file.now t.tkhd }
    ensures { result ≡ told_in file.now t }
{
    let hdlr = t.hdlr;
    let mdhd = t.mdhd;
    let tkhd = t.tkhd;
    let stsd = t.stsd;
    let stts = t.stts;
    ReadTrack {
        handler: number::word32(gather::bytes(file, hdlr), 8),
        scale: number::word32(gather::bytes(file, mdhd), 12),
        ticks: number::word32(gather::bytes(file, tkhd), 20),
        stsd,
        stts,
    }
}

// Track t, from 0, of n.
fn track_at(file: &[u8], n: usize, trak: Slot, t: usize) -> ReadTrack
    requires { (n ≡ tracks_of file.now) × TrakAt file.now t trak }
    ensures { TrackAt file.now t result }
{
    if n <= t {
        return blank();
    }
    told(file, track::found(file, trak))
}

// Those of a file.
pub fn lay(file: &[u8]) -> Tracks
    ensures { TracksAt file.now result }
{
    let m = tracks::found(file);
    let n = m.tracks;
    let one = m.one;
    let two = m.two;
    let three = m.three;
    let four = m.four;
    Tracks {
        count: n,
        one: track_at(file, n, one, 0),
        two: track_at(file, n, two, 1),
        three: track_at(file, n, three, 2),
        four: track_at(file, n, four, 3),
    }
}

// The one of a number, of four.
#[tactic(auto, unfolding(crate::specs::Every::track_of, wire::specs::Tests::if_eq))]
pub fn track(e: Tracks, t: usize) -> ReadTrack
    ensures { result ≡ track_of e t }
{
    match t {
        0 => e.one,
        1 => e.two,
        2 => e.three,
        _ => e.four,
    }
}

// So many, without boxes.
pub fn blanks(count: usize) -> Tracks
    ensures { result ≡ blanks_of count }
{
    let none = blank();
    Tracks {
        count,
        one: none,
        two: none,
        three: none,
        four: none,
    }
}

// With a track in place of the one of a number, of four.
pub fn with_track(e: Tracks, t: usize, k: ReadTrack) -> Tracks
    ensures { result ≡ with_track e t k }
{
    let count = e.count;
    let one = e.one;
    let two = e.two;
    let three = e.three;
    let four = e.four;
    if t == 0 {
        return Tracks {
            count,
            one: k,
            two,
            three,
            four,
        };
    }
    if t == 1 {
        return Tracks {
            count,
            one,
            two: k,
            three,
            four,
        };
    }
    if t == 2 {
        return Tracks {
            count,
            one,
            two,
            three: k,
            four,
        };
    }
    Tracks {
        count,
        one,
        two,
        three,
        four: k,
    }
}
