// The movie of a file: its tracks and what they say.
#![tactic(auto)]

pub mod entry;

ghost use Rattle.std.specs.Prelude.{◌≡◌, ◌*◌, ◌^◌, ◌≤◌, ◌<◌, length};
ghost use Rattle.movie.specs.Ways.{to_stsd, start_along, place_along};
ghost use Rattle.movie.specs.Movie.{tracks as tracks_of, track as track_of, sample_table, references as references_of, handler as handler_of, scale as scale_of, movie_ticks as ticks_of};

use boxes::seek;
use wire::number;

// How many tracks a file has.
pub fn tracks(file: &[u8]) -> usize
    ensures { (result ≡ tracks_of file.now) × (result ≤ length file.now) }
{
    seek::count(seek::payload(file, codes::MOOV, 0), codes::TRAK)
}

// The payload of track t, from 0.
pub fn track(file: &[u8], t: usize) -> &[u8]
    ensures { (result.now ≡ track_of file.now t) × (length result.now ≤ length file.now) }
{
    seek::payload(seek::payload(file, codes::MOOV, 0), codes::TRAK, t)
}

// A box of a track's `stbl`.
pub fn table(track: &[u8], code: usize) -> &[u8]
    ensures { (result.now ≡ sample_table code track.now) × (length result.now ≤ length track.now) }
{
    let mdia = seek::payload(track, codes::MDIA, 0);
    let minf = seek::payload(mdia, codes::MINF, 0);
    let stbl = seek::payload(minf, codes::STBL, 0);
    seek::payload(stbl, code, 0)
}

// How far into a track's payload its `stsd` starts.
pub fn stsd_place(track: &[u8]) -> usize
    requires { length track.now < 2 ^ 61 }
    ensures { (result ≡ place_along to_stsd track.now) × (result ≤ 4 * length track.now) }
{
    let mdia = seek::payload(track, codes::MDIA, 0);
    let minf = seek::payload(mdia, codes::MINF, 0);
    let stbl = seek::payload(minf, codes::STBL, 0);
    let to_minf = seek::start(track, codes::MDIA, 0) + seek::start(mdia, codes::MINF, 0);
    to_minf + seek::start(minf, codes::STBL, 0) + seek::place(stbl, codes::STSD, 0)
}

// How far into a track's payload that of its `stsd` starts.
pub fn stsd_start(track: &[u8]) -> usize
    requires { length track.now < 2 ^ 61 }
    ensures { (result ≡ start_along to_stsd track.now) × (result ≤ 4 * length track.now) }
{
    let mdia = seek::payload(track, codes::MDIA, 0);
    let minf = seek::payload(mdia, codes::MINF, 0);
    let stbl = seek::payload(minf, codes::STBL, 0);
    let to_minf = seek::start(track, codes::MDIA, 0) + seek::start(mdia, codes::MINF, 0);
    to_minf + seek::start(minf, codes::STBL, 0) + seek::start(stbl, codes::STSD, 0)
}

// How many data references it has.
pub fn references(track: &[u8]) -> usize
    ensures { (result ≡ references_of track.now) × (result < 2 ^ 32) }
{
    let mdia = seek::payload(track, codes::MDIA, 0);
    let minf = seek::payload(mdia, codes::MINF, 0);
    let dinf = seek::payload(minf, codes::DINF, 0);
    number::word32(seek::payload(dinf, codes::DREF, 0), 4)
}

// A track's handler.
pub fn handler(track: &[u8]) -> usize
    ensures { (result ≡ handler_of track.now) × (result < 2 ^ 32) }
{
    let mdia = seek::payload(track, codes::MDIA, 0);
    number::word32(seek::payload(mdia, codes::HDLR, 0), 8)
}

// Its time scale.
pub fn scale(track: &[u8]) -> usize
    ensures { (result ≡ scale_of track.now) × (result < 2 ^ 32) }
{
    let mdia = seek::payload(track, codes::MDIA, 0);
    number::word32(seek::payload(mdia, codes::MDHD, 0), 12)
}

// Ticks of the movie: never added to ticks of the media, nor compared with them.
#[derive(Clone, Copy)]
pub struct MovieTicks(pub u64);

// How long it is, in ticks of the movie.
pub fn movie_ticks(track: &[u8]) -> MovieTicks
    ensures { (result.0 ≡ ticks_of track.now) × (result.0 < 2 ^ 32) }
{
    MovieTicks(number::word32(seek::payload(track, codes::TKHD, 0), 20) as u64)
}
