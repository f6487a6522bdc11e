// What a track says, each number in its unit.
ghost use Rattle.std.specs.Prelude.{◌≡◌, ◌≤◌, ◌<◌, length};
ghost use Rattle.wire.specs.Writing.{Wrote};
ghost use Rattle.movie.specs.Movie.{track};
ghost use Rattle.layout.specs.Every.{TracksAt};
ghost use Rattle.read_tracks.specs.Reads.{said_by, numbers_of};
ghost use Rattle.read_tracks.specs.Tracks.{Readable};

use layout::every::Tracks;
use layout::{every, gather};
use movie::MovieTicks;
use sample_tables::time::MediaTicks;

// A track's handler, its length in media ticks, their time scale, its length in movie ticks.
#[derive(Clone, Copy)]
pub struct Said {
    pub handler: usize,
    pub media: MediaTicks,
    pub scale: usize,
    pub movie: MovieTicks,
}

// What track t, from 0, of a file says.
pub fn read(file: &[u8], e: Tracks, t: usize) -> Said
    requires { TracksAt file.now e × (t < 4) × Readable (track file.now t) }
    ensures { result ≡ said_by (track file.now t) }
{
    let k = every::track(e, t);
    let stts = k.stts;
    Said {
        handler: k.handler,
        media: sample_tables::time::media_ticks(gather::bytes(file, stts)),
        scale: k.scale,
        movie: MovieTicks(k.ticks as u64),
    }
}

// The same as numbers.
pub fn put(said: Said, out: &mut [u64]) -> usize
    requires { 4 ≤ length out.old }
    ensures { Wrote (numbers_of said) out.old result out.new }
{
    out[0] = said.handler as u64;
    out[1] = said.media.0;
    out[2] = said.scale as u64;
    out[3] = said.movie.0;
    4
}
