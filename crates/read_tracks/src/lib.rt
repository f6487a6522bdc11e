// Other reads of a file: its tracks, what one says, where its chunks are.
#![tactic(auto)]

mod offset;
mod said;

ghost use Rattle.std.specs.Prelude.{◌≡◌, [], ◌∷◌, Ok};
ghost use Rattle.wire.specs.Tests.{pick};
ghost use Rattle.rule.specs.Results.{asked, Exact};
ghost use Rattle.rule.specs.Results.ToWrite.{gives};
ghost use Rattle.movie.specs.Movie.{tracks as tracks_of};
ghost use Rattle.layout.specs.Every.{TracksAt};
ghost use Rattle.judge.specs.Acceptance.{Meets};
ghost use Rattle.read_tracks.specs.Tracks.{NumberedAs};
ghost use Rattle.read_tracks.specs.Reads.{tracks_answer, is_track, track_body, media_length, movie_length, said_by, numbers_of, track_result, offsets_of, offsets_result};
ghost use Rattle.rule.specs.Answers.{Refused};

use layout::every::Tracks;
use layout::track::Track;
use layout::{gather, track, tracks};
use movie::MovieTicks;
use rule::{Answer, Refusal, refusals};
use said::Said;
use sample_tables::time::MediaTicks;

// How many tracks a file has.
pub fn tracks(file: &[u8]) -> Answer
    ensures { result ≡ tracks_answer file.now }
{
    judge::judge(file)?;
    Ok(movie::tracks(file))
}

// Whether a file has a track of a number, from 1.
#[tactic(auto, unfolding(crate::specs::Reads::is_track, wire::specs::Clauses::every, wire::specs::Clauses::is_le))]
fn is_track(file: &[u8], count: usize, track: usize) -> bool
    requires { count ≡ tracks_of file.now }
    ensures { result ≡ is_track file.now track }
{
    1 <= track && track <= count
}

// What the track of a number, from 1, of an accepted file says.
fn said_in(file: &[u8], e: Tracks, track: usize) -> Result<Said, Refusal>
    requires { Meets file.now × TracksAt file.now e }
    ensures { result ≡ pick (is_track file.now track) (Ok (said_by (track_body file.now track))) (Refused 20 0) }
{
    if !is_track(file, e.count, track) {
        return Err(refusals::NO_SUCH);
    }
    Ok(said::read(file, e, track - 1))
}

// A track's length in media ticks.
pub fn media_ticks(file: &[u8], track: usize) -> Result<MediaTicks, Refusal>
    ensures { result ≡ media_length file.now track }
{
    let tracks = judge::judge_tracks(file)?;
    let said = said_in(file, tracks, track)?;
    Ok(said.media)
}

// A track's length in movie ticks.
pub fn movie_ticks(file: &[u8], track: usize) -> Result<MovieTicks, Refusal>
    ensures { result ≡ movie_length file.now track }
{
    let tracks = judge::judge_tracks(file)?;
    let said = said_in(file, tracks, track)?;
    Ok(said.movie)
}

// Of a file that is accepted. The room is asked before the track is read, which goes over all of its `stts`.
fn track_in(file: &[u8], e: Tracks, track: usize, out: &mut [u64]) -> Answer
    requires { Meets file.now × TracksAt file.now e }
    ensures { Exact (asked ((20, is_track file.now track) ∷ []) (gives (numbers_of (said_by (track_body file.now track))))) out.old result out.new }
{
    if !is_track(file, e.count, track) {
        return Err(refusals::NO_SUCH);
    }
    if out.len() < 4 {
        return Err(refusals::NO_ROOM);
    }
    Ok(said::put(said::read(file, e, track - 1), out))
}

// What a track says: its handler, media ticks, time scale and movie ticks.
pub fn track(file: &[u8], track: usize, out: &mut [u64]) -> Answer
    ensures { Exact (track_result file.now track) out.old result out.new }
{
    let tracks = judge::judge_tracks(file)?;
    track_in(file, tracks, track, out)
}

// Where the boxes of the track of a number, from 1, of a file that is accepted stand.
pub fn numbered_track(file: &[u8], track: usize) -> Option<Track>
    requires { Meets file.now }
    ensures { NumberedAs file.now track result }
{
    let m = tracks::found(file);
    if !is_track(file, m.tracks, track) {
        return None;
    }
    let trak = tracks::track_slot(m, track - 1);
    Some(track::found(file, trak))
}

// Of a file that is accepted.
fn offsets_in(file: &[u8], track: usize, list: &mut [u32]) -> Answer
    requires { Meets file.now }
    ensures { Exact (asked ((20, is_track file.now track) ∷ []) (gives (offsets_of (track_body file.now track)))) list.old result list.new }
{
    let Some(k) = numbered_track(file, track) else {
        return Err(refusals::NO_SUCH);
    };
    let slot = k.stco;
    let stco = gather::bytes(file, slot);
    if list.len() < sample_tables::table::items(stco) {
        return Err(refusals::NO_ROOM);
    }
    Ok(offset::put(stco, list))
}

// The chunk offsets of a track, in order.
pub fn offsets(file: &[u8], track: usize, list: &mut [u32]) -> Answer
    ensures { Exact (offsets_result file.now track) list.old result list.new }
{
    judge::judge(file)?;
    offsets_in(file, track, list)
}
