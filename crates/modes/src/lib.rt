// The frames of speech in a track's samples, against the modes that their descriptions allow.
#![tactic(auto)]

mod reason;
mod sample;
mod speech;

ghost use Rattle.std.specs.Prelude.{◌≡◌, [], ◌∷◌, ◌≤◌};
ghost use Rattle.boxes.specs.Boxes.{boxes};
ghost use Rattle.rule.specs.Results.{asked, Exact};
ghost use Rattle.rule.specs.Results.ToWrite.{gives};
ghost use Rattle.judge.specs.Acceptance.{Meets};
ghost use Rattle.movie.specs.Named.{list_in};
ghost use Rattle.read_tracks.specs.Reads.{is_track, track_body};
ghost use Rattle.sample_walk.specs.Samples.{samples_at};
ghost use Rattle.sample_walk.specs.Walks.{Sampled};
ghost use Rattle.modes.specs.Track.{speech_only, why_of, failing_from, failing_numbers, failing_in, modes_result};

use crate::reason::Reason;
use boxes::walk;
use layout::gather;
use rule::{Answer, refusals};
use sample_tables::size;
use sample_walk::walk::{Sample, SampleWalk};
use wire::lend;

// The first sample that fails, from 1, and why; its laws hold for any type of reasons.
#[derive(Clone, Copy)]
pub struct Failing<R> {
    pub number: usize,
    pub why: R,
}

// Why a sample fails that has so many after it, by the entries that describe the track's samples; nothing where it passes.
fn why_of(file: &[u8], list: &[u8], s: Sample, left: usize) -> Option<Reason>
    requires { 1 ≤ s.description }
    ensures { result ≡ why_of file.now (boxes list.now) s left }
{
    sample::why(
        speech::described(list, s.description - 1),
        lend::front(lend::rest(file, s.place), s.bytes),
        left,
    )
}

// The samples in turn, up to the first that fails.
fn first_failing(
    file: &[u8],
    list: &[u8],
    stsc: &[u8],
    stsz: &[u8],
    stco: &[u8],
) -> Option<Failing<Reason>>
    requires { Sampled stsc.now stsz.now stco.now }
    ensures { result ≡ failing_from (why_of file.now (boxes list.now)) 1 (samples_at stsc.now stsz.now stco.now) }
{
    let n = size::samples(stsz);
    let mut walk = SampleWalk::start();
    while let Some((s, next)) = walk.step(stsc, stsz, stco) {
        if let Some(why) = why_of(file, list, s, n - next.number) {
            return Some(Failing {
                number: next.number,
                why,
            });
        }
        walk = next;
    }
    None
}

// Nothing where none fails, else the two numbers.
fn put(failing: Option<Failing<Reason>>, out: &mut [u64]) -> Answer
    ensures { Exact (gives (failing_numbers failing)) out.old result out.new }
{
    let Some(f) = failing else {
        return Ok(0);
    };
    if out.len() < 2 {
        return Err(refusals::NO_ROOM);
    }
    let why = f.why;
    out[0] = f.number as u64;
    out[1] = usize::from(why) as u64;
    Ok(2)
}

// Of a file that is accepted.
fn modes_in(file: &[u8], track: usize, out: &mut [u64]) -> Answer
    requires { Meets file.now }
    ensures { Exact (asked ((20, is_track file.now track) ∷ (20, speech_only (boxes (list_in (track_body file.now track)))) ∷ []) (gives (failing_numbers (failing_in file.now (track_body file.now track))))) out.old result out.new }
{
    let Some(k) = read_tracks::numbered_track(file, track) else {
        return Err(refusals::NO_SUCH);
    };
    let stsd = k.stsd;
    let stsc = k.stsc;
    let stsz = k.stsz;
    let stco = k.stco;
    let list = lend::rest(gather::bytes(file, stsd), walk::FRONT);
    if !speech::only(list) {
        return Err(refusals::NO_SUCH);
    }
    let f = first_failing(
        file,
        list,
        gather::bytes(file, stsc),
        gather::bytes(file, stsz),
        gather::bytes(file, stco),
    );
    put(f, out)
}

// The first sample of a track of speech that fails, and why.
pub fn modes(file: &[u8], track: usize, out: &mut [u64]) -> Answer
    ensures { Exact (modes_result file.now track) out.old result out.new }
{
    judge::judge(file)?;
    modes_in(file, track, out)
}
