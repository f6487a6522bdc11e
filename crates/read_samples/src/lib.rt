// The samples of a track: where each of them lies, and a walk that holds the file.
#![tactic(auto)]

pub mod held;
pub mod stand;

ghost use Rattle.std.specs.Prelude.{[], ◌∷◌, ◌+◌, ◌*◌, ◌≤◌, length};
ghost use Rattle.wire.specs.Writing.{Wrote, Put};
ghost use Rattle.rule.specs.Results.{asked, Exact};
ghost use Rattle.rule.specs.Results.ToWrite.{gives};
ghost use Rattle.judge.specs.Acceptance.{Meets};
ghost use Rattle.read_tracks.specs.Reads.{is_track, track_body};
ghost use Rattle.sample_walk.specs.Samples.{samples_at};
ghost use Rattle.sample_walk.specs.Walks.{Sampled};
ghost use Rattle.read_samples.specs.Reads.{track_samples, places_of, samples_result};

use layout::gather;
use rule::{Answer, refusals};
use sample_tables::size;
use sample_walk::walk::{Sample, SampleWalk};

// The place and the length of a sample, where there is room for both.
fn put_sample(sample: Sample, out: &mut [u64], at: usize)
    requires { at + 2 ≤ length out.old }
    ensures { Put (places_of (sample ∷ [])) out.old at (at + 2) out.new }
{
    out[at] = sample.place as u64;
    out[at + 1] = sample.bytes as u64;
}

// Those of every sample in turn.
fn put(stsc: &[u8], stsz: &[u8], stco: &[u8], out: &mut [u64]) -> usize
    requires { Sampled stsc.now stsz.now stco.now × (2 * length (samples_at stsc.now stsz.now stco.now) ≤ length out.old) }
    ensures { Wrote (places_of (samples_at stsc.now stsz.now stco.now)) out.old result out.new }
{
    let mut walk = SampleWalk::start();
    let mut at = 0;
    while let Some((sample, next)) = walk.step(stsc, stsz, stco) {
        put_sample(sample, out, at);
        at += 2;
        walk = next;
    }
    at
}

// Of a file that is accepted.
fn samples_in(file: &[u8], track: usize, out: &mut [u64]) -> Answer
    requires { Meets file.now }
    ensures { Exact (asked ((20, is_track file.now track) ∷ []) (gives (places_of (track_samples (track_body file.now track))))) out.old result out.new }
{
    let Some(k) = read_tracks::numbered_track(file, track) else {
        return Err(refusals::NO_SUCH);
    };
    let stsc = k.stsc;
    let stsz = k.stsz;
    let stco = k.stco;
    let sizes = gather::bytes(file, stsz);
    if out.len() < 2 * size::samples(sizes) {
        return Err(refusals::NO_ROOM);
    }
    Ok(put(
        gather::bytes(file, stsc),
        sizes,
        gather::bytes(file, stco),
        out,
    ))
}

// The place and the length of each sample of a track, in turn.
pub fn samples(file: &[u8], track: usize, out: &mut [u64]) -> Answer
    ensures { Exact (samples_result file.now track) out.old result out.new }
{
    judge::judge(file)?;
    samples_in(file, track, out)
}
