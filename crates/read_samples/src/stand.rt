// The core of the walk that holds the file: plain numbers, and the file beside them.
ghost use Rattle.std.specs.Prelude.{◌≡◌};
ghost use Rattle.judge.specs.Judgement.{judged, Accepted};
ghost use Rattle.mdat.specs.Samples.{sample_bytes};
ghost use Rattle.read_samples.specs.Stands.{StandsIn, NextAs, StoodAs};

use layout::gather;
use layout::gather::Slot;
use rule::{Refusal, refusals};
use sample_walk::walk::{Sample, SampleWalk};
use wire::lend;

// Where three tables of a track stand in a file, and a walk by sample over them.
#[derive(Clone, Copy)]
pub struct Stand {
    pub stsc: Slot,
    pub stsz: Slot,
    pub stco: Slot,
    pub walk: SampleWalk,
}

// Of a file that is accepted.
fn start_in(file: &[u8], track: usize) -> Result<Stand, Refusal>
    requires { judged file.now ≡ Accepted }
    ensures { StoodAs file.now track result }
{
    let Some(k) = read_tracks::numbered_track(file, track) else {
        return Err(refusals::NO_SUCH);
    };
    let stsc = k.stsc;
    let stsz = k.stsz;
    let stco = k.stco;
    Ok(Stand {
        stsc,
        stsz,
        stco,
        walk: SampleWalk::start(),
    })
}

// Before the first sample of a track.
pub fn start(file: &[u8], track: usize) -> Result<Stand, Refusal>
    ensures { StoodAs file.now track result }
{
    judge::judge(file)?;
    start_in(file, track)
}

// The next sample, by a constant number of reads, and where the walk stands after it.
pub fn next_at(file: &[u8], at: Stand) -> Option<(Sample, Stand)>
    requires { StandsIn file.now at }
    ensures { NextAs file.now at result }
{
    let stsc = at.stsc;
    let stsz = at.stsz;
    let stco = at.stco;
    let walk = at.walk;
    match walk.step(
        gather::bytes(file, stsc),
        gather::bytes(file, stsz),
        gather::bytes(file, stco),
    ) {
        Some((sample, walk)) => Some((
            sample,
            Stand {
                stsc,
                stsz,
                stco,
                walk,
            },
        )),
        None => None,
    }
}

// The bytes of a sample.
pub fn bytes_of(file: &[u8], sample: Sample) -> &[u8]
    ensures { result.now ≡ sample_bytes file.now sample }
{
    lend::front(lend::rest(file, sample.place), sample.bytes)
}
