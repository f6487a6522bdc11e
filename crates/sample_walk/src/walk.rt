// Where the samples of a track lie, from one to the next.
ghost use Rattle.std.specs.Prelude.{◌≡◌, ◌<◌};
ghost use Rattle.sample_tables.specs.Chunks.{first_sample};
ghost use Rattle.sample_walk.specs.Walks.{sample_start, Sampled, Before, Gives, StepAs};

use sample_tables::chunk::ChunkWalk;
use sample_tables::size;

// A sample: its place in the file, how many bytes it has, and the number of its description, from 1.
#[derive(Clone, Copy)]
pub struct Sample {
    pub place: usize,
    pub bytes: usize,
    pub description: usize,
}

// Before a sample: its number from 0, the walk past its chunk, and where in the file and of which description it is. Past the last sample of
// a chunk only the first two count.
#[derive(Clone, Copy)]
pub struct SampleWalk {
    pub number: usize,
    pub chunks: ChunkWalk,
    pub place: usize,
    pub description: usize,
}

// The sample that a walk inside a chunk stands before, and the walk after it.
fn found(w: SampleWalk, stsc: &[u8], stsz: &[u8], stco: &[u8]) -> (Sample, SampleWalk)
    requires { Sampled stsc.now stsz.now stco.now × Before stsc.now stsz.now stco.now w × (w.number < first_sample stsc.now w.chunks.chunk) }
    ensures { Gives stsc.now stsz.now stco.now w.number result.0 result.1 }
{
    let number = w.number;
    let bytes = size::size_at(stsz, number);
    let place = w.place;
    let description = w.description;
    let chunks = w.chunks;
    (
        Sample {
            place,
            bytes,
            description,
        },
        SampleWalk {
            number: number + 1,
            chunks,
            place: place + bytes,
            description,
        },
    )
}

impl SampleWalk {
    // Before the first sample.
    pub fn start() -> Self
        ensures { result ≡ sample_start }
    {
        SampleWalk {
            number: 0,
            chunks: ChunkWalk::start(),
            place: 0,
            description: 0,
        }
    }

    // The sample and the walk after it, or none past the last, by a constant number of reads.
    pub fn step(self, stsc: &[u8], stsz: &[u8], stco: &[u8]) -> Option<(Sample, SampleWalk)>
        requires { Sampled stsc.now stsz.now stco.now × Before stsc.now stsz.now stco.now self }
        ensures { StepAs stsc.now stsz.now stco.now self.number result }
    {
        let number = self.number;
        let chunks = self.chunks;
        if number < chunks.sample {
            return Some(found(self, stsc, stsz, stco));
        }
        let (chunk, next) = chunks.step(stsc, stco)?;
        let w = SampleWalk {
            number,
            chunks: next,
            place: chunk.offset,
            description: chunk.description,
        };
        Some(found(w, stsc, stsz, stco))
    }
}
