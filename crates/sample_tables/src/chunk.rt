// The walk by chunk.
ghost use Rattle.std.specs.Prelude.{◌≡◌, ◌+◌, ◌^◌, ◌≤◌, ◌<◌};
ghost use Rattle.sample_tables.specs.Tables.{Table, items};
ghost use Rattle.sample_tables.specs.Chunks.{offset_at, extent_of, samples_over, walk_start, walk_at, step_of, Walkable};

use crate::{run, size, table};

// A chunk: its number from 0, its offset in the file, its first sample from 0, how many it has, and their description.
#[derive(Clone, Copy)]
pub struct Chunk {
    pub nth: usize,
    pub offset: usize,
    pub first: usize,
    pub samples: usize,
    pub description: usize,
}

// Where a chunk lies in the file.
#[derive(Clone, Copy)]
pub struct Extent {
    pub offset: usize,
    pub bytes: usize,
}

// Before a chunk: its number, its run and its first sample.
#[derive(Clone, Copy)]
pub struct ChunkWalk {
    pub chunk: usize,
    pub run: usize,
    pub sample: usize,
}

// The offset of chunk k.
pub fn offset_at(stco: &[u8], k: usize) -> usize
    requires { Table 4 stco.now × (k < items stco.now) }
    ensures { (result ≡ offset_at stco.now k) × (result < 2 ^ 32) }
{
    table::field(stco, 4, 0, k)
}

impl ChunkWalk {
    // Before the first chunk.
    pub fn start() -> Self
        ensures { result ≡ walk_start }
    {
        ChunkWalk {
            chunk: 0,
            run: 0,
            sample: 0,
        }
    }

    // The chunk and the walk after it, or none past the last, by a constant number of reads.
    pub fn step(self, stsc: &[u8], stco: &[u8]) -> Option<(Chunk, ChunkWalk)>
        requires { Walkable stsc.now stco.now × (self ≡ walk_at stsc.now self.chunk) }
        ensures { result ≡ step_of stsc.now stco.now self.chunk }
    {
        let nth = self.chunk;
        if table::items(stco) <= nth {
            return None;
        }
        let run = self.run;
        let samples = run::per_chunk(stsc, run);
        let found = Chunk {
            nth,
            offset: offset_at(stco, nth),
            first: self.sample,
            samples,
            description: run::description(stsc, run),
        };
        let next = ChunkWalk {
            chunk: nth + 1,
            run: run::run_after(stsc, nth, run),
            sample: self.sample + samples,
        };
        Some((found, next))
    }
}

// The samples over all chunks, run by run.
pub fn samples_over(stsc: &[u8], stco: &[u8]) -> usize
    requires { Walkable stsc.now stco.now }
    ensures { result ≡ samples_over stsc.now (items stco.now) }
{
    let n = table::items(stsc);
    let chunks = table::items(stco);
    let mut k = 0;
    let mut sum = 0;
    for i in 0..n {
        let end = run::run_end(stsc, chunks, i);
        sum += (end - k) * run::per_chunk(stsc, i);
        k = end;
    }
    sum
}

// Where a chunk lies.
pub fn extent_of(stsz: &[u8], chunk: Chunk) -> Extent
    requires { chunk.first + chunk.samples ≤ 65536 }
    ensures { result ≡ extent_of stsz.now chunk }
{
    let first = chunk.first;
    let samples = chunk.samples;
    Extent {
        offset: chunk.offset,
        bytes: size::bytes_from(stsz, first, samples),
    }
}
