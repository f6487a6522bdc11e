// The walk by chunk, with the tick at which each chunk starts.
ghost use Rattle.std.specs.Prelude.{◌≡◌, ◌<◌};
ghost use Rattle.sample_tables.specs.Tables.{items};
ghost use Rattle.sample_tables.specs.Times.{tick_at};
ghost use Rattle.sample_tables.specs.Chunks.{first_sample};
ghost use Rattle.sample_times.specs.Walks.{timed_start, timed_step, Timed, Playable};

use crate::clock::{Clock, Turned};
use sample_tables::chunk::{Chunk, ChunkWalk};
use sample_tables::time::MediaTicks;

// Before a chunk, with a clock that isn't past the chunk's first sample.
#[derive(Clone, Copy)]
pub struct TimedWalk {
    pub walk: ChunkWalk,
    pub clock: Clock,
}

// A chunk, its first tick and the walk after it; or the walk with its clock one item on; or no chunk.
#[derive(Clone, Copy)]
pub enum TimedStep {
    Found(Chunk, MediaTicks, TimedWalk),
    Ticking(TimedWalk),
    End,
}

impl TimedWalk {
    // Before the first chunk.
    pub fn start() -> Self
        ensures { result ≡ timed_start }
    {
        TimedWalk {
            walk: ChunkWalk::start(),
            clock: Clock::start(),
        }
    }

    // One step, by a constant number of reads.
    pub fn step(self, stts: &[u8], stsc: &[u8], stco: &[u8]) -> TimedStep
        requires { Playable stts.now stsc.now stco.now × Timed stts.now stsc.now self }
        ensures { result ≡ timed_step stts.now stsc.now stco.now self.clock.item self.walk.chunk }
    {
        let walk = self.walk;
        let clock = self.clock;
        match walk.step(stsc, stco) {
            Some((chunk, next)) => match clock.turn(stts, walk.sample) {
                Turned::At(tick) => TimedStep::Found(chunk, tick, TimedWalk { walk: next, clock }),
                Turned::Behind(clock) => TimedStep::Ticking(TimedWalk { walk, clock }),
            },
            None => TimedStep::End,
        }
    }
}

// The tick at which chunk k starts.
pub fn chunk_tick(stts: &[u8], stsc: &[u8], stco: &[u8], k: usize) -> MediaTicks
    requires { Playable stts.now stsc.now stco.now × (k < items stco.now) }
    ensures { result.0 ≡ tick_at stts.now (first_sample stsc.now k) }
{
    let mut walk = TimedWalk::start();
    loop {
        match walk.step(stts, stsc, stco) {
            TimedStep::Found(chunk, tick, next) => {
                if chunk.nth == k {
                    return tick;
                }
                walk = next;
            }
            TimedStep::Ticking(next) => {
                walk = next;
            }
            TimedStep::End => {
                return MediaTicks(0);
            }
        }
    }
}
