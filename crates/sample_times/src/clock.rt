// The clock over `stts`.
ghost use Rattle.std.specs.Prelude.{◌≡◌, ◌≤◌};
ghost use Rattle.sample_tables.specs.Tables.{items};
ghost use Rattle.sample_tables.specs.Times.{timed_to, timed};
ghost use Rattle.sample_times.specs.Clocks.{clock_start, clock_at, turn_of, Clocked};

use sample_tables::table;
use sample_tables::time::MediaTicks;

// Before an item of `stts`: its number, the first sample that it counts, and the tick at which that sample starts.
#[derive(Clone, Copy)]
pub struct Clock {
    pub item: usize,
    pub sample: usize,
    pub tick: u64,
}

// A clock that was asked for a sample: the tick at which it starts, or the clock one item on where the sample lies past the item.
#[derive(Clone, Copy)]
pub enum Turned {
    At(MediaTicks),
    Behind(Clock),
}

impl Clock {
    // Before the first item.
    pub fn start() -> Self
        ensures { result ≡ clock_start }
    {
        Clock {
            item: 0,
            sample: 0,
            tick: 0,
        }
    }

    // Asks for a sample that isn't before the clock, by a constant number of reads.
    pub fn turn(self, stts: &[u8], sample: usize) -> Turned
        requires { Clocked stts.now × (self ≡ clock_at stts.now self.item) × (self.item ≤ items stts.now) × (timed_to stts.now self.item ≤ sample) × (sample ≤ timed stts.now) }
        ensures { result ≡ turn_of stts.now self.item sample }
    {
        let item = self.item;
        if item < table::items(stts) {
            let counted = table::field(stts, 8, 0, item);
            let delta = table::field(stts, 8, 4, item);
            let over = sample - self.sample;
            if counted < over {
                return Turned::Behind(Clock {
                    item: item + 1,
                    sample: self.sample + counted,
                    tick: self.tick + (counted * delta) as u64,
                });
            }
            return Turned::At(MediaTicks(self.tick + (over * delta) as u64));
        }
        Turned::At(MediaTicks(self.tick))
    }
}
