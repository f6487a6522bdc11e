// `stts`: how many samples it counts, and how long they last.
ghost use Rattle.std.specs.Prelude.{◌≡◌, ◌≤◌};
ghost use Rattle.sample_tables.specs.Tables.{Table};
ghost use Rattle.sample_tables.specs.Times.{timed as timed_of, media_ticks, tick_at};

use crate::table;

// A number of the units that `mdhd` says: never added to or compared with movie ticks.
#[derive(Clone, Copy)]
pub struct MediaTicks(pub u64);

// The samples that `stts` counts.
pub fn timed(stts: &[u8]) -> usize
    requires { Table 8 stts.now }
    ensures { result ≡ timed_of stts.now }
{
    let n = table::items(stts);
    let mut sum = 0;
    for i in 0..n {
        sum += table::field(stts, 8, 0, i);
    }
    sum
}

// A track's length: with at most 65,536 samples it stays below 2^48.
pub fn media_ticks(stts: &[u8]) -> MediaTicks
    requires { Table 8 stts.now × (timed_of stts.now ≤ 65536) }
    ensures { result.0 ≡ media_ticks stts.now }
{
    let n = table::items(stts);
    let mut sum = 0;
    for i in 0..n {
        let counted = table::field(stts, 8, 0, i);
        let delta = table::field(stts, 8, 4, i);
        sum += counted * delta;
    }
    MediaTicks(sum as u64)
}

// The tick at which a sample starts: the deltas of all samples before it.
pub fn tick_at(stts: &[u8], sample: usize) -> MediaTicks
    requires { Table 8 stts.now × (sample ≤ 65536) }
    ensures { result.0 ≡ tick_at stts.now sample }
{
    let n = table::items(stts);
    let mut left = sample;
    let mut sum = 0;
    for i in 0..n {
        let counted = table::field(stts, 8, 0, i).min(left);
        let delta = table::field(stts, 8, 4, i);
        sum += counted * delta;
        left -= counted;
    }
    MediaTicks(sum as u64)
}
