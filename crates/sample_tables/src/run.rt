// `stsc`: runs of chunks.
ghost use Rattle.std.specs.Prelude.{◌≡◌, ◌+◌, ◌^◌, ◌<◌};
ghost use Rattle.sample_tables.specs.Tables.{Table, items};
ghost use Rattle.sample_tables.specs.Runs.{first_chunk, per_chunk, description as description_in};
ghost use Rattle.sample_tables.specs.Runs.{rises as rises_of, run_fine, runs_fine, run_of, run_start, Rising};

use crate::table;

// The number of run i's first chunk, from 1.
fn start_of(stsc: &[u8], i: usize) -> usize
    requires { Table 12 stsc.now × (i < items stsc.now) }
    ensures { (result ≡ first_chunk stsc.now i) × (result < 2 ^ 32) }
{
    table::field(stsc, 12, 0, i)
}

// The samples in each of its chunks.
pub fn per_chunk(stsc: &[u8], i: usize) -> usize
    requires { Table 12 stsc.now × (i < items stsc.now) }
    ensures { (result ≡ per_chunk stsc.now i) × (result < 2 ^ 32) }
{
    table::field(stsc, 12, 4, i)
}

// Its description index.
pub fn description(stsc: &[u8], i: usize) -> usize
    requires { Table 12 stsc.now × (i < items stsc.now) }
    ensures { (result ≡ description_in stsc.now i) × (result < 2 ^ 32) }
{
    table::field(stsc, 12, 8, i)
}

// Whether run i starts at chunk 1 or, after the first, past the one before it.
fn rises(stsc: &[u8], i: usize) -> bool
    requires { Table 12 stsc.now × (i < items stsc.now) }
    ensures { result ≡ rises_of stsc.now i }
{
    if i == 0 {
        return start_of(stsc, i) == 1;
    }
    start_of(stsc, i - 1) < start_of(stsc, i)
}

// Whether run i is as rule 7 wants it.
fn run_fine(stsc: &[u8], chunks: usize, descriptions: usize, i: usize) -> bool
    requires { Table 12 stsc.now × (i < items stsc.now) }
    ensures { result ≡ run_fine stsc.now chunks descriptions i }
{
    let index = description(stsc, i);
    rises(stsc, i)
        && start_of(stsc, i) <= chunks
        && 1 <= per_chunk(stsc, i)
        && 1 <= index
        && index <= descriptions
}

// Whether every run is.
pub fn runs_fine(stsc: &[u8], chunks: usize, descriptions: usize) -> bool
    requires { Table 12 stsc.now }
    ensures { result ≡ runs_fine stsc.now chunks descriptions (items stsc.now) }
{
    let n = table::items(stsc);
    for i in 0..n {
        if !run_fine(stsc, chunks, descriptions, i) {
            return false;
        }
    }
    true
}

// The run of chunk k + 1, from that of chunk k.
pub fn run_after(stsc: &[u8], k: usize, run: usize) -> usize
    requires { Table 12 stsc.now × Rising stsc.now × (run ≡ run_of stsc.now k) × (k < 2 ^ 32) × (0 < items stsc.now) }
    ensures { result ≡ run_of stsc.now (k + 1) }
{
    if run + 1 < table::items(stsc) {
        if start_of(stsc, run + 1) <= k + 2 {
            return run + 1;
        }
        return run;
    }
    run
}

// How many of so many chunks stand before the end of run i.
pub fn run_end(stsc: &[u8], chunks: usize, i: usize) -> usize
    requires { Table 12 stsc.now × Rising stsc.now × (i < items stsc.now) }
    ensures { result ≡ run_start stsc.now chunks (i + 1) }
{
    if i + 1 < table::items(stsc) {
        return (start_of(stsc, i + 1) - 1).min(chunks);
    }
    chunks
}
