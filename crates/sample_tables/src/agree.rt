// Rule 7 of a track's tables.
ghost use Rattle.std.specs.Prelude.{◌≡◌};
ghost use Rattle.sample_tables.specs.Rules.{Six, empty_together, tables_agree};

use crate::{chunk, run, size, table, time};

// Whether chunks, runs and samples are there together.
fn empty_together(chunks: usize, runs: usize, samples: usize) -> bool
    ensures { result ≡ empty_together chunks runs samples }
{
    if chunks == 0 {
        return runs == 0 && samples == 0;
    }
    1 <= runs
}

// Whether a track with so many sample descriptions meets rule 7.
pub fn seven(stts: &[u8], stsc: &[u8], stsz: &[u8], stco: &[u8], descriptions: usize) -> bool
    requires { Six stts.now stsc.now stsz.now stco.now }
    ensures { result ≡ tables_agree stts.now stsc.now stsz.now stco.now descriptions }
{
    let samples = size::samples(stsz);
    let chunks = table::items(stco);
    samples <= 65536
        && time::timed(stts) == samples
        && run::runs_fine(stsc, chunks, descriptions)
        && empty_together(chunks, table::items(stsc), samples)
        && chunk::samples_over(stsc, stco) == samples
}
