// The walk that holds the lent file: a thin struct over the core in `stand`.
ghost use Rattle.std.specs.Prelude.{◌≡◌};
ghost use Rattle.mdat.specs.Samples.{sample_bytes};
ghost use Rattle.read_samples.specs.Stands.{StandsIn, NextAs};

use crate::stand;
use crate::stand::Stand;
use sample_walk::walk::Sample;

// A file, and where a walk by sample stands in it.
#[derive(Clone, Copy)]
pub struct Samples<'a> {
    pub file: &'a [u8],
    pub at: Stand,
}

impl<'a> Samples<'a> {
    // The walk over a file from where it stands.
    pub fn new(file: &'a [u8], at: Stand) -> Samples<'a>
        ensures { (result.file ≡ file.entry) × (result.at ≡ at) }
    {
        Samples { file, at }
    }

    // How many samples it has passed.
    pub fn number(self) -> usize
        ensures { result ≡ self.entry.at.walk.number }
    {
        self.at.walk.number
    }

    // The next sample and where the walk stands after it.
    pub fn next(self) -> Option<(Sample, Stand)>
        requires { StandsIn self.file.now self.at }
        ensures { NextAs self.entry.file.now self.entry.at result }
    {
        stand::next_at(self.file, self.at)
    }

    // The bytes of a sample.
    pub fn bytes(self, sample: Sample) -> &'a [u8]
        ensures { result.now ≡ sample_bytes self.entry.file.now sample }
    {
        stand::bytes_of(self.file, sample)
    }
}
