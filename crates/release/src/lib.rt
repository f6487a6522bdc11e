// The release whose rules a file or a record is held to, and the brands that tell it.
#![tactic(auto)]

pub mod compatible;

ghost use Rattle.std.specs.Prelude.{◌≡◌};
ghost use Rattle.boxes.specs.Boxes.{boxes};
ghost use Rattle.release.specs.Releases.{most_frames, release_named, release_in, release_of};

use boxes::seek;
use compatible::listed;

#[derive(Clone, Copy, Debug, PartialEq, Eq)]
pub enum Release {
    Release4,
    Release6,
}

// The largest frames_per_sample.
pub fn most_frames(release: Release) -> usize
    ensures { result ≡ most_frames release }
{
    match release {
        Release::Release4 => 255,
        Release::Release6 => 15,
    }
}

// The release that a caller names by its number.
impl From<u64> for Release {
    ghost from_gives = { λ n r. r ≡ release_named n };

    #[tactic(auto, unfolding(crate::specs::Releases::release_named, wire::specs::Tests::if_eq))]
    fn from(n: u64) -> Release {
        if n == 4 {
            return Release::Release4;
        }
        Release::Release6
    }
}

// The release that a compatible list tells.
#[tactic(auto, unfolding(crate::specs::Releases::release_in, crate::specs::Compatible::brand_missing, wire::specs::Clauses::every))]
pub fn told(ftyp: &[u8]) -> Release
    ensures { result ≡ release_in ftyp.now }
{
    if listed(ftyp, codes::GP4)
        && !listed(ftyp, codes::GP5)
        && !listed(ftyp, codes::GP6)
        && !listed(ftyp, codes::GR6)
    {
        return Release::Release4;
    }
    Release::Release6
}

// The release of a file.
pub fn of_file(file: &[u8]) -> Release
    ensures { result ≡ release_of (boxes file.now) }
{
    told(seek::payload(file, codes::FTYP, 0))
}
