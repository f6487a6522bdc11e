// The time of a recording: when it was last changed, as its `mvhd` says.
ghost use Rattle.std.specs.Prelude.{◌<◌, ◌^◌};

use boxes::seek;
use wire::number;

pub fn of(file: &[u8]) -> usize
    ensures { result < 2 ^ 32 }
{
    let moov = seek::payload(file, codes::MOOV, 0);
    number::word32(seek::payload(moov, codes::MVHD, 0), 8)
}
