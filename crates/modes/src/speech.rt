// What the entry of a `samr` or a `sawb` says of its samples.
ghost use Rattle.std.specs.Prelude.{◌≡◌};
ghost use Rattle.boxes.specs.Boxes.{boxes};
ghost use Rattle.modes.specs.Sample.{codec_of, speech_of};
ghost use Rattle.modes.specs.Track.{entry_bytes, speech_only};

use boxes::seek;
use entry_heads::kind;
use frames::codec::Codec;
use wire::number;

// The codec, the mode set, and the frames per sample.
#[derive(Clone, Copy)]
pub struct Speech {
    pub codec: Codec,
    pub modes: usize,
    pub frames: usize,
}

// Whether every entry of a list is a `samr` or a `sawb`.
pub fn only(list: &[u8]) -> bool
    ensures { result ≡ speech_only (boxes list.now) }
{
    seek::count(list, seek::ANY) <= seek::count(list, codes::SAMR) + seek::count(list, codes::SAWB)
}

// The codec of an entry.
fn codec_of(entry: &[u8]) -> Codec
    ensures { result ≡ codec_of entry.now }
{
    if kind::of_code(number::word32(entry, 4)) == kind::SAMR {
        return Codec::Amr;
    }
    Codec::Wideband
}

fn read(entry: &[u8]) -> Speech
    ensures { result ≡ speech_of entry.now }
{
    Speech {
        codec: codec_of(entry),
        modes: number::word16(entry, 49),
        frames: number::byte(entry, 52),
    }
}

// What entry n of a list says, from 0.
pub fn described(list: &[u8], n: usize) -> Speech
    ensures { result ≡ speech_of (entry_bytes (boxes list.now) n) }
{
    match seek::nth(list, seek::ANY, n) {
        Some(b) => {
            let from = b.at;
            let to = b.at + b.span;
            read(&list[from..to])
        }
        None => read(&list[0..0]),
    }
}
