// The two codecs, and the data bytes of each by frame type.
ghost use Rattle.std.specs.Prelude.{◌≡◌, ◌<◌};
ghost use Rattle.frames.specs.Codecs.{codec_named, data_bytes};

#[derive(Clone, Copy, Debug, PartialEq, Eq)]
pub enum Codec {
    Amr,
    Wideband,
}

// The codec that a caller names by a number.
impl From<u64> for Codec {
    ghost from_gives = { λ n r. r ≡ codec_named n };

    fn from(n: u64) -> Codec {
        if n == 0 {
            return Codec::Amr;
        }
        Codec::Wideband
    }
}

// For a type that the codec doesn't have: a number, since the definition has one there.
pub const NONE: usize = 255;

const AMR: [u8; 16] = [
    12, 13, 15, 17, 19, 20, 26, 31, 5, 255, 255, 255, 255, 255, 255, 0,
];

const WIDEBAND: [u8; 16] = [
    17, 23, 32, 36, 40, 46, 50, 58, 60, 5, 255, 255, 255, 255, 0, 0,
];

// The data bytes of a frame of type t.
pub fn data_bytes(codec: Codec, t: usize) -> usize
    requires { t < 16 }
    ensures { (result ≡ data_bytes codec t) × (result < 256) }
{
    match codec {
        Codec::Amr => AMR[t] as usize,
        Codec::Wideband => WIDEBAND[t] as usize,
    }
}
