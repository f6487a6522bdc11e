// The run of good frames at the front of a part.
ghost use Rattle.std.specs.Prelude.{◌≡◌, ◌≤◌, length, IfSome};
ghost use Rattle.std.specs.declared.option.Option.TheVariants.{Some, None};
ghost use Rattle.wire.specs.Tests.{pick};
ghost use Rattle.frames.specs.Frames.{frame_size, good, frames_to};
ghost use Rattle.frames.specs.Modes.{RunOf, flagged};

use crate::codec;
use crate::codec::Codec;
use wire::number;

// How many frames, the bytes that they take, and their modes.
#[derive(Clone, Copy)]
pub struct Run {
    pub count: usize,
    pub bytes: usize,
    pub modes: usize,
}

// The mode bit of each type: 14 has none.
const BITS: [usize; 16] = [
    1, 2, 4, 8, 16, 32, 64, 128, 256, 512, 1024, 2048, 4096, 8192, 0, 32768,
];

// The size of the good frame at the front of a part.
pub fn front(codec: Codec, part: &[u8]) -> Option<usize>
    ensures size { result ≡ pick (good codec part.now) (Some (frame_size codec part.now)) None }
    ensures inside { IfSome result (λ n. (1 ≤ n) × (n ≤ length part.now)) }
{
    if part.len() < 1 {
        return None;
    }
    let header = number::byte(part, 0);
    if header / 128 != 0 {
        return None;
    }
    if header % 4 != 0 {
        return None;
    }
    let data = codec::data_bytes(codec, header / 8 % 16);
    if codec::NONE <= data {
        return None;
    }
    if part.len() < 1 + data {
        return None;
    }
    Some(1 + data)
}

// The mode set of the flags of the sixteen types.
fn mode_set(seen: &[u8]) -> usize
    ensures { result ≡ flagged seen.now }
{
    let mut modes = 0;
    for t in 0..16 {
        modes += number::byte(seen, t) * BITS[t];
    }
    modes
}

// The good frames from the front on, at most so many of them.
pub fn read(codec: Codec, part: &[u8], most: usize) -> Run
    ensures { RunOf (frames_to most codec part.now) result }
{
    let mut seen = [0u8; 16];
    let mut at = 0;
    for count in 0..most {
        let Some(size) = front(codec, &part[at..]) else {
            return Run {
                count,
                bytes: at,
                modes: mode_set(&seen),
            };
        };
        let t = number::byte(part, at) / 8 % 16;
        seen[t] = 1;
        at += size;
    }
    Run {
        count: most,
        bytes: at,
        modes: mode_set(&seen),
    }
}
