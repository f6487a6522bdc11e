// One sample of speech.
ghost use Rattle.std.specs.Prelude.{◌≡◌, ◌<◌};
ghost use Rattle.frames.specs.Frames.{frames};
ghost use Rattle.modes.specs.Sample.{count_fits, bit_set, all_set, why};

use crate::reason::Reason;
use crate::speech::Speech;
use frames::codec::Codec;
use frames::run;
use wire::number;

// Whether so many frames fit a sample that has so many samples after it.
#[tactic(auto, unfolding(crate::specs::Sample::count_fits, wire::specs::Clauses::every, wire::specs::Clauses::is_le, wire::specs::Clauses::is_eq, wire::specs::Tests::if_eq))]
fn count_fits(most: usize, left: usize, count: usize) -> bool
    ensures { result ≡ count_fits most left count }
{
    let fits = if left == 0 {
        count <= most
    } else {
        count == most
    };
    1 <= count && fits
}

// Whether the bit of a type is set in a mode set, which 14 needs not.
#[tactic(auto, unfolding(crate::specs::Sample::bit_set, wire::specs::Clauses::is_eq, wire::specs::Tests::if_eq))]
fn bit_set(modes: usize, t: usize) -> bool
    requires { t < 16 }
    ensures { result ≡ bit_set modes t }
{
    t == 14 || (modes >> t) % 2 == 1
}

// Whether it is for every good frame from the front on.
fn all_set(modes: usize, codec: Codec, part: &[u8]) -> bool
    ensures { result ≡ all_set modes (frames codec part.now) }
{
    let mut at = 0;
    while let Some(size) = run::front(codec, &part[at..]) {
        if !bit_set(modes, number::byte(part, at) / 8 % 16) {
            return false;
        }
        at += size;
    }
    true
}

// Why a sample fails that has so many after it; nothing where it passes.
pub fn why(speech: Speech, part: &[u8], left: usize) -> Option<Reason>
    ensures { result ≡ why speech left part.now }
{
    let codec = speech.codec;
    let run = run::read(codec, part, part.len());
    if run.bytes < part.len() {
        return Some(Reason::BadFrame);
    }
    if !count_fits(speech.frames, left, run.count) {
        return Some(Reason::WrongCount);
    }
    if !all_set(speech.modes, codec, part) {
        return Some(Reason::BitNotSet);
    }
    None
}
