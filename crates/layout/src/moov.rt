// One walk over the plain boxes of a `moov`, for its first four tracks.
ghost use Rattle.std.specs.Prelude.{◌≡◌, true, ◌+◌, ◌^◌, ◌≤◌, ◌<◌};
ghost use Rattle.wire.specs.Tests.{if_eq};
ghost use Rattle.layout.specs.Slots.{first_with, Lies, Gathered};
ghost use Rattle.layout.specs.Tracks.{wanted, slot_with, five_of, Further};

use crate::gather;
use crate::gather::{Five, Slot, Want};
use boxes::walk::{BoxAt, Step, Walk};

// Where the payload of a box starts and ends in the file.
#[derive(Clone, Copy, Debug, PartialEq, Eq)]
pub struct Ends {
    pub from: usize,
    pub to: usize,
}

// How many tracks there are, and where the first four of them stand.
#[derive(Clone, Copy, Debug, PartialEq, Eq)]
pub struct Four {
    pub n: usize,
    pub one: Ends,
    pub two: Ends,
    pub three: Ends,
    pub four: Ends,
}

// The ends of track i, past one more track, number n, at b of a part that starts at base.
fn ends_past(e: Ends, n: usize, i: usize, b: BoxAt, base: usize) -> Ends
    requires { (b.head ≤ b.span) × (base + (b.at + b.span) < 2 ^ 63) }
    ensures { slot_with (n + 1) result ≡ if_eq n i (record { n = n + 1; from = base + (b.at + b.head); to = base + (b.at + b.span) }) (slot_with (n + 1) e) }
{
    if n == i {
        return Ends {
            from: base + (b.at + b.head),
            to: base + (b.at + b.span),
        };
    }
    e
}

// The first four tracks, past one more box: from the fifth on they are counted only.
fn more(f: Four, b: BoxAt, base: usize) -> Four
    requires { (f.n < 2 ^ 63) × (b.head ≤ b.span) × (base + (b.at + b.span) < 2 ^ 63) }
    ensures { Further f b base result }
{
    if b.code != codes::TRAK {
        return f;
    }
    let n = f.n;
    let one = f.one;
    let two = f.two;
    let three = f.three;
    let four = f.four;
    if 4 <= n {
        return Four {
            n: n + 1,
            one,
            two,
            three,
            four,
        };
    }
    Four {
        n: n + 1,
        one: ends_past(one, n, 0, b, base),
        two: ends_past(two, n, 1, b, base),
        three: ends_past(three, n, 2, b, base),
        four: ends_past(four, n, 3, b, base),
    }
}

// What was found of a code and of tracks.
fn found(i: Slot, f: Four, tiled: bool) -> Five
    ensures { result ≡ five_of i f tiled }
{
    let n = f.n;
    Five {
        a: i,
        b: Slot {
            n,
            from: f.one.from,
            to: f.one.to,
        },
        c: Slot {
            n,
            from: f.two.from,
            to: f.two.to,
        },
        d: Slot {
            n,
            from: f.three.from,
            to: f.three.to,
        },
        e: Slot {
            n,
            from: f.four.from,
            to: f.four.to,
        },
        tiled,
        shut: tiled,
    }
}

// The first box of a code in a `moov`, and its first four tracks, which have one count.
pub fn with_tracks(file: &[u8], moov: Slot, code: usize) -> Five
    requires { Lies file.now moov × (0 < code) }
    ensures { result.tiled ≡ true → Gathered file.now moov (first_with code) (wanted 0) (wanted 1) (wanted 2) (wanted 3) result }
{
    let part = gather::bytes(file, moov);
    let nowhere = Ends { from: 0, to: 0 };
    let mut i = gather::none();
    let mut f = Four {
        n: 0,
        one: nowhere,
        two: nowhere,
        three: nowhere,
        four: nowhere,
    };
    let mut w = Walk { at: 0 };
    loop {
        match w.plain_step(part) {
            Step::Found(x, next) => {
                i = gather::note(i, Want { code, nth: 0 }, x, moov.from);
                f = more(f, x, moov.from);
                w = next;
            }
            Step::End => {
                return found(i, f, true);
            }
            Step::Broken(_) => {
                return found(i, f, false);
            }
        }
    }
}
