// Rule 5 of the file: how many sample entries it has.
ghost use Rattle.std.specs.Prelude.{◌≡◌, ◌+◌, ◌^◌, ◌≤◌, ◌<◌, length};
ghost use Rattle.wire.specs.Tests.{if_eq};
ghost use Rattle.codes.specs.Codes.{TRAK};
ghost use Rattle.boxes.specs.Boxes.{boxes};
ghost use Rattle.boxes.specs.Walk.{payload};
ghost use Rattle.movie.specs.Ways.{to_stsd, follow, place_along};
ghost use Rattle.movie.specs.Movie.{stored_count};
ghost use Rattle.movie.specs.Stsds.{stsds_from};
ghost use Rattle.rule_lists.specs.Five.{MOST, passing, most_in};
ghost use Rattle.rule.specs.Verdict.{Bad};

use boxes::walk;
use boxes::walk::{BoxAt, Step, Walk};
use rule::Verdict;
use wire::number;

// The most sample entries that a file may have.
pub const MOST: usize = 32;

// How many sample entries the `stsd` of a box of `moov` counts: none where the box is no `trak`.
fn counted(code: usize, body: &[u8]) -> usize
    ensures { (result ≡ if_eq code TRAK (stored_count (follow to_stsd body.now)) 0) × (result < 2 ^ 32) }
{
    if code != codes::TRAK {
        return 0;
    }
    number::word32(movie::table(body, codes::STSD), 4)
}

// The `stsd` of a track that was found, as broken.
fn stsd_at(part: &[u8], b: BoxAt, base: usize) -> Verdict
    requires { (b.head ≤ b.span) × (b.at + b.span ≤ length part.now) × (base + length part.now < 2 ^ 60) }
    ensures { result ≡ Bad (base + b.at + b.head + place_along to_stsd (payload part.now b)) }
{
    let start = base + b.at + b.head;
    Err(start + movie::stsd_place(walk::body(part, b)))
}

// Rule 5 of a `moov` whose payload starts at place base: broken at the `stsd` that passes the most.
fn over_most(part: &[u8], base: usize) -> Verdict
    requires { base + length part.now < 2 ^ 60 }
    ensures { result ≡ passing MOST 0 (stsds_from 0 (boxes part.now) base) }
{
    let mut w = Walk { at: 0 };
    let mut n = 0;
    loop {
        match w.step(part) {
            Step::Found(b, next) => {
                let m = n + counted(b.code, walk::body(part, b));
                if MOST < m {
                    return stsd_at(part, b, base);
                }
                n = m;
                w = next;
            }
            Step::End => {
                return Ok(());
            }
            Step::Broken(_) => {
                return Ok(());
            }
        }
    }
}

// The same of a container of kind k: only `moov` is asked.
pub fn most_in(k: usize, part: &[u8], base: usize) -> Verdict
    requires { base + length part.now < 2 ^ 60 }
    ensures { result ≡ most_in k part.now base }
{
    if k != codes::MOOV {
        return Ok(());
    }
    over_most(part, base)
}
