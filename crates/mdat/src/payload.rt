// The payload of an `mdat` that holds a chunk: the last one, those near it, or by an index of the file.
ghost use Rattle.std.specs.Prelude.{◌≡◌, [], ◌∷◌, ◌+◌, ◌^◌, ◌≤◌, ◌<◌, length};
ghost use Rattle.wire.specs.Clauses.{is_le, every};
ghost use Rattle.boxes.specs.Boxes.{boxes};
ghost use Rattle.mdat.specs.Rules.{lies};
ghost use Rattle.mdat.specs.Search.{Start, Media, FirstMedia, Index, held_by, TestedAs};

use crate::index;
use boxes::walk::{BoxAt, Step, Walk};

// The bytes from a place to another; none where it ends before it starts, as with std's ranges: no Option, since a track without chunks hands on what it was handed.
#[derive(Clone, Copy)]
pub struct Payload {
    pub start: usize,
    pub end: usize,
}

// Why no payload was found: the bytes lie in none, or too far to be found without an index.
#[derive(Clone, Copy, Debug, PartialEq, Eq)]
pub enum Missed {
    Out,
    Far,
}

// No payload: nothing lies in it.
pub fn none() -> Payload
    ensures { (result.start ≡ 1) × (result.end ≡ 0) }
{
    Payload { start: 1, end: 0 }
}

// The payload of the first `mdat` of a file, from where it starts to where it ends; none where there is none, or it is empty.
pub fn first(start: usize, end: usize) -> Payload
    ensures { FirstMedia start end result }
{
    if end <= start {
        return none();
    }
    Payload { start, end }
}

// How many boxes are looked at without an index.
const FEW: usize = 16;

// Whether so many bytes from a place on lie in a payload.
fn within(p: Payload, offset: usize, bytes: usize) -> bool
    ensures { result ≡ every (is_le p.start offset ∷ is_le (offset + bytes) p.end ∷ []) }
{
    p.start <= offset && offset <= p.end && bytes <= p.end - offset
}

// Whether they lie in the payload of a box, and it is an `mdat`.
fn held(b: BoxAt, offset: usize, bytes: usize) -> Result<Payload, Missed>
    requires { (b.head ≤ b.span) × (b.at + b.span < 2 ^ 63) }
    ensures { result ≡ held_by b offset bytes }
{
    if b.code != codes::MDAT {
        return Err(Missed::Out);
    }
    let p = Payload {
        start: b.at + b.head,
        end: b.at + b.span,
    };
    if !within(p, offset, bytes) {
        return Err(Missed::Out);
    }
    Ok(p)
}

// The place past a box: an `mdat` inside it is passed over with it.
fn past(b: BoxAt) -> usize
    requires { b.at + b.span < 2 ^ 63 }
    ensures { result ≡ b.at + b.span }
{
    b.at + b.span
}

// Looks for so many bytes from a place on in the boxes from a start on, at most so many of them; each is taken for a plain one first.
fn search(
    file: &[u8],
    from: usize,
    most: usize,
    offset: usize,
    bytes: usize,
) -> Result<Payload, Missed>
    requires { Start file.now offset from }
    ensures { TestedAs file.now (lies (boxes file.now) 0 offset bytes) (most ≤ length file.now) result }
{
    let mut at = from;
    for _i in 0..most {
        match (Walk { at }).plain_step(file) {
            Step::Found(b, _) => {
                at = past(b);
                if offset <= at {
                    return held(b, offset, bytes);
                }
            }
            Step::End => {
                return Err(Missed::Out);
            }
            Step::Broken(_) => match (Walk { at }).step(file) {
                Step::Found(b, _) => {
                    at = past(b);
                    if offset <= at {
                        return held(b, offset, bytes);
                    }
                }
                Step::End => {
                    return Err(Missed::Out);
                }
                Step::Broken(_) => {
                    return Err(Missed::Out);
                }
            },
        }
    }
    Err(Missed::Far)
}

// How many boxes are looked at: with an index all, and those before the offset are few.
fn most(file: &[u8], index: &[u32]) -> usize
    ensures { result ≤ length file.now → length index.now ≡ 0 }
{
    if index.is_empty() {
        return FEW;
    }
    file.len() + 1
}

// Whether so many bytes from a place on lie inside the payload of one `mdat` of the file: first the last payload, then what is near.
pub fn find(
    file: &[u8],
    index: &[u32],
    last: Payload,
    offset: usize,
    bytes: usize,
) -> Result<Payload, Missed>
    requires { Media file.now last × Index file.now index.now }
    ensures { TestedAs file.now (lies (boxes file.now) 0 offset bytes) (length index.now ≡ 0) result }
{
    if within(last, offset, bytes) {
        return Ok(last);
    }
    let from = index::start(index, last.end, offset);
    search(file, from, most(file, index), offset, bytes)
}
