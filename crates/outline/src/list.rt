// The lines of a list of boxes, and those of a box, which may hold a list: each function calls the other.
ghost use Rattle.std.specs.Prelude.{◌≡◌, ◌+◌, ◌-◌, ◌*◌, ◌^◌, ◌≤◌, ◌<◌, length};
ghost use Rattle.wire.specs.Writing.{Put};
ghost use Rattle.boxes.specs.Walk.{box_at};
ghost use Rattle.boxes.specs.Way.{BoxInside};
ghost use Rattle.outline.specs.Lines.{printed};
ghost use Rattle.outline.specs.Outline.{opens_as, wherever, list_lines, box_lines, rounds_at};

use crate::line;
use boxes::walk::{BoxAt, Step, Walk};
use boxes::{containers, walk};

// The depth at which no container is opened.
const DEEPEST: usize = 16;

// The kind of container that a box of a code opens wherever it stands, and 0 where it opens none: a number, since the definition has one there.
fn opens_as(c: usize) -> usize
    ensures { result ≡ opens_as c }
{
    if containers::parent(c) != 0 {
        return c;
    }
    if c == codes::UDTA {
        return c;
    }
    0
}

// A box of a part that starts at a place, in a container of kind k.
#[cycle(put_box_put_list)]
fn put_box(
    out: &mut [u8],
    at: usize,
    part: &[u8],
    b: BoxAt,
    k: usize,
    place: usize,
    depth: usize,
) -> usize
    requires { BoxInside part.now b × (place + length part.now < 2 ^ 32) × (depth ≤ 16) × (at + 40 * b.span < 2 ^ 60) }
    ensures { Put (printed (box_lines wherever (rounds_at depth - 1) k depth (place + b.at) (box_at part.now b)))
        out.old at result out.new × (result ≤ at + 40 * b.span) }
{
    let start = place + b.at;
    let j = line::put_box(out, at, b.code, start, b.span, depth);
    if depth == DEEPEST {
        return j;
    }
    let kind = opens_as(b.code);
    if kind == 0 {
        return j;
    }
    put_list(out, j, walk::body(part, b), kind, start + b.head, depth + 1)
}

// The boxes of a container of kind k, up to one that doesn't fit.
#[cycle(put_box_put_list)]
pub fn put_list(
    out: &mut [u8],
    from: usize,
    part: &[u8],
    k: usize,
    place: usize,
    depth: usize,
) -> usize
    requires { (place + length part.now < 2 ^ 32) × (depth ≤ 16) × (from + 40 * length part.now < 2 ^ 60) }
    ensures { Put (printed (list_lines wherever (rounds_at depth) k depth place part.now))
        out.old from result out.new × (result ≤ from + 40 * length part.now) }
{
    let mut at = from;
    let mut w = Walk { at: 0 };
    loop {
        match w.step(part) {
            Step::Found(b, next) => {
                let form = b.form;
                if !rule_shape::may_have(k, form) {
                    return line::put_broken(out, at, place + b.at);
                }
                at = put_box(out, at, part, b, k, place, depth);
                w = next;
            }
            Step::End => {
                return at;
            }
            Step::Broken(p) => {
                return line::put_broken(out, at, place + p);
            }
        }
    }
}
