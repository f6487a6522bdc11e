// Writing a part with the body of one box rewritten, by the way to it: body first, then its header, so that sizes follow.
ghost use Rattle.std.specs.Prelude.{◌≡◌, ◌∷◌, ◌+◌, ◌-◌, ◌^◌, ◌≤◌, ◌<◌, length, drop};
ghost use Rattle.wire.specs.Writing.{put, Put};
ghost use Rattle.boxes.specs.Box.{head_of, field_of, more_of};
ghost use Rattle.boxes.specs.Walk.{payload};
ghost use Rattle.boxes.specs.Way.{Under, BoxInside, turns, box_by, around, tail_by, over_nth, edit_way};

use crate::walk::{BoxAt, Form};
use crate::{seek, walk};
use wire::{number, pen};

// One turn: past the first `skip` bytes, into the n-th box of a code.
#[derive(Clone, Copy)]
pub struct Turn {
    pub skip: usize,
    pub code: usize,
    pub nth: usize,
}

// The turn that three numbers of a way say, from the i-th on.
fn turn_at(way: &[usize], i: usize) -> Turn
    requires { i + 3 ≤ length way.now }
    ensures { turns (drop i way.now) ≡ result ∷ turns (drop (i + 3) way.now) }
{
    Turn {
        skip: way[i],
        code: way[i + 1],
        nth: way[i + 2],
    }
}

// What the size field of a header of a form says of a box of n bytes.
fn field(form: Form, n: usize) -> usize
    ensures { result ≡ field_of form n }
{
    match form {
        Form::Plain => n,
        Form::Wide => 1,
        Form::Open => 0,
    }
}

// Puts the rest of a wide header: the size of a box of n bytes.
fn put_wide(out: &mut [u8], at: usize, form: Form, n: usize)
    requires { at + head_of form ≤ length out.old }
    ensures { out.new ≡ put out.old (at + 8) (more_of form n) }
{
    match form {
        Form::Plain => {}
        Form::Wide => {
            number::put64(out, at + 8, n);
        }
        Form::Open => {}
    }
}

// Puts the header of a box that ends at place r, where the box fits.
pub fn put_header(out: &mut [u8], at: usize, r: usize, form: Form, code: usize)
    requires { (at + head_of form ≤ r) × (r < 2 ^ 63) }
    ensures { Under form (r - at) code out.old at r out.new }
{
    if r <= out.len() {
        number::put32(out, at, field(form, r - at));
        number::put32(out, at + 4, code);
        put_wide(out, at, form, r - at);
    }
}

// The end of a way: the body's first `keep` bytes, and then `new`.
fn put_tail(out: &mut [u8], at: usize, src: &[u8], keep: usize, new: &[u8]) -> usize
    requires { at + length src.now + length new.now < 2 ^ 62 }
    ensures { Put (tail_by keep new.now src.now) out.old at result out.new }
{
    let n = keep.min(src.len());
    let j = pen::put_part(out, at, &src[..n]);
    pen::put_part(out, j, new)
}

// A box whose body is written so.
#[cycle(put_around_put_box_put_turn_put_way)]
fn put_box(
    out: &mut [u8],
    at: usize,
    body: &[u8],
    b: BoxAt,
    way: &[usize],
    i: usize,
    keep: usize,
    new: &[u8],
) -> usize
    requires { (i ≤ length way.now) × (b.head ≡ head_of b.form) × (at + b.head + length body.now + length new.now < 2 ^ 62) }
    ensures { Put (box_by b.form b.code (edit_way (turns (drop i way.now)) (tail_by keep new.now) body.now)) out.old at result out.new }
{
    let r = put_way(out, at + b.head, body, way, i, keep, new);
    let form = b.form;
    put_header(out, at, r, form, b.code);
    r
}

// A part with the box b written so, and the rest as it is.
#[cycle(put_around_put_box_put_turn_put_way)]
fn put_around(
    out: &mut [u8],
    at: usize,
    src: &[u8],
    b: BoxAt,
    way: &[usize],
    i: usize,
    keep: usize,
    new: &[u8],
) -> usize
    requires { (i ≤ length way.now) × (b.head ≡ head_of b.form) × (b.head ≤ b.span) × (b.at + b.span ≤ length src.now) × (at + length src.now + length new.now < 2 ^ 62) }
    ensures { Put (around src.now b (edit_way (turns (drop i way.now)) (tail_by keep new.now) (payload src.now b))) out.old at result out.new }
{
    let before = b.at;
    let past = b.at + b.span;
    let j = pen::put_part(out, at, &src[..before]);
    let k = put_box(out, j, walk::body(src, b), b, way, i, keep, new);
    pen::put_part(out, k, &src[past..])
}

// One turn on.
#[cycle(put_around_put_box_put_turn_put_way)]
fn put_turn(
    out: &mut [u8],
    at: usize,
    src: &[u8],
    t: Turn,
    way: &[usize],
    i: usize,
    keep: usize,
    new: &[u8],
) -> usize
    requires { (i ≤ length way.now) × (at + length src.now + length new.now < 2 ^ 62) }
    ensures { Put (over_nth t.code t.nth (edit_way (turns (drop i way.now)) (tail_by keep new.now)) src.now) out.old at result out.new }
{
    match seek::nth(src, t.code, t.nth) {
        Some(b) => put_around(out, at, src, b, way, i, keep, new),
        None => pen::put_part(out, at, src),
    }
}

// A part by a way of three numbers to a turn, from the i-th number on.
#[cycle(put_around_put_box_put_turn_put_way)]
pub fn put_way(
    out: &mut [u8],
    at: usize,
    src: &[u8],
    way: &[usize],
    i: usize,
    keep: usize,
    new: &[u8],
) -> usize
    requires { (i ≤ length way.now) × (at + length src.now + length new.now < 2 ^ 62) }
    ensures { Put (edit_way (turns (drop i way.now)) (tail_by keep new.now) src.now) out.old at result out.new }
{
    if way.len() - i < 3 {
        return put_tail(out, at, src, keep, new);
    }
    let t = turn_at(way, i);
    let n = t.skip.min(src.len());
    let j = pen::put_part(out, at, &src[..n]);
    put_turn(out, j, &src[n..], t, way, i + 3, keep, new)
}

// A part with, in its box b, the box k written so, and the rest as it is.
pub fn put_within(
    out: &mut [u8],
    src: &[u8],
    b: BoxAt,
    k: BoxAt,
    way: &[usize],
    keep: usize,
    new: &[u8],
) -> usize
    requires { (BoxInside src.now b) × (BoxInside (payload src.now b) k) × (length src.now + length new.now < 2 ^ 61) }
    ensures { Put (around src.now b (around (payload src.now b) k (edit_way (turns way.now) (tail_by keep new.now) (payload (payload src.now b) k)))) out.old 0 result out.new }
{
    let before = b.at;
    let past = b.at + b.span;
    let j = pen::put_part(out, 0, &src[..before]);
    let r = put_around(out, j + b.head, walk::body(src, b), k, way, 0, keep, new);
    let form = b.form;
    put_header(out, j, r, form, b.code);
    pen::put_part(out, r, &src[past..])
}
