// Rewriting 32-bit numbers where they stand: those of up to three kinds of opaque boxes, wherever in `moov` they are.
ghost use Rattle.std.specs.Prelude.{◌≡◌, ◌+◌, ◌-◌, ◌^◌, ◌≤◌, ◌<◌, length};
ghost use Rattle.boxes.specs.Walk.{payload};
ghost use Rattle.codes.specs.Codes.{MOOV};
ghost use Rattle.boxes.specs.Rewrite.{edit_box, edit_in, in_body};
ghost use Rattle.boxes.specs.Words.{each_word, reword as reword_by, reword_leaf, target_in, reword_each, moved as moved_by, Small};

use crate::containers;
use crate::walk::{BoxAt, Step, Walk};
use wire::number;

// The numbers in `span` bytes from place `from` on, in the boxes of a code in a kind of container.
#[derive(Clone, Copy)]
pub struct Target {
    pub kind: usize,
    pub code: usize,
    pub from: usize,
    pub span: usize,
}

// Three of them, each for a kind of container, so that one walk does for all; one alone is said three times.
#[derive(Clone, Copy)]
pub struct Targets {
    pub one: Target,
    pub two: Target,
    pub three: Target,
}

// Below the limit a number goes up by `low`, from it on up by `high` and down by `less`.
#[derive(Clone, Copy)]
pub struct By {
    pub limit: usize,
    pub low: usize,
    pub high: usize,
    pub less: usize,
}

fn moved(by: By, o: usize) -> usize
    requires { (Small by) × (o < 2 ^ 32) }
    ensures { result ≡ moved_by by o }
{
    if o < by.limit {
        return o + by.low;
    }
    let up = o + by.high;
    if up < by.less {
        return 0;
    }
    up - by.less
}

// Every number of a table.
fn reword_all(table: &mut [u8], by: By)
    requires { Small by }
    ensures { table.new ≡ each_word (moved_by by) table.old }
{
    for i in 0..table.len() / 4 {
        let at = 4 * i;
        let w = moved(by, number::word32_in(table, at));
        number::put32(table, at, w);
    }
}

// The numbers of a stretch of a body.
fn reword(body: &mut [u8], from: usize, span: usize, by: By)
    requires { Small by }
    ensures { body.new ≡ reword_by (moved_by by) from span body.old }
{
    if from < body.len() {
        let to = from + span.min(body.len() - from);
        reword_all(&mut body[from..to], by);
    }
}

// Of three targets the one for a kind of container.
fn target_in(ts: Targets, k: usize) -> Target
    ensures { result ≡ target_in ts k }
{
    if k == ts.one.kind {
        return ts.one;
    }
    if k == ts.two.kind {
        return ts.two;
    }
    ts.three
}

// An opaque box of a container of kind k.
fn reword_leaf(body: &mut [u8], k: usize, code: usize, t: Target, by: By)
    requires { Small by }
    ensures { body.new ≡ reword_leaf t (moved_by by) k code body.old }
{
    if k == t.kind {
        if code == t.code {
            reword(body, t.from, t.span, by);
        }
    }
}

// A box of a container of kind k, whose target is t.
#[cycle(reword_box_reword_in)]
fn reword_box(part: &mut [u8], b: BoxAt, k: usize, depth: usize, t: Target, ts: Targets, by: By)
    requires { (b.head ≤ b.span) × (b.at + b.span ≤ length part.old) × (0 < depth) × Small by × (t ≡ target_in ts k) }
    ensures { part.new ≡ in_body part.old b (edit_box (reword_each ts (moved_by by)) (edit_in (reword_each ts (moved_by by)) (depth - 1)) k b.code (payload part.old b)) }
{
    let from = b.at + b.head;
    let to = b.at + b.span;
    let kind = containers::kind_in(k, b.code);
    if kind == 0 {
        reword_leaf(&mut part[from..to], k, b.code, t, by);
        return;
    }
    reword_in(&mut part[from..to], kind, depth - 1, ts, by);
}

// All that a container of kind k holds.
#[cycle(reword_box_reword_in)]
fn reword_in(part: &mut [u8], k: usize, depth: usize, ts: Targets, by: By)
    requires { Small by }
    ensures { part.new ≡ edit_in (reword_each ts (moved_by by)) depth k part.old }
{
    if depth == 0 {
        return;
    }
    let t = target_in(ts, k);
    let mut w = Walk { at: 0 };
    loop {
        match w.step(part) {
            Step::Found(b, next) => {
                reword_box(part, b, k, depth, t, ts, by);
                w = next;
            }
            Step::End => {
                return;
            }
            Step::Broken(_) => {
                return;
            }
        }
    }
}

// All that the `moov` b of a part holds.
pub fn reword_moov(part: &mut [u8], b: BoxAt, ts: Targets, by: By)
    requires { (b.head ≤ b.span) × (b.at + b.span ≤ length part.old) × Small by }
    ensures { part.new ≡ in_body part.old b (edit_in (reword_each ts (moved_by by)) 5 MOOV (payload part.old b)) }
{
    let from = b.at + b.head;
    let to = b.at + b.span;
    reword_in(
        &mut part[from..to],
        codes::MOOV,
        containers::DEPTH - 1,
        ts,
        by,
    );
}
