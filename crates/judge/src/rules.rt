// Rules 4 to 10: one traversal for each, in file order.
ghost use Rattle.std.specs.Prelude.{◌≡◌, ◌+◌, ◌-◌, ◌^◌, ◌≤◌, ◌<◌, length};
ghost use Rattle.boxes.specs.Box.{head_of};
ghost use Rattle.boxes.specs.Boxes.{boxes};
ghost use Rattle.boxes.specs.Walk.{box_at};
ghost use Rattle.rule.specs.Verdict.{unless};
ghost use Rattle.rule.specs.Judge.{judge_box, judge_in};
ghost use Rattle.judge.specs.Asked.{leaf_by, node_by, rule_by};

use boxes::walk::{BoxAt, Step, Walk};
use boxes::{containers, walk};
use rule::Verdict;

// Broken at a place unless a test holds.
#[tactic(auto, unfolding(rule::specs::Verdict::unless))]
fn unless(holds: bool, place: usize) -> Verdict
    ensures { result ≡ unless holds place }
{
    if !holds {
        return Err(place);
    }
    Ok(())
}

// What rule n says of an opaque box of code c in a container of kind k.
#[tactic(auto, unfolding(crate::specs::Asked::leaf_by, wire::specs::Tests::if_eq))]
fn leaf_by(n: usize, k: usize, c: usize, body: &[u8], place: usize, start: usize) -> Verdict
    requires { start + length body.now < 2 ^ 60 }
    ensures { result ≡ leaf_by n k c body.now place start }
{
    match n {
        4 => unless(rule_headers::forms::form(k, c, body), place),
        5 => unless(rule_lists::form::form_in(k, c, body), place),
        6 => unless(rule_tracks::table_in(k, c, body), place),
        9 => rule_lists::url::urls_in(k, c, body, start),
        _ => Ok(()),
    }
}

// What rule n says of a container of kind k.
#[tactic(auto, unfolding(crate::specs::Asked::node_by, wire::specs::Tests::if_eq))]
fn node_by(n: usize, file: &[u8], k: usize, part: &[u8], home: usize, base: usize) -> Verdict
    requires { base + length part.now < 2 ^ 60 }
    ensures { result ≡ node_by n (boxes file.now) k part.now home base }
{
    match n {
        4 => rule_headers::identities::tracks_in(k, part, base),
        5 => rule_lists::total::most_in(k, part, base),
        7 => unless(rule_tracks::seven_in(k, part), home),
        8 => rule_tracks::eight_at(file, k, part, base),
        10 => rule_entries::ten_at(file, k, part, base),
        _ => Ok(()),
    }
}

// A box of a container of kind k.
#[cycle(judge_box_judge_in)]
fn judge_box(
    n: usize,
    file: &[u8],
    part: &[u8],
    b: BoxAt,
    base: usize,
    k: usize,
    depth: usize,
) -> Verdict
    requires { (b.head ≡ head_of b.form) × (b.head ≤ b.span) × (b.at + b.span ≤ length part.now) × (base + length part.now < 2 ^ 60) × (0 < depth) }
    ensures { result ≡ judge_box (rule_by n (boxes file.now)) (judge_in (rule_by n (boxes file.now)) (depth - 1)) k (box_at part.now b) (base + b.at) }
{
    let place = base + b.at;
    let start = place + b.head;
    let kind = containers::kind_in(k, b.code);
    if kind == 0 {
        return leaf_by(n, k, b.code, walk::body(part, b), place, start);
    }
    judge_in(n, file, walk::body(part, b), place, start, kind, depth - 1)
}

// All that a container of kind k holds, as deep as depth containers.
#[cycle(judge_box_judge_in)]
pub fn judge_in(
    n: usize,
    file: &[u8],
    part: &[u8],
    home: usize,
    base: usize,
    k: usize,
    depth: usize,
) -> Verdict
    requires { base + length part.now < 2 ^ 60 }
    ensures { result ≡ judge_in (rule_by n (boxes file.now)) depth k part.now home base }
{
    if depth == 0 {
        return Ok(());
    }
    let mut found = node_by(n, file, k, part, home, base);
    let mut w = Walk { at: 0 };
    loop {
        match w.step(part) {
            Step::Found(b, next) => match judge_box(n, file, part, b, base, k, depth) {
                Ok(()) => {
                    w = next;
                }
                Err(p) => {
                    found = rule::sooner(found, Err(p));
                    w = next;
                }
            },
            Step::End => {
                return found;
            }
            Step::Broken(_) => {
                return found;
            }
        }
    }
}
