// Rules 2 and 3 and refusal 23, which look at containers alone and name each by its own place: the first that is broken is the answer.
ghost use Rattle.std.specs.Prelude.{◌≡◌, true, ◌+◌, ◌-◌, ◌^◌, ◌≤◌, ◌<◌, length};
ghost use Rattle.boxes.specs.Box.{head_of};
ghost use Rattle.boxes.specs.Containers.{FILE, DEPTH, LONGEST};
ghost use Rattle.boxes.specs.Walk.{box_at};
ghost use Rattle.rule.specs.Judge.{judge_in};
ghost use Rattle.judge.specs.Asked.{shaped_by, shape_by, formed_by, first_by, form_first, as_number};

use boxes::walk::{BoxAt, Form, Step, Walk};
use boxes::{containers, walk};
use rule::Verdict;

// Whether a container of kind k has the boxes that rule n wants.
#[tactic(auto, unfolding(crate::specs::Asked::shaped_by, wire::specs::Tests::if_eq))]
fn shaped(n: usize, k: usize, part: &[u8]) -> bool
    ensures { result ≡ shaped_by n k part.now }
{
    match n {
        3 => rule_shape::shape_of(k, part),
        23 => rule_shape::editable_of(k, part),
        _ => true,
    }
}

// A yes says that a box is empty, of which rule 2 asks nothing but its form.
fn idle(n: usize, b: BoxAt) -> bool
    ensures { result ≡ true → (n ≡ 2) × (b.span ≡ b.head) }
{
    n == 2 && b.span == b.head
}

// Whether a box may have its form in a container of kind k, of which rule 2 alone asks.
#[tactic(auto, unfolding(crate::specs::Asked::formed_by, wire::specs::Tests::if_eq))]
fn formed(n: usize, k: usize, form: Form) -> bool
    ensures { result ≡ formed_by n k form }
{
    n != 2 || rule_shape::may_have(k, form)
}

// A box of a container of kind k: an opaque one is asked for its form alone. The verdict is a number, since that is handed back faster.
#[cycle(first_box_first_in)]
fn first_box(n: usize, part: &[u8], b: BoxAt, base: usize, k: usize, depth: usize) -> usize
    requires { (b.head ≡ head_of b.form) × (b.head ≤ b.span) × (b.at + b.span ≤ length part.now) × (base + length part.now < 2 ^ 60) × (0 < depth) }
    ensures { result ≡ as_number (form_first n (depth - 1) k (box_at part.now b) (base + b.at)) }
{
    let place = base + b.at;
    let form = b.form;
    if !formed(n, k, form) {
        return place + 1;
    }
    if idle(n, b) {
        return 0;
    }
    let start = place + b.head;
    let kind = containers::kind_in(k, b.code);
    if kind == 0 {
        return 0;
    }
    first_in(n, walk::body(part, b), place, start, kind, depth - 1)
}

// All that a container of kind k holds, as deep as depth containers.
#[cycle(first_box_first_in)]
fn first_in(n: usize, part: &[u8], home: usize, base: usize, k: usize, depth: usize) -> usize
    requires { (home ≤ base) × (base + length part.now < 2 ^ 60) }
    ensures { result ≡ as_number (judge_in (first_by n) depth k part.now home base) }
{
    if depth == 0 {
        return 0;
    }
    if !shaped(n, k, part) {
        return home + 1;
    }
    let mut w = Walk { at: 0 };
    loop {
        match w.step(part) {
            Step::Found(b, next) => {
                let found = first_box(n, part, b, base, k, depth);
                if found != 0 {
                    return found;
                }
                w = next;
            }
            Step::End => {
                return 0;
            }
            Step::Broken(p) => {
                if n == 2 {
                    return base + p + 1;
                }
                return 0;
            }
        }
    }
}

// What rule n says of a file.
pub fn first(n: usize, file: &[u8]) -> Verdict
    requires { length file.now ≤ LONGEST }
    ensures { result ≡ judge_in (first_by n) DEPTH FILE file.now 0 0 }
{
    let found = first_in(n, file, 0, 0, containers::FILE, containers::DEPTH);
    if found == 0 {
        return Ok(());
    }
    Err(found - 1)
}
