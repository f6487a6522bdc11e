// What a walk over the boxes of a container fills, and one over boxes of any form.
#![tactic(auto, unfolding(crate::specs::Slots::note_of, wire::specs::Clauses::every, wire::specs::Clauses::is_eq, wire::specs::Tests::if_eq))]

ghost use Rattle.std.specs.Prelude.{◌≡◌, ◌+◌, ◌^◌, ◌≤◌, ◌<◌, length};
ghost use Rattle.layout.specs.Slots.{slot_in, nowhere, first_with, note_of, shut_past, alone_of, Lies, Gathered};

use boxes::walk;
use boxes::walk::{BoxAt, Step, Walk};

// How many boxes have a code, and where in the file the payload of one of them stands.
#[derive(Clone, Copy, Debug, PartialEq, Eq)]
pub struct Slot {
    pub n: usize,
    pub from: usize,
    pub to: usize,
}

// A box by its code and its number, from 0.
#[derive(Clone, Copy, Debug, PartialEq, Eq)]
pub struct Want {
    pub code: usize,
    pub nth: usize,
}

// What there is of five, whether boxes tile the container, and whether they do and none of them is open.
#[derive(Clone, Copy, Debug, PartialEq, Eq)]
pub struct Five {
    pub a: Slot,
    pub b: Slot,
    pub c: Slot,
    pub d: Slot,
    pub e: Slot,
    pub tiled: bool,
    pub shut: bool,
}

// Nothing, which stands nowhere.
pub fn none() -> Slot
    ensures { result ≡ nowhere }
{
    Slot {
        n: 0,
        from: 0,
        to: 0,
    }
}

// The first box of a code.
pub fn first(code: usize) -> Want
    ensures { result ≡ first_with code }
{
    Want { code, nth: 0 }
}

// The bytes of a slot.
pub fn bytes(file: &[u8], s: Slot) -> &[u8]
    requires { Lies file.now s }
    ensures { result.now ≡ slot_in file.now s }
{
    let from = s.from;
    let to = s.to;
    &file[from..to]
}

// The slot of a wanted box, past one more box of a part that starts at base.
pub fn note(s: Slot, want: Want, b: BoxAt, base: usize) -> Slot
    requires { (s.n < 2 ^ 63) × (b.head ≤ b.span) × (base + (b.at + b.span) < 2 ^ 63) }
    ensures { result ≡ note_of s want b base }
{
    if b.code != want.code {
        return s;
    }
    if s.n != want.nth {
        return Slot {
            n: s.n + 1,
            from: s.from,
            to: s.to,
        };
    }
    Slot {
        n: s.n + 1,
        from: base + (b.at + b.head),
        to: base + (b.at + b.span),
    }
}

// Whether no box is open, with one box more.
fn shut_past(shut: bool, b: BoxAt) -> bool
    ensures { result ≡ shut_past shut b }
{
    shut && !walk::is_open(b.form)
}

// What a container, which is a slot of the file, has of five wanted boxes.
pub fn wanted(file: &[u8], whole: Slot, a: Want, b: Want, c: Want, d: Want, e: Want) -> Five
    requires { Lies file.now whole × (0 < a.code) × (0 < b.code) × (0 < c.code) × (0 < d.code) × (0 < e.code) }
    ensures { Gathered file.now whole a b c d e result }
{
    let part = bytes(file, whole);
    let none = none();
    let mut i = none;
    let mut j = none;
    let mut k = none;
    let mut l = none;
    let mut m = none;
    let mut shut = true;
    let mut w = Walk { at: 0 };
    loop {
        match w.step(part) {
            Step::Found(x, next) => {
                i = note(i, a, x, whole.from);
                j = note(j, b, x, whole.from);
                k = note(k, c, x, whole.from);
                l = note(l, d, x, whole.from);
                m = note(m, e, x, whole.from);
                shut = shut_past(shut, x);
                w = next;
            }
            Step::End => {
                return Five {
                    a: i,
                    b: j,
                    c: k,
                    d: l,
                    e: m,
                    tiled: true,
                    shut,
                };
            }
            Step::Broken(_) => {
                return Five {
                    a: i,
                    b: j,
                    c: k,
                    d: l,
                    e: m,
                    tiled: false,
                    shut: false,
                };
            }
        }
    }
}

// Whether boxes tile the container and none is open, and each of five codes has one box.
pub fn alone(g: Five) -> bool
    ensures { result ≡ alone_of g }
{
    g.tiled && g.shut && g.a.n == 1 && g.b.n == 1 && g.c.n == 1 && g.d.n == 1 && g.e.n == 1
}
