// One walk over the plain boxes of a container, for the first box of one code, two, three or five: the fewer slots, the less time.
// Where a box of another form stands it says nothing. The slots past the codes are the last one again.
ghost use Rattle.std.specs.Prelude.{◌≡◌, true, ◌<◌};
ghost use Rattle.layout.specs.Slots.{first_with, Lies, Gathered};

use crate::gather;
use crate::gather::{Five, Slot, Want};
use boxes::walk::{Step, Walk};

pub fn one(file: &[u8], whole: Slot, a: usize) -> Five
    requires { Lies file.now whole × (0 < a) }
    ensures { result.tiled ≡ true → Gathered file.now whole (first_with a) (first_with a) (first_with a) (first_with a) (first_with a) result }
{
    let part = gather::bytes(file, whole);
    let none = gather::none();
    let mut i = none;
    let mut w = Walk { at: 0 };
    loop {
        match w.plain_step(part) {
            Step::Found(x, next) => {
                i = gather::note(i, Want { code: a, nth: 0 }, x, whole.from);
                w = next;
            }
            Step::End => {
                return Five {
                    a: i,
                    b: i,
                    c: i,
                    d: i,
                    e: i,
                    tiled: true,
                    shut: true,
                };
            }
            Step::Broken(_) => {
                return Five {
                    a: i,
                    b: i,
                    c: i,
                    d: i,
                    e: i,
                    tiled: false,
                    shut: false,
                };
            }
        }
    }
}

pub fn two(file: &[u8], whole: Slot, a: usize, b: usize) -> Five
    requires { Lies file.now whole × (0 < a) × (0 < b) }
    ensures { result.tiled ≡ true → Gathered file.now whole (first_with a) (first_with b) (first_with b) (first_with b) (first_with b) result }
{
    let part = gather::bytes(file, whole);
    let none = gather::none();
    let mut i = none;
    let mut j = none;
    let mut w = Walk { at: 0 };
    loop {
        match w.plain_step(part) {
            Step::Found(x, next) => {
                i = gather::note(i, Want { code: a, nth: 0 }, x, whole.from);
                j = gather::note(j, Want { code: b, nth: 0 }, x, whole.from);
                w = next;
            }
            Step::End => {
                return Five {
                    a: i,
                    b: j,
                    c: j,
                    d: j,
                    e: j,
                    tiled: true,
                    shut: true,
                };
            }
            Step::Broken(_) => {
                return Five {
                    a: i,
                    b: j,
                    c: j,
                    d: j,
                    e: j,
                    tiled: false,
                    shut: false,
                };
            }
        }
    }
}

pub fn three(file: &[u8], whole: Slot, a: usize, b: usize, c: usize) -> Five
    requires { Lies file.now whole × (0 < a) × (0 < b) × (0 < c) }
    ensures { result.tiled ≡ true → Gathered file.now whole (first_with a) (first_with b) (first_with c) (first_with c) (first_with c) result }
{
    let part = gather::bytes(file, whole);
    let none = gather::none();
    let mut i = none;
    let mut j = none;
    let mut k = none;
    let mut w = Walk { at: 0 };
    loop {
        match w.plain_step(part) {
            Step::Found(x, next) => {
                i = gather::note(i, Want { code: a, nth: 0 }, x, whole.from);
                j = gather::note(j, Want { code: b, nth: 0 }, x, whole.from);
                k = gather::note(k, Want { code: c, nth: 0 }, x, whole.from);
                w = next;
            }
            Step::End => {
                return Five {
                    a: i,
                    b: j,
                    c: k,
                    d: k,
                    e: k,
                    tiled: true,
                    shut: true,
                };
            }
            Step::Broken(_) => {
                return Five {
                    a: i,
                    b: j,
                    c: k,
                    d: k,
                    e: k,
                    tiled: false,
                    shut: false,
                };
            }
        }
    }
}

pub fn five(file: &[u8], whole: Slot, a: usize, b: usize, c: usize, d: usize, e: usize) -> Five
    requires { Lies file.now whole × (0 < a) × (0 < b) × (0 < c) × (0 < d) × (0 < e) }
    ensures { result.tiled ≡ true → Gathered file.now whole (first_with a) (first_with b) (first_with c) (first_with d) (first_with e) result }
{
    let part = gather::bytes(file, whole);
    let none = gather::none();
    let mut i = none;
    let mut j = none;
    let mut k = none;
    let mut l = none;
    let mut m = none;
    let mut w = Walk { at: 0 };
    loop {
        match w.plain_step(part) {
            Step::Found(x, next) => {
                i = gather::note(i, Want { code: a, nth: 0 }, x, whole.from);
                j = gather::note(j, Want { code: b, nth: 0 }, x, whole.from);
                k = gather::note(k, Want { code: c, nth: 0 }, x, whole.from);
                l = gather::note(l, Want { code: d, nth: 0 }, x, whole.from);
                m = gather::note(m, Want { code: e, nth: 0 }, x, whole.from);
                w = next;
            }
            Step::End => {
                return Five {
                    a: i,
                    b: j,
                    c: k,
                    d: l,
                    e: m,
                    tiled: true,
                    shut: true,
                };
            }
            Step::Broken(_) => {
                return Five {
                    a: i,
                    b: j,
                    c: k,
                    d: l,
                    e: m,
                    tiled: false,
                    shut: false,
                };
            }
        }
    }
}
