// The walk over the boxes of a part, and what counting and finding say of it.
use crate::print;
use boxes::seek;
use boxes::walk::{BoxAt, Step, Walk};

// The code that is counted and found.
const FREE: usize = 0x66726565;

fn say_box(rt: HostRuntime, b: BoxAt) {
    let BoxAt {
        code,
        at,
        head,
        span,
        ..
    } = b;
    let _ = println!(rt; "box {code:08x} place {at} head {head} size {span}");
}

fn walk(rt: HostRuntime, part: &[u8]) {
    let mut w = Walk { at: 0 };
    loop {
        match w.step(part) {
            Step::Found(b, next) => {
                say_box(rt, b);
                w = next;
            }
            Step::End => {
                let _ = println!(rt; "end");
                return;
            }
            Step::Broken(p) => {
                let _ = println!(rt; "broken {p}");
                return;
            }
        }
    }
}

fn torn(part: &[u8]) -> usize {
    match seek::ends(part) {
        Ok(()) => part.len(),
        Err(p) => p,
    }
}

// Where the tiling ends, how many boxes are `free`, and how long the payloads of the first three are.
fn sums(rt: HostRuntime, part: &[u8]) {
    let end = torn(part);
    let free = seek::count(part, FREE);
    let all = seek::count(part, seek::ANY);
    let _ = print!(rt; "tiled to {end} free {free} of {all}");
    for nth in 0..3 {
        let _ = print!(rt; " {}", seek::payload(part, FREE, nth).len());
    }
    print::line(rt);
}

pub fn show(rt: HostRuntime, part: &[u8]) {
    walk(rt, part);
    sums(rt, part);
}
