// Files of cases, each behind its length, and what is shown of each.
ghost use Rattle.std.specs.Prelude.{length};
ghost use Rattle.std.specs.Iterator.{at_most};

use crate::{parts, print};
use std::fs;
use std::io::Result;

// The cases of a file from a place on; one that is cut short is none. The calls of `test_calls` lie alike: two programs share no crate but the library's, which has no such list.
#[derive(Clone, Copy)]
struct Cases<'a>(&'a [u8]);

impl<'a> Iterator for Cases<'a> {
    type Item = &'a [u8];

    ghost remaining = { λ s. at_most (length s.0.now) };

    fn next(&mut self) -> Option<&'a [u8]> {
        let (length, rest) = self.0.split_first_chunk::<4>()?;
        let (case, rest) = rest.split_at_checked(u32::from_be_bytes(*length) as usize)?;
        self.0 = rest;
        Some(case)
    }
}

// A file of cases.
pub fn run<F: Fn(HostRuntime, &[u8])>(rt: HostRuntime, path: &str, show: F) -> Result<()>
    requires { F.IsAlwaysCallable show }
{
    let cases = fs::read(&rt, path)?;
    for case in Cases(cases.as_slice()) {
        show(rt, case);
    }
    Ok(())
}

// A file that is one part itself.
pub fn run_file(rt: HostRuntime, path: &str) -> Result<()> {
    let part = fs::read(&rt, path)?;
    print::text(rt, path.as_bytes());
    print::line(rt);
    parts::show(rt, part.as_slice());
    Ok(())
}
