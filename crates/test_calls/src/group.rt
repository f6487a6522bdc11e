// A file and the calls that it is lent to: how long the file is, its start behind the start's length, and each call behind its own.
ghost use Rattle.std.specs.Prelude.{length};
ghost use Rattle.std.specs.Iterator.{at_most};

use crate::call::Call;
use crate::room;
use std::io::Result;
use wire::{lend, number};

// The calls from a place on; one that is cut short is none.
#[derive(Clone, Copy)]
struct Calls<'a>(&'a [u8]);

impl<'a> Iterator for Calls<'a> {
    type Item = &'a [u8];

    ghost remaining = { λ s. at_most (length s.0.now) };

    fn next(&mut self) -> Option<&'a [u8]> {
        let (length, rest) = self.0.split_first_chunk::<4>()?;
        let (call, rest) = rest.split_at_checked(u32::from_be_bytes(*length) as usize)?;
        self.0 = rest;
        Some(call)
    }
}

// No file is longer.
const LONGEST: usize = 1050000;

// The file is zeros behind its start, if it is told to be of another length.
pub fn make(rt: HostRuntime, group: &[u8]) -> Result<()> {
    let whole = number::word32(group, 0);
    let n = number::word32(group, 4);
    let rest = lend::rest(group, 8);
    let mut file = Vec::from_slice(rt.alloc(), lend::front(rest, n))?;
    if whole != n {
        file.resize(whole.min(LONGEST), 0)?;
    }
    for call in Calls(lend::rest(rest, n)) {
        room::make(rt, file.as_slice(), Call::read(call))?;
    }
    Ok(())
}
