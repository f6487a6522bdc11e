// A case with a name: the name's length in one byte, the name, and what the case is about.
use wire::{lend, number};

#[derive(Clone, Copy)]
pub struct Named<'a> {
    pub name: &'a [u8],
    pub body: &'a [u8],
}

pub fn read(case: &[u8]) -> Named<'_> {
    let n = number::byte(case, 0);
    let rest = lend::rest(case, 1);
    Named {
        name: lend::front(rest, n),
        body: lend::rest(rest, n),
    }
}

// The first piece of a list of pieces, each behind its length, and the pieces after it.
pub fn piece(list: &[u8]) -> (&[u8], &[u8]) {
    let n = number::word32(list, 0);
    let rest = lend::rest(list, 4);
    (lend::front(rest, n), lend::rest(rest, n))
}
