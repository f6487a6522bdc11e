// The rule of a decoder record by itself, in both releases.
use crate::{named, print};
use entry_rules::decoder;
use release::Release;
use wire::{lend, number};

// The kind of entry that a record goes into, and its bytes.
pub fn show(rt: HostRuntime, case: &[u8]) {
    let case = named::read(case);
    let kind = number::word32(case.body, 0);
    let record = lend::rest(case.body, 4);
    print::text(rt, case.name);
    print::say(
        rt,
        b": ",
        usize::from(decoder::record_rule(kind, Release::Release6, record)),
    );
    print::say(
        rt,
        b" wider ",
        usize::from(decoder::record_rule(kind, Release::Release4, record)),
    );
    print::line(rt);
}
