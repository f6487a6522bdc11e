// Rule 10 on an entry: in a track, whose time scale, handler and count of data references stand before it, and alone.
use crate::{named, print};
use entry_rules::entry;
use entry_rules::entry::Around;
use release::Release;
use wire::{lend, number};

pub fn show(rt: HostRuntime, case: &[u8]) {
    let case = named::read(case);
    let entry = lend::rest(case.body, 12);
    let track = Around {
        scale: number::word32(case.body, 0),
        handler: number::word32(case.body, 4),
        references: number::word32(case.body, 8),
    };
    print::text(rt, case.name);
    print::say(
        rt,
        b": track ",
        usize::from(entry::entry_rule(entry, Some(track), Release::Release6)),
    );
    print::say(
        rt,
        b" alone ",
        usize::from(entry::entry_rule(entry, None, Release::Release6)),
    );
    print::say(
        rt,
        b" wider ",
        usize::from(entry::entry_rule(entry, None, Release::Release4)),
    );
    print::line(rt);
}
