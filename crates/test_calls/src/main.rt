// Makes the calls of tests/calls.py, and writes what each answers and leaves; the answers that are right stand in stdout.
#![tactic(auto)]

mod call;
mod feed;
mod group;
mod print;
mod room;

use std::io::Result;

fn main(rt: HostRuntime) -> Result<()> {
    feed::run(rt, "groups")
}
