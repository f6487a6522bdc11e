// Lists, outlines, checks, shifts, moves, changes, compares, makes and salvages 3GP files, as its first argument says.
#![tactic(auto)]

mod command;
mod compare;
mod job;
mod list;
mod speech;

use std::process::ExitCode;

// How it went: 0 done, 1 refused, 2 wrong use, input or output.
fn main(rt: HostRuntime) -> ExitCode {
    match command::run(rt) {
        Ok(()) => ExitCode::SUCCESS,
        Err(failure) => failure.into(),
    }
}
