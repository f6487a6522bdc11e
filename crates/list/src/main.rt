// Prints the listing of a file. The file is named by the first argument, or is standard input.
#![tactic(auto)]

use std::process::ExitCode;
use tidy_files::input;
use tidy_words::tell::{Failure, Outcome, To};
use tidy_words::{argument, tell};
use wire::lend;

// The longest file that this program reads.
const ROOM: usize = 65536;

fn print(rt: HostRuntime, text: &[u8]) -> Outcome {
    tell::print(rt, To::Output, text)
}

fn no_room(rt: HostRuntime) -> Failure {
    tell::say(rt, b"no room for the listing\n");
    Failure::Failed
}

fn list(rt: HostRuntime, file: &[u8]) -> Outcome {
    if ROOM < file.len() {
        return print(rt, b"too long here\n");
    }
    let mut text = [0u8; listing::ROOM];
    let n = listing::listing(file, &mut text).map_err(|_| no_room(rt))?;
    print(rt, lend::front(&text, n))
}

// One byte more than the room tells a longer file.
fn list_argument(rt: HostRuntime) -> Outcome {
    let mut buffer = [0u8; ROOM + 1];
    if argument::count(rt) < 2 {
        return list(rt, input::read_standard(rt, &mut buffer)?);
    }
    let mut path = argument::room();
    let path = argument::fetch(rt, 1, &mut path);
    list(rt, input::read_named(rt, path, &mut buffer)?)
}

// How it went: 0 printed, 2 wrong input or output.
fn main(rt: HostRuntime) -> ExitCode {
    match list_argument(rt) {
        Ok(()) => ExitCode::SUCCESS,
        Err(failure) => failure.into(),
    }
}
