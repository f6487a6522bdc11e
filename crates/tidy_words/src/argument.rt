// The arguments that a program is started with; argument 0 is its own name.
ghost use Rattle.std.specs.Prelude.{◌≤◌, length};

use std::env::{Env, FillError};

// Room for any name of a file.
pub const ROOM: usize = 4096;

pub fn room() -> [u8; ROOM] {
    [0; ROOM]
}

// Argument i, which the room takes: empty where it is missing or too long.
pub fn fetch(rt: HostRuntime, i: usize, room: &mut [u8]) -> &[u8]
    ensures { length result.now ≤ length room.old }
{
    match rt.arg(i, room) {
        Ok(n) => &room[..n],
        Err(_) => &[],
    }
}

fn is_missing(rt: HostRuntime, i: usize) -> bool {
    matches!(rt.arg(i, &mut []), Err(FillError::NotPresent))
}

// How many arguments there are, the program's name among them.
pub fn count(rt: HostRuntime) -> usize {
    (0..usize::MAX).take_while(|&i| !is_missing(rt, i)).count()
}
