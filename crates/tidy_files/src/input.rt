// Reading a file whole.
ghost use Rattle.std.specs.Prelude.{◌≤◌, length, IfOk};

use crate::name;
use boxes::containers::LONGEST;
use std::io;
use std::io::Read;
use tidy_words::tell;
use tidy_words::tell::Failure;

// Room for the longest file and, since a sheet is at most 388 bytes longer than its file, for its sheet; what fills it is longer than either.
pub const ROOM: usize = LONGEST + 512;

pub fn room() -> [u8; ROOM] {
    [0; ROOM]
}

// Reads until the input ends or the buffer is full: what std reads whole goes to the heap, or must fill the buffer.
pub fn read_all<R: Read>(input: &mut R, buffer: &mut [u8]) -> io::Result<usize>
    ensures { IfOk result (λ n. n ≤ length buffer.new) }
{
    let mut done = 0;
    while done < buffer.len() {
        let n = input.read(&mut buffer[done..])?;
        if n == 0 {
            return Ok(done);
        }
        done += n;
    }
    Ok(done)
}

// The same, and a read that fails is told.
fn read_told<'a, R: Read>(
    rt: HostRuntime,
    input: &mut R,
    name: &[u8],
    buffer: &'a mut [u8],
) -> Result<&'a [u8], Failure> {
    match read_all(input, buffer) {
        Ok(n) => Ok(&buffer[..n]),
        Err(error) => Err(tell::failed(rt, name, error)),
    }
}

// Reads the file of a name.
pub fn read_named<'a>(
    rt: HostRuntime,
    name: &[u8],
    buffer: &'a mut [u8],
) -> Result<&'a [u8], Failure> {
    let mut file = name::open(rt, name).map_err(|error| tell::failed(rt, name, error))?;
    read_told(rt, &mut file, name, buffer)
}

// Reads standard input.
pub fn read_standard(rt: HostRuntime, buffer: &mut [u8]) -> Result<&[u8], Failure> {
    read_told(rt, &mut rt.stdin(), b"standard input", buffer)
}

// Reads the file of a name, or standard input for `-`: its bytes.
pub fn read<'a>(rt: HostRuntime, name: &[u8], buffer: &'a mut [u8]) -> Result<&'a [u8], Failure> {
    name::there(rt, name)?;
    match name {
        b"-" => read_standard(rt, buffer),
        _ => read_named(rt, name, buffer),
    }
}
