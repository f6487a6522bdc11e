// The names of files. A name that isn't text is none to std, and is refused as by a file system that takes text alone.
use std::fs::{File, OpenOptions};
use std::io::{Error, Result};
use std::str;
use tidy_words::tell;
use tidy_words::tell::Outcome;

// What Linux calls a name that isn't text: EILSEQ.
const NO_TEXT: i32 = 84;

// And what it calls one that is longer than any name of a file: ENAMETOOLONG.
const TOO_LONG: i32 = 36;

// A name of no bytes is what an argument is read as that is missing or too long.
pub fn there(rt: HostRuntime, name: &[u8]) -> Outcome {
    if name.is_empty() {
        return Err(tell::wrong(
            rt,
            "a file's name is missing or longer than 4095 bytes",
            b"",
        ));
    }
    Ok(())
}

fn path(name: &[u8]) -> Result<&str> {
    if 4095 < name.len() {
        return Err(Error::from_raw_os_error(TOO_LONG));
    }
    str::from_utf8(name).map_err(|_| Error::from_raw_os_error(NO_TEXT))
}

// Opens the file of a name for reading.
pub fn open(rt: HostRuntime, name: &[u8]) -> Result<File> {
    File::open(&rt, path(name)?)
}

// Makes a file of a name that nothing has yet.
pub fn create(rt: HostRuntime, name: &[u8]) -> Result<File> {
    OpenOptions::new()
        .write(true)
        .create_new(true)
        .open(&rt, path(name)?)
}

// Takes a name from its file.
pub fn unlink(rt: HostRuntime, name: &[u8]) -> Result<()> {
    std::fs::remove_file(&rt, path(name)?)
}

// Gives a file another name, over what has it.
pub fn rename(rt: HostRuntime, from: &[u8], to: &[u8]) -> Result<()> {
    std::fs::rename(&rt, path(from)?, path(to)?)
}
