// Writing a result whole, under a name that nothing has yet.
use crate::name as names;
use arrayvec::ArrayVec;
use std::fs::File;
use std::io;
use std::io::Write;
use std::random::RandomSource;
use tidy_words::tell;
use tidy_words::tell::{Failure, Outcome, To};

// Room for a name: one that fills it is longer than any.
type Name = ArrayVec<u8, 4096>;

// Where the system has no chance to give, 0 is as good: a name that is taken is refused.
fn chance(rt: HostRuntime) -> u32 {
    let mut bytes = [0u8; 4];
    let _ = rt.fill_bytes(&mut bytes);
    u32::from_be_bytes(bytes)
}

// A name that nothing has, beside the one that is asked for; no name is beside one that is longer than any.
fn beside(rt: HostRuntime, name: &[u8]) -> Name {
    let mut other = Name::new();
    if name.len() <= 4095 {
        let n = chance(rt);
        let _ = other.write_all(name);
        let _ = write!(other, ".tidy-{n}");
    }
    other
}

// Writes a file; all of it is then on its device.
fn fill(mut file: File, bytes: &[u8]) -> io::Result<()> {
    file.write_all(bytes)?;
    file.sync_all()
}

// Takes a name away again, after a failure that is told already.
fn clean(rt: HostRuntime, name: &[u8]) {
    let _ = names::unlink(rt, name);
}

// A result, the name that it is to have, and the line that is said of it.
#[derive(Clone, Copy)]
pub struct Made<'a> {
    pub name: &'a [u8],
    pub bytes: &'a [u8],
    pub said: &'a str,
}

impl Made<'_> {
    fn failed(self, rt: HostRuntime, error: io::Error) -> Failure {
        tell::failed(rt, self.name, error)
    }

    // Says what there is to say, and puts the file where its name is taken.
    fn put(self, rt: HostRuntime, other: &[u8]) -> Outcome {
        tell::print(rt, To::Output, self.said.as_bytes())?;
        names::rename(rt, other, self.name).map_err(|error| self.failed(rt, error))
    }

    // Takes the name, says what there is to say, and puts the file there.
    fn settle(self, rt: HostRuntime, other: &[u8]) -> Outcome {
        names::create(rt, self.name).map_err(|error| self.failed(rt, error))?;
        self.put(rt, other).inspect_err(|_| clean(rt, self.name))
    }

    // Fills the file that stands beside the name, and puts it there.
    fn fill_and_settle(self, rt: HostRuntime, file: File, other: &[u8]) -> Outcome {
        fill(file, self.bytes).map_err(|error| self.failed(rt, error))?;
        self.settle(rt, other)
    }

    // Leaves the file whole under its name, or nothing.
    fn place(self, rt: HostRuntime) -> Outcome {
        let other = beside(rt, self.name);
        let other = other.as_slice();
        let file = names::create(rt, other).map_err(|error| self.failed(rt, error))?;
        self.fill_and_settle(rt, file, other)
            .inspect_err(|_| clean(rt, other))
    }

    // On standard output there is the result alone, so what is said goes to standard error.
    fn pass_on(self, rt: HostRuntime) -> Outcome {
        tell::print(rt, To::Output, self.bytes)?;
        tell::say(rt, self.said.as_bytes());
        Ok(())
    }

    // Writes it to a file that must not exist, or to standard output for `-`, and says its line.
    pub fn write(self, rt: HostRuntime) -> Outcome {
        names::there(rt, self.name)?;
        match self.name {
            b"-" => self.pass_on(rt),
            _ => self.place(rt),
        }
    }
}
