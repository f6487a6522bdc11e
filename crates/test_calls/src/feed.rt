// A file of groups: how many there are, then each behind its length.
use crate::group;
use std::fs::File;
use std::io::{Read, Result};

// The next 32-bit number.
fn length_of_next(file: &mut File) -> Result<usize> {
    let mut word = [0u8; 4];
    file.read_exact(&mut word)?;
    Ok(u32::from_be_bytes(word) as usize)
}

// The longest group: of one that is said to be longer nothing is read, and it is zeros.
const LONGEST: usize = 65536;

fn make(rt: HostRuntime, file: &mut File) -> Result<()> {
    let n = length_of_next(file)?;
    let mut group = vec![in rt.alloc(); 0u8; n.min(LONGEST)]?;
    if n <= LONGEST {
        file.read_exact(group.as_mut_slice())?;
    }
    group::make(rt, group.as_slice())
}

pub fn run(rt: HostRuntime, path: &str) -> Result<()> {
    let mut file = File::open(&rt, path)?;
    for _ in 0..length_of_next(&mut file)? {
        make(rt, &mut file)?;
    }
    Ok(())
}
