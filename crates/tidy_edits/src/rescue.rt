// The word `salvage`: a file of what a recorder that died left.
use frames::codec::Codec;
use std::fmt;
use std::fmt::{Display, Write};
use tidy_files::input;
use tidy_files::output::Made;
use tidy_words::tell::Outcome;
use tidy_words::{line, tell};
use wire::lend;

// How many there are of what is counted: one of it has no s.
#[derive(Clone, Copy)]
struct Count(u64, &'static str);

impl Display for Count {
    fn fmt<W: Write>(&self, f: &mut fmt::Formatter<W>) -> fmt::Result {
        let Count(n, what) = *self;
        let s = if n == 1 { "" } else { "s" };
        write!(f, "{n} {what}{s}")
    }
}

// The bytes that were dropped, and the place of the first. A place is told only where something was dropped.
#[derive(Clone, Copy)]
struct Dropped {
    bytes: u64,
    place: u64,
}

impl Display for Dropped {
    fn fmt<W: Write>(&self, f: &mut fmt::Formatter<W>) -> fmt::Result {
        if self.bytes == 0 {
            return f.write_str("nothing");
        }
        let bytes = Count(self.bytes, "byte");
        let place = self.place;
        write!(f, "{bytes}, from place {place} on")
    }
}

// What was kept comes first: a member asks for that.
fn write(rt: HostRuntime, bytes: &[u8], report: [u64; 4], name: &[u8]) -> Outcome {
    let [size, kept, bytes_dropped, place] = report;
    let kept = Count(kept, "frame");
    let dropped = Dropped {
        bytes: bytes_dropped,
        place,
    };
    let said = line::of(format_args!(
        "kept {kept}; dropped {dropped}; the size of the mdat was {size}\n"
    ));
    Made {
        name,
        bytes,
        said: said.as_str(),
    }
    .write(rt)
}

pub fn run(rt: HostRuntime, codec: Codec, file: &[u8], to: &[u8]) -> Outcome {
    let mut room = input::room();
    let mut report = [0; 4];
    let n = salvage::salvage(file, codec, &mut room, &mut report).map_err(|refusal| tell::refused(
        rt, refusal,
    ))?;
    write(rt, lend::front(&room, n), report, to)
}
