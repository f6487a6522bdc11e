// A line of text, and how what stands in it is written.
use arrayvec::ArrayString;
use std::fmt::{Display, Write};
use std::{fmt, str};
use wire::lend;

// No line is longer, nor are the lines of a record.
pub type Line = ArrayString<512>;

// The text of a value. What there is no room for is missed where it is read.
pub fn of<D: Display + Drop>(value: D) -> Line {
    let mut line = Line::new();
    let _ = write!(line, "{value}");
    line
}

// A time in words. What no file can hold has no date here.
#[derive(Clone, Copy)]
pub struct Dated(pub usize);

impl Display for Dated {
    fn fmt<W: Write>(&self, f: &mut fmt::Formatter<W>) -> fmt::Result {
        let Ok(time) = u32::try_from(self.0) else {
            return write!(f, "past 2040-02-06 06:28:15");
        };
        let mut text = [0u8; 19];
        let n = dates::put_time(&mut text, 0, time);
        match str::from_utf8(lend::front(&text, n)) {
            Ok(date) => f.write_str(date),
            Err(_) => Err(fmt::Error),
        }
    }
}

// A time as a number, and in words.
#[derive(Clone, Copy)]
pub struct Time(pub usize);

impl Display for Time {
    fn fmt<W: Write>(&self, f: &mut fmt::Formatter<W>) -> fmt::Result {
        let seconds = self.0;
        let dated = Dated(seconds);
        write!(f, "{seconds} ({dated})")
    }
}

// A number of 16 or 32 bits in hexadecimal.
#[derive(Clone, Copy)]
pub struct Hex(pub u64);

impl Display for Hex {
    fn fmt<W: Write>(&self, f: &mut fmt::Formatter<W>) -> fmt::Result {
        let n = self.0;
        if n < 65536 {
            return write!(f, "0x{n:04X}");
        }
        write!(f, "0x{n:08X}")
    }
}
