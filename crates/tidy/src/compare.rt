// The word `newer`: which of two files is newer.
use clocks::Order;
use newer::FileRefusal;
use std::fmt;
use std::fmt::{Display, Write};
use tidy_files::{input, time};
use tidy_words::line::{Dated, Time};
use tidy_words::tell;
use tidy_words::tell::{Failure, Outcome};

// A file, first its name and then its bytes, and how many minutes its clock is ahead of universal time.
#[derive(Clone, Copy)]
pub struct Clocked<'a> {
    pub file: &'a [u8],
    pub minutes: i64,
}

// A time of a clock in universal time: no time and no zone is so far that their sum is cut. A stored 0 is no time, whatever the zone makes of it.
#[derive(Clone, Copy)]
struct Universal {
    time: usize,
    minutes: i64,
}

impl Display for Universal {
    fn fmt<W: Write>(&self, f: &mut fmt::Formatter<W>) -> fmt::Result {
        let Some(zone) = clocks::zone_of(self.minutes) else {
            return Ok(());
        };
        let there = self.time.saturating_add(zone.behind);
        if there < zone.ahead {
            let before = zone.ahead - there;
            let none = Dated(0);
            return write!(f, "-{before} ({none})");
        }
        let seconds = there - zone.ahead;
        if self.time == 0 {
            let none = Dated(0);
            return write!(f, "{seconds} ({none})");
        }
        let time = Time(seconds);
        write!(f, "{time}")
    }
}

impl Clocked<'_> {
    fn universal(self) -> Universal {
        Universal {
            time: time::of(self.file),
            minutes: self.minutes,
        }
    }
}

fn words_of(order: Order) -> &'static str {
    match order {
        Order::Earlier => "the second file is newer",
        Order::Same => "neither file is newer",
        Order::Later => "the first file is newer",
    }
}

fn say(rt: HostRuntime, order: Order, first: Clocked<'_>, second: Clocked<'_>) -> Outcome {
    let order = words_of(order);
    let first = first.universal();
    let second = second.universal();
    tell::print_line(
        rt,
        format_args!("{order}: first {first}, second {second} in universal time\n"),
    )
}

// A refusal, and which file it is about.
fn refuse(rt: HostRuntime, why: FileRefusal) -> Failure {
    match why.file {
        1 => tell::say(rt, b"first file "),
        2 => tell::say(rt, b"second file "),
        _ => {}
    }
    tell::refused(rt, why.refusal)
}

// Every accepted file has an entry 1.
fn compare(rt: HostRuntime, first: Clocked<'_>, second: Clocked<'_>) -> Outcome {
    let part = newer::newest(first.file, first.minutes, second.file, second.minutes, 1).map_err(
        |why| refuse(rt, why),
    )?;
    say(rt, part.order, first, second)
}

// The first file is read.
fn with_second(rt: HostRuntime, first: Clocked<'_>, second: Clocked<'_>) -> Outcome {
    let mut room = input::room();
    let file = input::read(rt, second.file, &mut room)?;
    compare(rt, first, Clocked { file, ..second })
}

pub fn run(rt: HostRuntime, first: Clocked<'_>, second: Clocked<'_>) -> Outcome {
    if matches!((first.file, second.file), (b"-", b"-")) {
        return Err(tell::wrong(rt, "only one of the files is standard input", b""));
    }
    let mut room = input::room();
    let file = input::read(rt, first.file, &mut room)?;
    with_second(rt, Clocked { file, ..first }, second)
}
