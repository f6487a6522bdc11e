// The first argument, and the arguments that its word takes.
use crate::compare;
use crate::compare::Clocked;
use crate::job::Job;
use frames::codec::Codec;
use tidy_edits::edit::Edit;
use tidy_numbers::parse;
use tidy_words::tell::{Failure, Outcome};
use tidy_words::word::Word;
use tidy_words::{argument, help};

// A job on the file that argument i names; argument j names what it makes.
fn with_files(rt: HostRuntime, job: Job, i: usize, j: usize) -> Outcome {
    let mut from = argument::room();
    let from = argument::fetch(rt, i, &mut from);
    let mut to = argument::room();
    let to = argument::fetch(rt, j, &mut to);
    job.run(rt, from, to)
}

// The number of a track or of an entry.
fn number(rt: HostRuntime) -> Result<usize, Failure> {
    let n: u64 = parse::argument(rt, 2)?;
    Ok(n as usize)
}

// The file doesn't say which codec its frames are of.
fn salvage(rt: HostRuntime) -> Outcome {
    let mut name = argument::room();
    let codec = match argument::fetch(rt, 2, &mut name) {
        b"amr" => Codec::Amr,
        b"wideband" => Codec::Wideband,
        _ => return Err(help::misused(rt, Word::Salvage)),
    };
    with_files(rt, Job::Salvage(codec), 3, 4)
}

fn newer(rt: HostRuntime) -> Outcome {
    let y = parse::argument(rt, 3)?;
    let z = parse::argument(rt, 5)?;
    let mut first = argument::room();
    let first = Clocked {
        file: argument::fetch(rt, 2, &mut first),
        minutes: y,
    };
    let mut second = argument::room();
    let second = Clocked {
        file: argument::fetch(rt, 4, &mut second),
        minutes: z,
    };
    compare::run(rt, first, second)
}

fn help(rt: HostRuntime) -> Outcome {
    let mut word = argument::room();
    help::on(rt, argument::fetch(rt, 2, &mut word))
}

// The changes of a record stand before the last two arguments.
fn by_word(rt: HostRuntime, word: Word, count: usize) -> Outcome {
    match (word, count) {
        (Word::List, 3) => with_files(rt, Job::List, 2, 3),
        (Word::Outline, 3) => with_files(rt, Job::Outline, 2, 3),
        (Word::Modes, 4) => with_files(rt, Job::Modes(number(rt)?), 3, 4),
        (Word::Shift, 5) => {
            let minutes = parse::argument(rt, 2)?;
            with_files(rt, Job::Make(Edit::Shift(minutes)), 3, 4)
        }
        (Word::Move, 4) => with_files(rt, Job::Make(Edit::Move), 2, 3),
        (Word::Record, 4) => with_files(rt, Job::Record(number(rt)?), 3, 4),
        (Word::Record, 6..) => {
            let entry = number(rt)?;
            let end = count - 2;
            with_files(rt, Job::Change { entry, end }, end, count - 1)
        }
        (Word::Newer, 6) => newer(rt),
        (Word::Sheet, 4) => with_files(rt, Job::Make(Edit::Sheet), 2, 3),
        (Word::Table, 5) => with_files(rt, Job::Table(number(rt)?), 3, 4),
        (Word::Amr, 4) => with_files(rt, Job::Dump, 2, 3),
        (Word::Salvage, 5) => salvage(rt),
        (Word::Help, ..=3) => help(rt),
        _ => Err(help::misused(rt, word)),
    }
}

pub fn run(rt: HostRuntime) -> Outcome {
    let mut room = argument::room();
    let text = argument::fetch(rt, 1, &mut room);
    match Word::try_from(text) {
        Ok(word) => by_word(rt, word, argument::count(rt)),
        Err(_) => Err(help::unknown(rt, text)),
    }
}
