// What is done with one file, once it is read.
use crate::{list, speech};
use frames::codec::Codec;
use tidy_edits::edit::Edit;
use tidy_edits::{record, rescue};
use tidy_files::input;
use tidy_words::tell;
use tidy_words::tell::Outcome;

// A record is that of an entry; its changes are the arguments from 3 to an end.
#[derive(Clone, Copy)]
pub enum Job {
    List,
    Outline,
    Modes(usize),
    Make(Edit),
    Table(usize),
    Dump,
    Salvage(Codec),
    Record(usize),
    Change { entry: usize, end: usize },
}

// What was not read whole isn't judged.
fn is_whole(file: &[u8]) -> bool {
    file.len() < input::ROOM
}

impl Job {
    fn apply(self, rt: HostRuntime, from: &[u8], file: &[u8], to: &[u8]) -> Outcome {
        match self {
            Job::List => list::run(rt, file),
            Job::Outline => list::outline(rt, file),
            Job::Modes(track) => speech::run(rt, file, track),
            Job::Make(edit) => edit.run(rt, file, to),
            Job::Table(_) if !is_whole(file) => {
                Err(tell::wrong(rt, "longer than any sheet: ", from))
            }
            Job::Table(track) => Edit::Table(track).run(rt, file, to),
            Job::Dump if !is_whole(file) => Err(tell::wrong(
                rt,
                "longer than any dump that becomes a file: ",
                from,
            )),
            Job::Dump => Edit::FromAmr.run(rt, file, to),
            Job::Salvage(codec) => rescue::run(rt, codec, file, to),
            Job::Record(i) => record::show(rt, file, i),
            Job::Change { entry, end } => record::change(rt, file, entry, end, to),
        }
    }

    // The job on the file of a name; another name is that of what it makes.
    pub fn run(self, rt: HostRuntime, from: &[u8], to: &[u8]) -> Outcome {
        let mut room = input::room();
        let file = input::read(rt, from, &mut room)?;
        self.apply(rt, from, file, to)
    }
}
