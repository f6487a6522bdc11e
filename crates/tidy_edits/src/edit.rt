// The words that make one file of another: `move`, `shift`, `sheet`, `table` and `amr`.
use rule::Answer;
use tidy_files::output::Made;
use tidy_files::{input, time};
use tidy_words::line::{Line, Time};
use tidy_words::tell::Outcome;
use tidy_words::{line, tell};
use wire::lend;

#[derive(Clone, Copy)]
pub enum Edit {
    Move,
    Shift(i64),
    Sheet,
    Table(usize),
    FromAmr,
}

impl Edit {
    fn apply(self, file: &[u8], out: &mut [u8]) -> Answer {
        match self {
            Edit::Move => edit_move::move_moov(file, out),
            Edit::Shift(minutes) => edit_shift::shift(file, minutes, out),
            Edit::Sheet => sheet::sheet(file, out),
            Edit::Table(track) => sheet_table::table(file, track, out),
            Edit::FromAmr => from_amr::from_amr(file, out),
        }
    }

    // Of a shift it is said what the time was and is.
    fn said(self, file: &[u8], made: &[u8]) -> Line {
        match self {
            Edit::Shift(_) => {
                let was = Time(time::of(file));
                let is = Time(time::of(made));
                line::of(format_args!("time was {was}, is {is}\n"))
            }
            _ => Line::new(),
        }
    }

    fn write(self, rt: HostRuntime, file: &[u8], bytes: &[u8], name: &[u8]) -> Outcome {
        let line = self.said(file, bytes);
        let said = line.as_str();
        Made { name, bytes, said }.write(rt)
    }

    pub fn run(self, rt: HostRuntime, file: &[u8], to: &[u8]) -> Outcome {
        let mut room = input::room();
        let n = self
            .apply(file, &mut room)
            .map_err(|refusal| tell::refused(rt, refusal))?;
        self.write(rt, file, lend::front(&room, n), to)
    }
}
