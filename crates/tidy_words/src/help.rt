// What the words are for.
use crate::tell;
use crate::tell::{Failure, Outcome, To, print};
use crate::word::Word;

// All words: those that look at a file or change it, those on records, and the others.
const EDITS: &str = "\
    tidy list FILE                             what the file holds\n\
    tidy outline FILE                          every box of the file: its code, place, size and depth\n\
    tidy modes T FILE                          whether the frames of track T are as its descriptions say\n\
    tidy shift MINUTES FILE OUT                every time less so many minutes\n\
    tidy move FILE OUT                         moov right after ftyp\n";

const RECORDS: &str = "\
    tidy record N FILE                         the fields of the record of entry N\n\
    tidy record N FIELD=VALUE... FILE OUT      the record of entry N with these fields changed\n";

const OTHERS: &str = "\
    tidy newer FILE MINUTES FILE MINUTES       which file is newer\n\
    tidy sheet FILE OUT                        the sheet of all sample entries\n\
    tidy table T SHEET OUT                     the stsd of track T of a sheet\n\
    tidy amr DUMP OUT                          the file that a dump of AMR or wideband AMR becomes\n\
    tidy salvage amr|wideband FILE OUT         the file of the frames that a dead recorder left\n\
    tidy help [WORD]                           this, or more on a word\n\n\
    FILE, SHEET, DUMP and OUT may be - for standard input and output. OUT must not exist.\n";

impl Word {
    // What is said of it.
    fn help(self) -> &'static str {
        match self {
            Word::List => "\
                tidy list FILE\n\
                Prints whether the file is accepted, then its tracks, its entries and its brands.\n\
                A file of more than 65536 bytes is too long here.\n",
            Word::Outline => "\
                tidy outline FILE\n\
                Prints a line for each box: its code, its place in the file, its size and its depth, which is 1 at the top.\n\
                Opened are moov, trak, mdia, minf, stbl, dinf and udta, wherever they stand, but not at depth 16.\n\
                Where a box doesn't fit, the line is broken and its place; its list ends there, and the list around it goes on.\n\
                A file that list refuses has an outline too, and the exit status is 0: an outline doesn't judge.\n\
                A file of less than 8 bytes is refused; one of more than 65536 bytes is too long here.\n",
            Word::Modes => "\
                tidy modes T FILE\n\
                Goes through the samples of track T, counted from 1, which has AMR or wideband AMR alone (samr, sawb).\n\
                Says that every sample passes, or names the first that fails, counted from 1, and why:\n\
                a bad frame: it has a padding bit set, is of an unknown type or is cut short;\n\
                a wrong count of frames: not as many as its description says; the track's last sample may have fewer, but not none;\n\
                a frame of a mode that its description doesn't allow: record shows the modes.\n\
                The exit status is 1 where a sample fails, too.\n",
            Word::Shift => "\
                tidy shift MINUTES FILE OUT\n\
                Takes 60 times MINUTES, -840 to 840, from each creation and modification time that isn't 0.\n\
                Says what the file's modification time was and is.\n",
            Word::Move => "\
                tidy move FILE OUT\n\
                Puts moov right after ftyp; all else keeps its order.\n",
            Word::Record => "\
                tidy record N FILE\n\
                tidy record N FIELD=VALUE... FILE OUT\n\
                Entry N is counted from 1, as list does. It is a samr, sawb or s263.\n\
                Fields of a samr and a sawb: vendor, version, modes, period, frames.\n\
                Frames are 1 to 15, and 1 to 255 in a file that lists the brand 3gp4 and none of 3gp5, 3gp6 and 3gr6.\n\
                Fields of an s263: vendor, version, level, profile, rates (none, or an average, a comma and a maximum).\n\
                Numbers are decimal, or hexadecimal behind 0x.\n",
            Word::Newer => "\
                tidy newer FILE MINUTES FILE MINUTES\n\
                Compares the files' modification times. MINUTES, -840 to 840, is how far that file's clock is ahead of universal time.\n",
            Word::Sheet => "\
                tidy sheet FILE OUT\n\
                Writes all sample entries behind a list of their kinds, tracks, places and lengths.\n",
            Word::Table => "\
                tidy table T SHEET OUT\n\
                Writes the stsd box of track T, counted from 1, of a sheet.\n",
            Word::Amr => "\
                tidy amr DUMP OUT\n\
                Makes a 3GP file of a dump with one channel, which opens with #!AMR or #!AMR-WB and a newline: one track, one frame per sample.\n\
                At most 65536 frames, none of them bad. The file's times are 0.\n",
            Word::Salvage => "\
                tidy salvage amr|wideband FILE OUT\n\
                For a recording whose recorder died: FILE is an ftyp, right after it an mdat whose end was never written (size 0 or past the end), and nothing else.\n\
                Makes a 3GP file of its whole good frames, AMR or wideband AMR as you say, up to the first bad one and at most 65536. FILE stays as it is.\n\
                Says how many frames were kept, how many bytes were dropped and from which place in FILE on, and what the size of the mdat was.\n",
            Word::Help => "tidy help [WORD]\n",
        }
    }
}

// Each part is written, also after one that could not be.
fn put_all(rt: HostRuntime, to: To) -> Outcome {
    let _ = print(rt, to, EDITS.as_bytes());
    let _ = print(rt, to, RECORDS.as_bytes());
    print(rt, to, OTHERS.as_bytes())
}

fn put_word(rt: HostRuntime, to: To, word: Word) -> Outcome {
    print(rt, to, word.help().as_bytes())
}

// More on a word, or all words where there is no such word.
pub fn on(rt: HostRuntime, text: &[u8]) -> Outcome {
    if text.is_empty() {
        return put_all(rt, To::Output);
    }
    match Word::try_from(text) {
        Ok(word) => put_word(rt, To::Output, word),
        Err(_) => Err(unknown(rt, text)),
    }
}

// A word that is used in another way than it is.
pub fn misused(rt: HostRuntime, word: Word) -> Failure {
    let _ = put_word(rt, To::Errors, word);
    Failure::Failed
}

// A word that isn't known.
pub fn unknown(rt: HostRuntime, text: &[u8]) -> Failure {
    if !text.is_empty() {
        tell::wrong(rt, "no such word: ", text);
    }
    let _ = put_all(rt, To::Errors);
    Failure::Failed
}
