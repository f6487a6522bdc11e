// The word `record`: the record of an entry, told or changed.
use boxes::containers::LONGEST;
use entry_heads::head;
use movie::entry;
use rule::{Answer, refusals};
use tidy_fields::record::Record;
use tidy_files::input;
use tidy_files::output::Made;
use tidy_words::tell;
use tidy_words::tell::Outcome;
use wire::lend;

fn read_accepted(file: &[u8], i: usize, record: &mut Record) -> Answer {
    let i = i.checked_sub(1).ok_or(refusals::NO_SUCH)?;
    if LONGEST < file.len() {
        return Err(refusals::LENGTH);
    }
    let e = entry::entry(file, i).ok_or(refusals::NO_SUCH)?;
    let part = lend::front(lend::rest(file, e.place), e.span);
    // In an accepted file, of its release, only an entry of another kind has no fields.
    entry_fields::read(part, release::of_file(file), &mut record.numbers).map_err(
        |_| refusals::NO_SUCH,
    )
}

// The numbers of the record of entry i, from 1: how many there are, or a refusal.
fn read(file: &[u8], i: usize, record: &mut Record) -> Answer {
    judge::judge(file)?;
    read_accepted(file, i, record)
}

// Tells the record of entry i, from 1.
pub fn show(rt: HostRuntime, file: &[u8], i: usize) -> Outcome {
    let mut record = Record::new();
    read(file, i, &mut record).map_err(|refusal| tell::refused(rt, refusal))?;
    tell::print_line(rt, record)
}

fn replace(rt: HostRuntime, file: &[u8], i: usize, record: &[u8], name: &[u8]) -> Outcome {
    let mut room = input::room();
    let n = edit_replace::replace(file, i, record, &mut room).map_err(|refusal| tell::refused(
        rt, refusal,
    ))?;
    let bytes = lend::front(&room, n);
    let said = "";
    Made { name, bytes, said }.write(rt)
}

// What an entry holds past its head.
fn record_of(entry: &[u8], kind: usize) -> &[u8] {
    lend::rest(entry, head::size(kind))
}

// The file with the record of these numbers, of its release.
fn make(rt: HostRuntime, file: &[u8], i: usize, numbers: &[u64], to: &[u8]) -> Outcome {
    let mut entry = [0u8; 128];
    let kind = numbers.first().copied().unwrap_or(0) as usize;
    let n = entry_fields::write(numbers, release::of_file(file), &mut entry).map_err(
        |refusal| tell::refused(rt, refusal),
    )?;
    replace(rt, file, i, record_of(lend::front(&entry, n), kind), to)
}

// Changes the record of entry i, from 1, as the arguments from 3 to an end say.
pub fn change(rt: HostRuntime, file: &[u8], i: usize, end: usize, to: &[u8]) -> Outcome {
    let mut record = Record::new();
    let n = read(file, i, &mut record).map_err(|refusal| tell::refused(rt, refusal))?;
    record.change_all(rt, end)?;
    make(rt, file, i, record.first(n), to)
}
