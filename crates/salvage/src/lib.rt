// Flat battery: what is saved of a recording whose recorder died.
#![tactic(auto)]

ghost use Rattle.std.specs.Prelude.{◌≡◌, [], ◌∷◌, ◌+◌, ◌≤◌, length, Some, None, IfSome};
ghost use Rattle.wire.specs.Tests.{pick};
ghost use Rattle.wire.specs.Writing.{Wrote};
ghost use Rattle.boxes.specs.Boxes.{HEAD};
ghost use Rattle.salvage.specs.Unfinished.{size_field, endless as endless_in, unfinished};
ghost use Rattle.salvage.specs.Salvage.{Salvages};
ghost use Rattle.salvage.specs.Found.{Found};

use boxes::containers::LONGEST;
use boxes::walk::HEAD;
use frames::codec::Codec;
use frames::run;
use frames::run::Run;
use from_amr::MOST_FRAMES;
use rule::{Answer, refusals};
use wire::number;

// Whether an `mdat` stands at the front whose end isn't there.
#[tactic(auto, unfolding(crate::specs::Unfinished::endless, wire::specs::Clauses::every, wire::specs::Clauses::either, wire::specs::Clauses::is_eq, wire::specs::Clauses::is_lt))]
fn endless(part: &[u8]) -> bool
    ensures { result ≡ endless_in part.now }
{
    let size = number::word32(part, 0);
    number::word32(part, 4) == codes::MDAT && (size == 0 || part.len() < size)
}

// Where the payload of a file that wasn't finished starts; nothing where it is another file.
fn payload_at(file: &[u8]) -> Option<usize>
    ensures { (result ≡ pick (unfinished file.now) (Some (size_field file.now + HEAD)) None) × IfSome result (λ n. n ≤ length file.now) }
{
    if number::word32(file, 4) != codes::FTYP {
        return None;
    }
    let size = number::word32(file, 0);
    if size < HEAD {
        return None;
    }
    if file.len() < size {
        return None;
    }
    if !endless(&file[size..]) {
        return None;
    }
    Some(size + HEAD)
}

// The four numbers of a report.
fn put_report(report: &mut [u64], size: usize, frames: usize, dropped: usize, first: usize)
    requires { 4 ≤ length report.old }
    ensures { Wrote (size ∷ frames ∷ dropped ∷ first ∷ []) report.old 4 report.new }
{
    report[0] = size as u64;
    report[1] = frames as u64;
    report[2] = dropped as u64;
    report[3] = first as u64;
}

// Writes the file of the kept frames, whose payload starts at a place and whose run is told, and the report.
fn save(
    file: &[u8],
    codec: Codec,
    start: usize,
    run: Run,
    out: &mut [u8],
    report: &mut [u64],
) -> Answer
    requires { Found codec file.now start run }
    ensures { Salvages codec file.now out.old result out.new report.old report.new }
{
    let n = from_amr::file::start(run.count) + run.bytes;
    if LONGEST < n {
        return Err(refusals::TOO_LONG);
    }
    if report.len() < 4 {
        return Err(refusals::NO_ROOM);
    }
    if out.len() < n {
        return Err(refusals::NO_ROOM);
    }
    let end = start + run.bytes;
    from_amr::file::put(out, codec, &file[start..end], run);
    let size = number::word32(file, start - HEAD);
    put_report(report, size, run.count, file.len() - end, end);
    Ok(n)
}

// The file of the frames that are whole and good from the payload's start on, and what was changed.
pub fn salvage(file: &[u8], codec: Codec, out: &mut [u8], report: &mut [u64]) -> Answer
    ensures { Salvages codec file.now out.old result out.new report.old report.new }
{
    if file.len() < 8 {
        return Err(refusals::LENGTH);
    }
    if LONGEST < file.len() {
        return Err(refusals::LENGTH);
    }
    let Some(start) = payload_at(file) else {
        return Err(refusals::NOT_CUT_OFF);
    };
    let run = run::read(codec, &file[start..], MOST_FRAMES);
    if run.count == 0 {
        return Err(refusals::NO_FRAME);
    }
    save(file, codec, start, run, out, report)
}
