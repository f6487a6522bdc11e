// The move: `moov` goes right after `ftyp`.
#![tactic(auto)]

ghost use Rattle.std.specs.Prelude.{◌≡◌, [], ◌∷◌, ◌+◌, ◌≤◌, length};
ghost use Rattle.codes.specs.Codes.{MOOV};
ghost use Rattle.wire.specs.Writing.{Wrote, Put};
ghost use Rattle.boxes.specs.Boxes.{boxes};
ghost use Rattle.boxes.specs.Seek.{ANY, place_in, Cut};
ghost use Rattle.boxes.specs.Containers.{LONGEST};
ghost use Rattle.rule.specs.Results.{asked, Exact};
ghost use Rattle.rule.specs.Results.ToWrite.{gives};
ghost use Rattle.judge.specs.Acceptance.{Meets, editable};
ghost use Rattle.edit_move.specs.Moving.{move_of, move_result};
ghost use Rattle.edit_move.specs.Arrange.{arranged};

use boxes::seek;
use boxes::walk::BoxAt;
use boxes::words::By;
use rule::{Answer, refusals};
use wire::pen;

// Writes a file with its box b at place f.
fn arrange(out: &mut [u8], file: &[u8], f: usize, b: BoxAt) -> usize
    requires { (f ≤ b.at) × (b.at + b.span ≤ length file.now) × (length file.now ≤ LONGEST) }
    ensures { Put (arranged f b file.now) out.old 0 result out.new }
{
    let at = b.at;
    let to = at + b.span;
    let i = pen::put_part(out, 0, &file[..f]);
    let j = pen::put_part(out, i, &file[at..to]);
    let k = pen::put_part(out, j, &file[f..at]);
    pen::put_part(out, k, &file[to..])
}

// Writes a file with its `moov` b closed at the place f of its second box, and moves the chunk offsets that stood before `moov` up by its size.
fn shift(out: &mut [u8], file: &[u8], f: usize, b: BoxAt) -> usize
    requires { (Meets file.now) × (Cut file.now MOOV 0 b) × (f ≡ place_in ANY 1 (boxes file.now)) × (length file.now ≤ length out.old) }
    ensures { Wrote (move_of file.now) out.old result out.new }
{
    let n = arrange(out, file, f, b);
    let moov = BoxAt { at: f, ..b };
    edit_offsets::close(out, moov);
    edit_offsets::settle(
        out,
        moov,
        By {
            limit: b.at + b.span,
            low: b.span,
            high: 0,
            less: 0,
        },
    );
    n
}

// Writes a file with its `moov` at the place of its second box.
fn write_moved(out: &mut [u8], file: &[u8]) -> usize
    requires { (Meets file.now) × (length file.now ≤ length out.old) }
    ensures { Wrote (move_of file.now) out.old result out.new }
{
    let second = seek::place(file, seek::ANY, 1);
    match seek::nth(file, codes::MOOV, 0) {
        Some(b) => shift(out, file, second, b),
        None => 0,
    }
}

// The move of a file that was accepted.
fn move_accepted(file: &[u8], out: &mut [u8]) -> Answer
    requires { Meets file.now }
    ensures { Exact (asked ((23, editable file.now) ∷ []) (gives (move_of file.now))) out.old result out.new }
{
    if !judge::editable(file) {
        return Err(refusals::NOT_EDITABLE);
    }
    if out.len() < file.len() {
        return Err(refusals::NO_ROOM);
    }
    Ok(write_moved(out, file))
}

// Writes the file with `moov` right after `ftyp`, other top-level boxes in their order, and answers its length.
pub fn move_moov(file: &[u8], out: &mut [u8]) -> Answer
    ensures { Exact (move_result file.now) out.old result out.new }
{
    judge::judge(file)?;
    move_accepted(file, out)
}
