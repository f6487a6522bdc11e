// The replacement of a decoder record.
#![tactic(auto)]

mod place;
mod record;
mod write;

ghost use Rattle.std.specs.Prelude.{[], ◌∷◌, ◌≤◌, length};
ghost use Rattle.codes.specs.Codes.{MOOV};
ghost use Rattle.boxes.specs.Seek.{Cut};
ghost use Rattle.entry_heads.specs.Kinds.{kind_of};
ghost use Rattle.rule.specs.Results.{asked, in_limit, Exact};
ghost use Rattle.rule.specs.Results.ToWrite.{gives};
ghost use Rattle.judge.specs.Acceptance.{Meets};
ghost use Rattle.edit_offsets.specs.Close.{shut_at};
ghost use Rattle.edit_offsets.specs.Settle.{settled};
ghost use Rattle.edit_replace.specs.Replace.{replace_result};
ghost use Rattle.edit_replace.specs.Places.{Within, record_there, place_result};
ghost use Rattle.edit_replace.specs.Fitting.{entry_result};

use boxes::walk::BoxAt;
use boxes::{containers, seek, walk};
use entry_heads::{head, kind};
use entry_rules::decoder;
use place::Place;
use rule::{Answer, refusals};

// At a place in the `moov` b of a file that an edit takes: 24, 25, or the result is written.
fn replace_at(file: &[u8], b: BoxAt, p: Place, keep: usize, new: &[u8], out: &mut [u8]) -> Answer
    requires { (Meets file.now) × (Within file.now b p) × (length new.now ≤ 31) }
    ensures { Exact (asked ((24, in_limit (settled file.now (record_there file.now (shut_at b) p keep new.now))) ∷ []) (gives (settled file.now (record_there file.now (shut_at b) p keep new.now)))) out.old result out.new }
{
    let span = write::result_length(file, p.entry, keep, new);
    if containers::LONGEST < span {
        return Err(refusals::TOO_LONG);
    }
    if out.len() < span {
        return Err(refusals::NO_ROOM);
    }
    Ok(write::replaced(out, file, b, p, keep, new))
}

// Of the entry there: 20, 21, 23, and then as it fits.
fn replace_entry(file: &[u8], b: BoxAt, p: Place, new: &[u8], out: &mut [u8]) -> Answer
    requires { (Meets file.now) × (Within file.now b p) }
    ensures { Exact (place_result file.now b p (kind_of p.entry.code) new.now) out.old result out.new }
{
    let kind = kind::of_code(p.entry.code);
    if !record::takes(kind, new) {
        return Err(refusals::NO_SUCH);
    }
    if !decoder::record_rule(kind, release::of_file(file), new) {
        return Err(refusals::BAD_RECORD);
    }
    if !judge::editable(file) {
        return Err(refusals::NOT_EDITABLE);
    }
    replace_at(file, b, p, head::size(kind) - walk::HEAD, new, out)
}

// Of entry i, from 1, in an accepted file whose `moov` is b: 20 where there is none, and then as the entry takes it.
fn replace_in(file: &[u8], b: BoxAt, i: usize, new: &[u8], out: &mut [u8]) -> Answer
    requires { (Meets file.now) × (Cut file.now MOOV 0 b) }
    ensures { Exact (entry_result file.now i new.now) out.old result out.new }
{
    if i == 0 {
        return Err(refusals::NO_SUCH);
    }
    let Some(p) = place::find(walk::body(file, b), i - 1) else {
        return Err(refusals::NO_SUCH);
    };
    replace_entry(file, b, p, new, out)
}

// In a file that was accepted, which has a `moov`.
fn replace_accepted(file: &[u8], i: usize, new: &[u8], out: &mut [u8]) -> Answer
    requires { Meets file.now }
    ensures { Exact (entry_result file.now i new.now) out.old result out.new }
{
    let Some(b) = seek::nth(file, codes::MOOV, 0) else {
        return Err(refusals::NO_SUCH);
    };
    replace_in(file, b, i, new, out)
}

// Writes the file with another decoder record in entry i, from 1 and in file order, and answers its length.
pub fn replace(file: &[u8], entry: usize, new: &[u8], out: &mut [u8]) -> Answer
    ensures { Exact (replace_result file.now entry new.now) out.old result out.new }
{
    judge::judge(file)?;
    replace_accepted(file, entry, new, out)
}
