// The judgement of a file: rules 1 to 10.
#![tactic(auto)]

mod rules;
mod shape;

ghost use Rattle.std.specs.Prelude.{◌≡◌, ◌+◌, ◌≤◌, length};
ghost use Rattle.boxes.specs.Containers.{LONGEST};
ghost use Rattle.rule_all.specs.All.{SureBefore};
ghost use Rattle.judge.specs.Acceptance.{editable};
ghost use Rattle.judge.specs.Asked.{verdict_of};
ghost use Rattle.judge.specs.Judgement.{judged};
ghost use Rattle.judge.specs.Tracks.{WithTracks};

use boxes::containers;
use layout::every;
use layout::every::Tracks;
use rule::{Refusal, Verdict, refusals};

// A file is accepted, or why it is refused.
pub type Judgement = Result<(), Refusal>;

// What rule n says of a file.
fn verdict_of(n: usize, file: &[u8]) -> Verdict
    requires { length file.now ≤ LONGEST }
    ensures { result ≡ verdict_of n file.now }
{
    if n < 4 {
        return shape::first(n, file);
    }
    rules::judge_in(n, file, file, 0, 0, containers::FILE, containers::DEPTH)
}

// Rules n to 10, of a file of which rule 1 and those before n hold.
fn judge_from(n: usize, file: &[u8]) -> Judgement
    requires { (8 ≤ length file.now) × (length file.now ≤ LONGEST) × SureBefore file.now n }
    ensures { result ≡ judged file.now }
{
    for number in n..11 {
        match verdict_of(number, file) {
            Ok(()) => {}
            Err(place) => {
                return Err(Refusal { number, place });
            }
        }
    }
    Ok(())
}

// The lowest number whose rule is broken, with the place of the first box in file order that breaks it. All rules are asked at once first, and only those in doubt again.
pub fn judge(file: &[u8]) -> Judgement
    ensures { result ≡ judged file.now }
{
    if file.len() < 8 {
        return Err(refusals::LENGTH);
    }
    if containers::LONGEST < file.len() {
        return Err(refusals::LENGTH);
    }
    judge_from(rule_all::sure_before(file), file)
}

// The same, and where the file is accepted what its tracks say, as they were found on the way.
pub fn judge_tracks(file: &[u8]) -> Result<Tracks, Refusal>
    ensures { WithTracks file.now result }
{
    if file.len() < 8 {
        return Err(refusals::LENGTH);
    }
    if containers::LONGEST < file.len() {
        return Err(refusals::LENGTH);
    }
    let s = rule_all::sure_tracks(file);
    if s.sure < 11 {
        judge_from(s.sure, file)?;
        return Ok(every::lay(file));
    }
    let tracks = s.tracks;
    Ok(tracks)
}

// Whether an edit takes a file, which refusal 23 asks. Each container is walked once first.
pub fn editable(file: &[u8]) -> bool
    requires { length file.now ≤ LONGEST }
    ensures { result ≡ editable file.now }
{
    rule_all::edit::edits_hold(file) || shape::first(23, file).is_ok()
}
