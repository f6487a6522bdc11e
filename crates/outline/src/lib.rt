// The outline of a file: every box with its code, place, size and depth.
#![tactic(auto)]

mod line;
mod list;

ghost use Rattle.std.specs.Prelude.{◌≤◌, ◌<◌, length};
ghost use Rattle.boxes.specs.Containers.{LONGEST as longest};
ghost use Rattle.rule.specs.Results.{Exact};
ghost use Rattle.rule.specs.Results.ToWrite.{gives};
ghost use Rattle.outline.specs.Lines.{printed};
ghost use Rattle.outline.specs.Outline.{outline as outline_of, outline_result};

use boxes::containers::{FILE, LONGEST};
use rule::{Answer, refusals};

// Whole or not at all: a run into no room says how long it is.
fn print(file: &[u8], out: &mut [u8]) -> Answer
    requires { length file.now ≤ longest }
    ensures { Exact (gives (printed (outline_of file.now))) out.old result out.new }
{
    let m = list::put_list(&mut out[0..0], 0, file, FILE, 0, 1);
    if out.len() < m {
        return Err(refusals::NO_ROOM);
    }
    Ok(list::put_list(out, 0, file, FILE, 0, 1))
}

// The outline of any file that refusal 1 lets pass.
pub fn outline(file: &[u8], out: &mut [u8]) -> Answer
    ensures { Exact (outline_result file.now) out.old result out.new }
{
    if file.len() < 8 {
        return Err(refusals::LENGTH);
    }
    if LONGEST < file.len() {
        return Err(refusals::LENGTH);
    }
    print(file, out)
}
