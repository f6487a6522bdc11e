// The printed listing of a file.
#![tactic(auto)]

mod line;
mod lines;

ghost use Rattle.rule.specs.Results.{Exact};
ghost use Rattle.rule.specs.Results.ToWrite.{gives};
ghost use Rattle.layout.specs.Every.{TracksAt};
ghost use Rattle.judge.specs.Acceptance.{Meets};
ghost use Rattle.listing.specs.Lines.{refused_line};
ghost use Rattle.listing.specs.Listing.{accepted_lines, listing_result};

use brands::conditions;
use layout::entries;
use layout::every::Tracks;
use rule::{Answer, Refusal, refusals};
use rule_lists::total;

// Room for the listing of any file: the most that its writers promise to take.
pub const ROOM: usize = lines::OTHERS + lines::ENTRY * total::MOST;

// A refused file's line, whole or not at all: a run into no room says how long it is.
fn list_refused(e: Refusal, out: &mut [u8]) -> Answer
    ensures { Exact (gives (refused_line e.number e.place)) out.old result out.new }
{
    let m = line::put_refused(&mut out[0..0], e);
    if out.len() < m {
        return Err(refusals::NO_ROOM);
    }
    Ok(line::put_refused(out, e))
}

// An accepted file's lines, in the same way unless there is room for the most that they can take.
fn list_accepted(file: &[u8], e: Tracks, out: &mut [u8]) -> Answer
    requires { Meets file.now × TracksAt file.now e }
    ensures { Exact (gives (accepted_lines file.now)) out.old result out.new }
{
    let l = entries::lay(file, e);
    let o = conditions::asked(file, e, l);
    if lines::OTHERS + lines::ENTRY * entries::count(file, l) <= out.len() {
        return Ok(lines::put_accepted(out, file, e, l, o));
    }
    let m = lines::put_accepted(&mut out[0..0], file, e, l, o);
    if out.len() < m {
        return Err(refusals::NO_ROOM);
    }
    Ok(lines::put_accepted(out, file, e, l, o))
}

// The listing of any file: only 25 is refused.
pub fn listing(file: &[u8], out: &mut [u8]) -> Answer
    ensures { Exact (listing_result file.now) out.old result out.new }
{
    match judge::judge_tracks(file) {
        Ok(tracks) => list_accepted(file, tracks, out),
        Err(e) => list_refused(e, out),
    }
}
