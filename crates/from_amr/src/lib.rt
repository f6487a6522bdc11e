// From an AMR dump: the 3GP file that its frames become.
#![tactic(auto)]

ghost use Rattle.std.specs.Prelude.{◌≡◌, ◌≤◌, length};
ghost use Rattle.frames.specs.Frames.{frames, joined};
ghost use Rattle.frames.specs.Modes.{RunOf};
ghost use Rattle.rule.specs.Results.{Exact};
ghost use Rattle.from_amr.specs.Dump.{magic as magic_of, made_of, dump_of, from_amr};

use boxes::containers::LONGEST;
use frames::codec::Codec;
use frames::run;
use frames::run::Run;
use rule::{Answer, Refusal, refusals};
use wire::lend;

mod chunk;
mod field;
pub mod file;
mod header;
mod table;

// "Over 65,536 frames".
pub const MOST_FRAMES: usize = 65536;

// The file of a part that is nothing but good frames, whose run is told.
fn made(codec: Codec, part: &[u8], run: Run, out: &mut [u8]) -> Answer
    requires { (RunOf (frames codec part.now) run) × (joined (frames codec part.now) ≡ part.now) }
    ensures { Exact (made_of codec (frames codec part.now)) out.old result out.new }
{
    if MOST_FRAMES < run.count {
        return Err(refusals::TOO_MANY_FRAMES);
    }
    let n = file::start(run.count) + part.len();
    if LONGEST < n {
        return Err(refusals::TOO_LONG);
    }
    if out.len() < n {
        return Err(refusals::NO_ROOM);
    }
    file::put(out, codec, part, run);
    Ok(n)
}

// The file of a codec's dump, past a magic of so many bytes.
fn dump_of(codec: Codec, dump: &[u8], magic: usize, out: &mut [u8]) -> Answer
    requires { (magic ≡ length (magic_of codec)) × (magic ≤ 9) }
    ensures { Exact (dump_of codec dump.now) out.old result out.new }
{
    let part = lend::rest(dump, magic);
    let run = run::read(codec, part, part.len());
    if run.bytes < part.len() {
        return Err(Refusal {
            number: 41,
            place: magic + run.bytes,
        });
    }
    made(codec, part, run, out)
}

// The file of a dump, by its magic.
pub fn from_amr(dump: &[u8], out: &mut [u8]) -> Answer
    ensures { Exact (from_amr dump.now) out.old result out.new }
{
    if dump.starts_with(b"#!AMR\n") {
        return dump_of(Codec::Amr, dump, 6, out);
    }
    if dump.starts_with(b"#!AMR-WB\n") {
        return dump_of(Codec::Wideband, dump, 9, out);
    }
    Err(refusals::NO_DUMP)
}
