// Writing a file with another decoder record: sizes follow, and so do the chunk offsets past `moov`.
ghost use Rattle.std.specs.Prelude.{◌≡◌, ◌≤◌, length as length_of};
ghost use Rattle.wire.specs.Writing.{Wrote, Put};
ghost use Rattle.boxes.specs.Containers.{LONGEST};
ghost use Rattle.boxes.specs.Walk.{payload};
ghost use Rattle.boxes.specs.Way.{BoxInside, turns};
ghost use Rattle.edit_offsets.specs.Close.{shut_at};
ghost use Rattle.edit_offsets.specs.Settle.{settled};
ghost use Rattle.edit_replace.specs.Places.{way_in, record_there, length_in};
ghost use Rattle.edit_replace.specs.Fitting.{Fits};

use crate::place::Place;
use boxes::walk::BoxAt;
use boxes::words::By;
use boxes::{seek, walk, way};

// The way from a track to its entry n, from 0: three numbers to a turn.
fn way_to(n: usize) -> [usize; 15]
    ensures { turns result ≡ way_in n }
{
    [
        0,
        codes::MDIA,
        0,
        0,
        codes::MINF,
        0,
        0,
        codes::STBL,
        0,
        0,
        codes::STSD,
        0,
        walk::FRONT,
        seek::ANY,
        n,
    ]
}

// Writes a file with another record at a place in its `moov` b, and answers its length, fit or not.
fn put_record(out: &mut [u8], file: &[u8], b: BoxAt, p: Place, keep: usize, new: &[u8]) -> usize
    requires { (BoxInside file.now b) × (BoxInside (payload file.now b) p.trak) × (length_of file.now ≤ LONGEST) × (length_of new.now ≤ 31) }
    ensures { Put (record_there file.now b p keep new.now) out.old 0 result out.new }
{
    let way = way_to(p.nth);
    way::put_within(out, file, b, p.trak, &way, keep, new)
}

// The length of a file with another record in its entry e: what stood behind the first `keep` bytes of its payload goes.
pub fn result_length(file: &[u8], e: BoxAt, keep: usize, new: &[u8]) -> usize
    requires { (e.head ≤ e.span) × (e.span ≤ length_of file.now) × (length_of file.now ≤ LONGEST) × (length_of new.now ≤ 31) }
    ensures { result ≡ length_in (length_of file.now) e keep (length_of new.now) }
{
    let body = e.span - e.head;
    file.len() - body + (keep.min(body) + new.len())
}

// Writes the file with another record, and answers its length: a chunk offset past `moov` moves by as much as the file grows, if it does.
pub fn replaced(out: &mut [u8], file: &[u8], b: BoxAt, p: Place, keep: usize, new: &[u8]) -> usize
    requires { Fits file.now b p keep new.now out.old }
    ensures { Wrote (settled file.now (record_there file.now (shut_at b) p keep new.now)) out.old result out.new }
{
    let b = edit_offsets::shut(b);
    let span = put_record(out, file, b, p, keep, new);
    if span == file.len() {
        return span;
    }
    let by = By {
        limit: b.at + b.span,
        low: 0,
        high: span,
        less: file.len(),
    };
    let moov = BoxAt {
        span: b.span + span - file.len(),
        ..b
    };
    edit_offsets::settle(out, moov, by);
    span
}
