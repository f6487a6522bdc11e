// Refusal 23 by one walk over each container, those in `moov` where their boxes are plain. A yes says that an edit takes it.
// The tests return early: as one `&&` of them the proof was tried, and didn't close.
ghost use Rattle.codes.specs.Codes.{MOOV, TRAK, MDIA, STBL};
ghost use Rattle.boxes.specs.Containers.{FILE, DEPTH};
ghost use Rattle.layout.specs.Slots.{slot_in, Lies};
ghost use Rattle.rule.specs.Rule.{all_in};
ghost use Rattle.rule_shape.specs.TwentyThree.{editable_rule};
ghost use Rattle.rule_all.specs.All.{Sure};

use layout::gather::Slot;
use layout::{gather, moov, plain, tracks};

// An `stbl` that is a slot of the file.
fn stbl_edits(file: &[u8], stbl: Slot) -> bool
    requires { Lies file.now stbl }
    ensures { Sure result (all_in editable_rule 1 STBL (slot_in file.now stbl)) }
{
    let g = plain::two(file, stbl, codes::CO64, codes::SAIO);
    if !g.tiled {
        return false;
    }
    if g.a.n != 0 {
        return false;
    }
    if g.b.n != 0 {
        return false;
    }
    true
}

// An `mdia`, with the first `minf` and `stbl` where there is no other.
fn mdia_edits(file: &[u8], mdia: Slot) -> bool
    requires { Lies file.now mdia }
    ensures { Sure result (all_in editable_rule 3 MDIA (slot_in file.now mdia)) }
{
    let g = plain::one(file, mdia, codes::MINF);
    if !g.tiled {
        return false;
    }
    if 1 < g.a.n {
        return false;
    }
    let h = plain::one(file, g.a, codes::STBL);
    if !h.tiled {
        return false;
    }
    if 1 < h.a.n {
        return false;
    }
    stbl_edits(file, h.a)
}

// A `trak`; without an `mdia` it holds no container.
fn trak_edits(file: &[u8], trak: Slot) -> bool
    requires { Lies file.now trak }
    ensures { Sure result (all_in editable_rule 4 TRAK (slot_in file.now trak)) }
{
    let g = plain::two(file, trak, codes::MDIA, codes::META);
    if !g.tiled {
        return false;
    }
    if g.b.n != 0 {
        return false;
    }
    if g.a.n == 0 {
        return true;
    }
    if 1 < g.a.n {
        return false;
    }
    mdia_edits(file, g.a)
}

// A `moov` of at most four tracks; one that isn't there is empty.
fn moov_edits(file: &[u8], moov: Slot) -> bool
    requires { Lies file.now moov }
    ensures { Sure result (all_in editable_rule 5 MOOV (slot_in file.now moov)) }
{
    let g = moov::with_tracks(file, moov, codes::META);
    if !g.tiled {
        return false;
    }
    if g.a.n != 0 {
        return false;
    }
    if 4 < g.b.n {
        return false;
    }
    if !trak_edits(file, g.b) {
        return false;
    }
    if !trak_edits(file, g.c) {
        return false;
    }
    if !trak_edits(file, g.d) {
        return false;
    }
    trak_edits(file, g.e)
}

// The file.
pub fn edits_hold(file: &[u8]) -> bool
    ensures { Sure result (all_in editable_rule DEPTH FILE file.now) }
{
    let g = gather::wanted(
        file,
        tracks::whole(file),
        gather::first(codes::MOOV),
        gather::first(codes::MOOF),
        gather::first(codes::MFRA),
        gather::first(codes::SIDX),
        gather::first(codes::META),
    );
    if 1 < g.a.n {
        return false;
    }
    if g.b.n != 0 {
        return false;
    }
    if g.c.n != 0 {
        return false;
    }
    if g.d.n != 0 {
        return false;
    }
    if g.e.n != 0 {
        return false;
    }
    moov_edits(file, g.a)
}
