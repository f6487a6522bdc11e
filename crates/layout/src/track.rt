// Where the boxes of a track stand, by one walk over each of its containers.
ghost use Rattle.std.specs.Prelude.{◌<◌};
ghost use Rattle.layout.specs.Slots.{slot_in, first_with, Lies, Stands};
ghost use Rattle.layout.specs.Track.{Laid, LaidAs, StsdPlaced};

use crate::gather::Slot;
use crate::{gather, plain};

// The boxes that rule 3 names, and whether all is as rules 2 and 3 want it, and plain.
#[derive(Clone, Copy, Debug, PartialEq, Eq)]
pub struct Track {
    pub shaped: bool,
    pub tkhd: Slot,
    pub mdhd: Slot,
    pub hdlr: Slot,
    pub dref: Slot,
    pub stsd: Slot,
    pub stts: Slot,
    pub stsc: Slot,
    pub stsz: Slot,
    pub stco: Slot,
}

// Those of the track whose payload is a slot of the file, where all is as rules 2 and 3 want it and plain.
pub fn lay(file: &[u8], trak: Slot) -> Option<Track>
    requires { Lies file.now trak }
    ensures { LaidAs file.now trak result }
{
    let t = plain::two(file, trak, codes::TKHD, codes::MDIA);
    if !gather::alone(t) {
        return None;
    }
    let m = plain::three(file, t.b, codes::MDHD, codes::HDLR, codes::MINF);
    if !gather::alone(m) {
        return None;
    }
    let i = plain::two(file, m.c, codes::DINF, codes::STBL);
    if !gather::alone(i) {
        return None;
    }
    let s = plain::five(
        file,
        i.b,
        codes::STSD,
        codes::STTS,
        codes::STSC,
        codes::STSZ,
        codes::STCO,
    );
    if !gather::alone(s) {
        return None;
    }
    let d = plain::one(file, i.a, codes::DREF);
    if !gather::alone(d) {
        return None;
    }
    let tkhd = t.a;
    let mdhd = m.a;
    let hdlr = m.b;
    let dref = d.a;
    let stsd = s.a;
    let stts = s.b;
    let stsc = s.c;
    let stsz = s.d;
    let stco = s.e;
    Some(Track {
        shaped: true,
        tkhd,
        mdhd,
        hdlr,
        dref,
        stsd,
        stts,
        stsc,
        stsz,
        stco,
    })
}

// What a container has of a code, and the first box of it, among boxes of any form.
fn first(file: &[u8], whole: Slot, code: usize) -> Slot
    requires { Lies file.now whole × (0 < code) }
    ensures { Stands file.now whole (first_with code) result }
{
    let want = gather::first(code);
    let g = gather::wanted(file, whole, want, want, want, want, want);
    g.a
}

// Those of any track.
fn any(file: &[u8], trak: Slot) -> Track
    requires { Lies file.now trak }
    ensures { Laid file.now (slot_in file.now trak) result × StsdPlaced file.now trak result }
{
    let mdia = first(file, trak, codes::MDIA);
    let minf = first(file, mdia, codes::MINF);
    let dinf = first(file, minf, codes::DINF);
    let stbl = first(file, minf, codes::STBL);
    Track {
        shaped: false,
        tkhd: first(file, trak, codes::TKHD),
        mdhd: first(file, mdia, codes::MDHD),
        hdlr: first(file, mdia, codes::HDLR),
        dref: first(file, dinf, codes::DREF),
        stsd: first(file, stbl, codes::STSD),
        stts: first(file, stbl, codes::STTS),
        stsc: first(file, stbl, codes::STSC),
        stsz: first(file, stbl, codes::STSZ),
        stco: first(file, stbl, codes::STCO),
    }
}

// The same, by plain boxes where they are.
pub fn found(file: &[u8], trak: Slot) -> Track
    requires { Lies file.now trak }
    ensures { Laid file.now (slot_in file.now trak) result × StsdPlaced file.now trak result }
{
    match lay(file, trak) {
        Some(t) => t,
        None => any(file, trak),
    }
}
