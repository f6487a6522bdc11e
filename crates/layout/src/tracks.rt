// Where the tracks of a file stand, by one walk over its boxes and one over those of `moov`.
#![tactic(auto, unfolding(crate::specs::Tracks::track_slot, wire::specs::Clauses::every, wire::specs::Clauses::is_eq, wire::specs::Clauses::is_le, wire::specs::Tests::if_eq))]

ghost use Rattle.std.specs.Prelude.{◌≡◌, Some, IfOk};
ghost use Rattle.layout.specs.Slots.{Lies};
ghost use Rattle.layout.specs.Tracks.{whole_of, wanted, track_slot, framed_by, LaidOut, LaidOutAs, Spread};

use crate::gather::{Five, Slot, Want};
use crate::{gather, moov, plain};

// The boxes that rule 3 names, the first `mdat`, the first four tracks, how many there are, and whether all is as rules 2 and 3 want it.
#[derive(Clone, Copy, Debug, PartialEq, Eq)]
pub struct Movie {
    pub shaped: bool,
    pub tracks: usize,
    pub ftyp: Slot,
    pub moov: Slot,
    pub mdat: Slot,
    pub mvhd: Slot,
    pub one: Slot,
    pub two: Slot,
    pub three: Slot,
    pub four: Slot,
}

// The file as a slot.
pub fn whole(file: &[u8]) -> Slot
    ensures { (result ≡ whole_of file.now) × Lies file.now result }
{
    Slot {
        n: 1,
        from: 0,
        to: file.len(),
    }
}

// Whether boxes tile a file, and it has one `ftyp`, which is first, and one `moov`; and whether they tile that, none is open, and it has one `mvhd` and 1 to 4 tracks.
fn framed(file: &[u8], f: Five, m: Five) -> bool
    ensures { result ≡ framed_by file.now f m }
{
    f.tiled
        && f.a.n == 1
        && f.b.n == 1
        && m.tiled
        && m.shut
        && m.a.n == 1
        && m.b.n >= 1
        && m.b.n <= 4
        && rule_shape::first_code(file) == codes::FTYP
}

// Why plain boxes say nothing of a file: rule 2 or 3 is broken, or a walk stopped at a box that isn't plain, and others may say more.
#[derive(Clone, Copy, Debug, PartialEq, Eq)]
pub enum Unlaid {
    Broken,
    Stopped,
}

// Those of a file where all is as rules 2 and 3 want it and plain. `moov` is looked at only where there is one.
pub fn lay(file: &[u8]) -> Result<Movie, Unlaid>
    ensures { IfOk result (λ m. LaidOutAs file.now (Some m)) }
{
    let f = plain::three(file, whole(file), codes::FTYP, codes::MOOV, codes::MDAT);
    if !f.tiled {
        return Err(Unlaid::Stopped);
    }
    if f.a.n != 1 || f.b.n != 1 {
        return Err(Unlaid::Broken);
    }
    let moov = f.b;
    let m = moov::with_tracks(file, moov, codes::MVHD);
    if !m.tiled {
        return Err(Unlaid::Stopped);
    }
    if !framed(file, f, m) {
        return Err(Unlaid::Broken);
    }
    let ftyp = f.a;
    let mdat = f.c;
    let mvhd = m.a;
    let one = m.b;
    let two = m.c;
    let three = m.d;
    let four = m.e;
    Ok(Movie {
        shaped: true,
        tracks: m.b.n,
        ftyp,
        moov,
        mdat,
        mvhd,
        one,
        two,
        three,
        four,
    })
}

// Track i of a `moov`, from 0.
fn nth(i: usize) -> Want
    ensures { result ≡ wanted i }
{
    Want {
        code: codes::TRAK,
        nth: i,
    }
}

// Those of any file.
pub fn any(file: &[u8]) -> Movie
    ensures { LaidOut file.now result × Spread file.now result }
{
    let last = gather::first(codes::MDAT);
    let f = gather::wanted(
        file,
        whole(file),
        gather::first(codes::FTYP),
        gather::first(codes::MOOV),
        last,
        last,
        last,
    );
    let moov = f.b;
    let m = gather::wanted(
        file,
        moov,
        gather::first(codes::MVHD),
        nth(0),
        nth(1),
        nth(2),
        nth(3),
    );
    let ftyp = f.a;
    let mdat = f.c;
    let mvhd = m.a;
    let one = m.b;
    let two = m.c;
    let three = m.d;
    let four = m.e;
    Movie {
        shaped: framed(file, f, m),
        tracks: m.b.n,
        ftyp,
        moov,
        mdat,
        mvhd,
        one,
        two,
        three,
        four,
    }
}

// The same, by plain boxes where they are.
pub fn found(file: &[u8]) -> Movie
    ensures { LaidOut file.now result × Spread file.now result }
{
    match lay(file) {
        Ok(m) => m,
        Err(_) => any(file),
    }
}

// The slot of track i, from 0.
pub fn track_slot(m: Movie, i: usize) -> Slot
    ensures { result ≡ track_slot m i }
{
    match i {
        0 => m.one,
        1 => m.two,
        2 => m.three,
        _ => m.four,
    }
}
