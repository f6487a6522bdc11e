// Where the entry that a record goes into stands.
ghost use Rattle.std.specs.Prelude.{◌≡◌, ◌+◌, ◌≤◌, ◌<◌, length};
ghost use Rattle.codes.specs.Codes.{TRAK};
ghost use Rattle.boxes.specs.Boxes.{boxes};
ghost use Rattle.boxes.specs.Walk.{payload};
ghost use Rattle.boxes.specs.Seek.{ANY, count, nth as nth_in};
ghost use Rattle.movie.specs.Named.{list_in};
ghost use Rattle.edit_replace.specs.Places.{InTrackAs, InMoovAs, FoundAs};

use boxes::walk::BoxAt;
use boxes::{seek, walk};
use movie::entry;

// A track's box in `moov`, the box of one of its entries in their list, and the entry's number there, from 0.
#[derive(Clone, Copy)]
pub struct Place {
    pub trak: BoxAt,
    pub entry: BoxAt,
    pub nth: usize,
}

// Entry n of the track k of a `moov`, which has it.
fn in_track(moov: &[u8], k: BoxAt, n: usize) -> Option<Place>
    requires { (k.head ≤ k.span) × (k.at + k.span ≤ length moov.now) × (n < count ANY (boxes (list_in (payload moov.now k)))) }
    ensures { InTrackAs moov.now k n result }
{
    let entry = seek::nth(entry::list(walk::body(moov, k)), seek::ANY, n)?;
    Some(Place {
        trak: k,
        entry,
        nth: n,
    })
}

// Entry n of track t of a `moov`, which has them.
fn in_moov(moov: &[u8], t: usize, n: usize) -> Option<Place>
    requires { (t < count TRAK (boxes moov.now)) × (n < count ANY (boxes (list_in (nth_in TRAK t (boxes moov.now))))) }
    ensures { InMoovAs moov.now t n result }
{
    let k = seek::nth(moov, codes::TRAK, t)?;
    in_track(moov, k, n)
}

// Entry i of a `moov`, from 0 and in file order.
pub fn find(moov: &[u8], i: usize) -> Option<Place>
    ensures { FoundAs moov.now i result }
{
    let s = entry::find_spot(moov, i)?;
    in_moov(moov, s.track, s.nth)
}
