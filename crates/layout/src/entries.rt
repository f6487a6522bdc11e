// The sample entries of a file by number, from where the lists of its tracks stand.
ghost use Rattle.std.specs.Prelude.{◌≡◌, ◌+◌, ◌*◌, ◌≤◌, ◌<◌, length};
ghost use Rattle.boxes.specs.Containers.{LONGEST};
ghost use Rattle.movie.specs.Movie.{tracks as tracks_of};
ghost use Rattle.movie.specs.Entries.{entries as entries_of_file};
ghost use Rattle.movie.specs.Named.{PlacedAs, NamedAs};
ghost use Rattle.layout.specs.Every.{TracksAt};
ghost use Rattle.layout.specs.Entries.{list_slot, ListAt, ListsAt};

use crate::every::Tracks;
use crate::gather::Slot;
use crate::{every, gather};
use boxes::{seek, walk};
use movie::entry::EntryAt;

// How many tracks there are, and of the first four what stands past the front of their `stsd`s, with the count of entries in it.
#[derive(Clone, Copy, Debug, PartialEq, Eq)]
pub struct Lists {
    pub tracks: usize,
    pub one: Slot,
    pub two: Slot,
    pub three: Slot,
    pub four: Slot,
}

// The list of track t, from 0.
fn list(file: &[u8], e: Tracks, t: usize) -> Slot
    requires { TracksAt file.now e × (t < 4) }
    ensures { ListAt file.now t result }
{
    let k = every::track(e, t);
    let stsd = k.stsd;
    if stsd.to - stsd.from < walk::FRONT {
        return gather::none();
    }
    let s = Slot {
        n: 0,
        from: stsd.from + walk::FRONT,
        to: stsd.to,
    };
    Slot {
        n: seek::count(gather::bytes(file, s), seek::ANY),
        from: s.from,
        to: s.to,
    }
}

// Those of a file.
pub fn lay(file: &[u8], e: Tracks) -> Lists
    requires { TracksAt file.now e }
    ensures { ListsAt file.now result }
{
    Lists {
        tracks: e.count,
        one: list(file, e, 0),
        two: list(file, e, 1),
        three: list(file, e, 2),
        four: list(file, e, 3),
    }
}

// The one of track t.
#[tactic(auto, unfolding(crate::specs::Entries::list_slot, wire::specs::Tests::if_eq))]
pub fn list_slot(l: Lists, t: usize) -> Slot
    ensures { result ≡ list_slot l t }
{
    match t {
        0 => l.one,
        1 => l.two,
        2 => l.three,
        _ => l.four,
    }
}

// Entry n of the list of track t, both from 0.
fn entry_in(file: &[u8], s: Slot, t: usize, n: usize) -> Option<EntryAt>
    requires { ListAt file.now t s × (n < s.n) × (t < 4) × (length file.now ≤ LONGEST) }
    ensures { PlacedAs file.now t n result }
{
    match seek::nth(gather::bytes(file, s), seek::ANY, n) {
        Some(b) => Some(EntryAt {
            track: t + 1,
            nth: n,
            place: s.from + b.at,
            span: b.span,
        }),
        None => None,
    }
}

// Entry i, from 0 and in file order.
pub fn entry(file: &[u8], l: Lists, i: usize) -> Option<EntryAt>
    requires { ListsAt file.now l × (tracks_of file.now ≤ 4) × (length file.now ≤ LONGEST) }
    ensures { NamedAs file.now i result }
{
    let mut left = i;
    for t in 0..l.tracks {
        let s = list_slot(l, t);
        if left < s.n {
            return entry_in(file, s, t, left);
        }
        left -= s.n;
    }
    None
}

// How many entries the file has.
pub fn count(file: &[u8], l: Lists) -> usize
    requires { ListsAt file.now l × (tracks_of file.now ≤ 4) × (length file.now ≤ LONGEST) }
    ensures { (result ≡ length (entries_of_file file.now)) × (result ≤ 4 * LONGEST) }
{
    let mut sum = 0;
    for t in 0..l.tracks {
        sum += list_slot(l, t).n;
    }
    sum
}
