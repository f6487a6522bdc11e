// The lines of an accepted file.
ghost use Rattle.std.specs.Prelude.{◌+◌, ◌*◌, ◌^◌, ◌≤◌, ◌<◌, length, take, drop};
ghost use Rattle.wire.specs.Writing.{Put};
ghost use Rattle.movie.specs.Movie.{tracks as tracks_of, track as track_of};
ghost use Rattle.movie.specs.Entries.{entries as entries_of};
ghost use Rattle.judge.specs.Acceptance.{Meets};
ghost use Rattle.layout.specs.Every.{TracksAt};
ghost use Rattle.layout.specs.Entries.{ListsAt};
ghost use Rattle.brands.specs.Own.{OwnAt};
ghost use Rattle.listing.specs.Lines.{entry_line};
ghost use Rattle.listing.specs.Listing.{line_of, track_lines, entry_lines, first_line, brand_of, brand_lines, accepted_lines};

use crate::line;
use brands::conditions::Own;
use layout::entries::Lists;
use layout::every::Tracks;
use layout::{entries, every, gather};
use wire::{number, pen};

// The most bytes that the line of an entry takes, and that all other lines of a file take.
pub const ENTRY: usize = 120;

pub const OTHERS: usize = 467;

// The line of track t, from 0; it is numbered from 1.
fn put_track(out: &mut [u8], at: usize, file: &[u8], e: Tracks, t: usize) -> usize
    requires { Meets file.now × TracksAt file.now e × (t < tracks_of file.now) × (at < 2 ^ 60) }
    ensures { Put (line_of (t + 1) (track_of file.now t)) out.old at result out.new × (result ≤ at + 100) }
{
    let k = every::track(e, t);
    let stts = k.stts;
    let ticks = sample_tables::time::media_ticks(gather::bytes(file, stts));
    line::put_track(out, at, t + 1, k.handler, ticks, k.scale)
}

// The lines of the tracks.
fn put_tracks(out: &mut [u8], from: usize, file: &[u8], e: Tracks) -> usize
    requires { Meets file.now × TracksAt file.now e × (from < 2 ^ 32) }
    ensures { Put (track_lines file.now (tracks_of file.now)) out.old from result out.new × (result ≤ from + 400) }
{
    let n = e.count;
    let mut at = from;
    for t in 0..n {
        at = put_track(out, at, file, e, t);
    }
    at
}

// The line of an entry that was found, with its number in the file.
fn put_found(
    out: &mut [u8],
    at: usize,
    file: &[u8],
    i: usize,
    track: usize,
    place: usize,
    span: usize,
) -> usize
    requires { (place + span ≤ length file.now) × (at < 2 ^ 60) }
    ensures { Put (entry_line i (record { track = track; place = place; bytes = take span (drop place file.now) })) out.old at result out.new × (result ≤ at + 120) }
{
    let to = place + span;
    let code = number::word32(&file[place..to], 4);
    let a = line::put_named(out, at, i, track, code);
    line::put_placed(out, a, place, span)
}

// The line of entry i, from 0, and nothing where there is none.
fn put_entry(out: &mut [u8], at: usize, file: &[u8], l: Lists, i: usize) -> usize
    requires { Meets file.now × ListsAt file.now l × (i < 2 ^ 60) × (at < 2 ^ 60) }
    ensures { Put (first_line (i + 1) (drop i (entries_of file.now))) out.old at result out.new × (result ≤ at + 120) }
{
    let number = i + 1;
    match entries::entry(file, l, i) {
        Some(e) => put_found(out, at, file, number, e.track, e.place, e.span),
        None => at,
    }
}

// The lines of the entries, numbered over the file from 1.
fn put_entries(out: &mut [u8], from: usize, file: &[u8], l: Lists) -> usize
    requires { Meets file.now × ListsAt file.now l × (from < 2 ^ 33) }
    ensures { Put (entry_lines 1 (entries_of file.now)) out.old from result out.new × (result ≤ from + 120 * length (entries_of file.now)) × (result < 2 ^ 34) }
{
    let n = entries::count(file, l);
    let mut at = from;
    for i in 0..n {
        at = put_entry(out, at, file, l, i);
    }
    at
}

// The line of a brand.
fn put_brand(out: &mut [u8], at: usize, file: &[u8], o: Own, code: usize) -> usize
    requires { OwnAt file.now o × (at < 2 ^ 60) }
    ensures { Put (brand_of code file.now) out.old at result out.new × (result ≤ at + 15) }
{
    line::put_brand(out, at, code, brands::brand_holds(file, o, code))
}

fn put_brands(out: &mut [u8], at: usize, file: &[u8], o: Own) -> usize
    requires { OwnAt file.now o × (at < 2 ^ 34) }
    ensures { Put (brand_lines file.now) out.old at result out.new × (result ≤ at + 60) }
{
    let a = put_brand(out, at, file, o, codes::GP4);
    let b = put_brand(out, a, file, o, codes::GP5);
    let c = put_brand(out, b, file, o, codes::GP6);
    put_brand(out, c, file, o, codes::GR6)
}

// All of them.
pub fn put_accepted(out: &mut [u8], file: &[u8], e: Tracks, l: Lists, o: Own) -> usize
    requires { Meets file.now × TracksAt file.now e × ListsAt file.now l × OwnAt file.now o }
    ensures { Put (accepted_lines file.now) out.old 0 result out.new × (result ≤ 467 + 120 * length (entries_of file.now)) }
{
    let a = pen::put_part(out, 0, b"file 0\n");
    let b = put_tracks(out, a, file, e);
    let c = put_entries(out, b, file, l);
    put_brands(out, c, file, o)
}
