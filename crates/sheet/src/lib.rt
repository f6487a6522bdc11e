// The sheet reader: the sheet of a file's own sample entries.
#![tactic(auto)]

pub mod edition;

ghost use Rattle.std.specs.Prelude.{◌≡◌, [], ◌∷◌, ◌+◌, ◌-◌, ◌*◌, ◌^◌, ◌≤◌, ◌<◌, length, take, drop, replicate};
ghost use Rattle.wire.specs.Numbers.{bytes};
ghost use Rattle.wire.specs.Writing.{Put};
ghost use Rattle.rule.specs.Results.{Exact};
ghost use Rattle.rule.specs.Results.ToWrite.{gives};
ghost use Rattle.movie.specs.Entries.{entries};
ghost use Rattle.layout.specs.Every.{TracksAt};
ghost use Rattle.layout.specs.Entries.{ListsAt};
ghost use Rattle.movie.specs.Named.{entry_as};
ghost use Rattle.sheet.specs.Sheet.{SLOTS, SLOT, slot as slot_text, slot_of, slots as slots_text, bodies as bodies_text};
ghost use Rattle.sheet.specs.Fits.{SheetFits};
ghost use Rattle.sheet.specs.Reader.{sheet_of, sheet_result};

use crate::edition::{SLOT, SLOTS};
use entry_heads::kind;
use layout::entries::Lists;
use layout::every::Tracks;
use layout::{entries, gather};
use movie::entry::EntryAt;
use rule::{Answer, refusals};
use wire::{number, pen};

// Writes two bytes and two zeros.
pub fn put_two(out: &mut [u8], at: usize, a: usize, b: usize) -> usize
    requires { (at < 2 ^ 62) × (a < 256) × (b < 256) }
    ensures { Put (a ∷ b ∷ 0 ∷ 0 ∷ []) out.old at result out.new × (result ≡ at + 4) }
{
    pen::put_word(out, at, a * 16777216 + b * 65536)
}

// Writes a slot.
pub fn put_slot(
    out: &mut [u8],
    at: usize,
    kind: usize,
    track: usize,
    place: usize,
    span: usize,
) -> usize
    requires { (at < 60000) × (kind < 256) × (track < 256) }
    ensures { Put (slot_text kind track place span) out.old at result out.new × (result ≡ at + 12) }
{
    let a = put_two(out, at, kind, track);
    let b = pen::put_word(out, a, place);
    pen::put_word(out, b, span)
}

// Writes the slot of an entry that was looked up.
fn put_slot_of(out: &mut [u8], at: usize, file: &[u8], e: EntryAt) -> usize
    requires { (at < 60000) × (e.track < 256) × (e.place + e.span ≤ length file.now) }
    ensures { Put (slot_of (entry_as file.now e)) out.old at result out.new × (result ≡ at + 12) }
{
    let from = e.place;
    let to = e.place + e.span;
    let bytes = &file[from..to];
    let kind = kind::of_code(number::word32(bytes, 4));
    put_slot(out, at, kind, e.track, from, bytes.len())
}

// Writes the slot of entry i, where there is one.
fn put_slot_at(out: &mut [u8], at: usize, file: &[u8], l: Lists, i: usize) -> usize
    requires { (at < 60000) × SheetFits file.now × ListsAt file.now l }
    ensures { Put (slots_text (take 1 (drop i (entries file.now)))) out.old at result out.new × (result ≤ at + 12) }
{
    match entries::entry(file, l, i) {
        Some(e) => put_slot_of(out, at, file, e),
        None => at,
    }
}

// Writes the slots of the first n entries.
fn put_slots(out: &mut [u8], from: usize, file: &[u8], l: Lists, n: usize) -> usize
    requires { (from + 12 * n < 60000) × SheetFits file.now × ListsAt file.now l }
    ensures { Put (slots_text (take n (entries file.now))) out.old from result out.new × (result ≤ from + 12 * n) }
{
    let mut at = from;
    for i in 0..n {
        at = put_slot_at(out, at, file, l, i);
    }
    at
}

// Writes n slots that no entry has.
fn put_unused(out: &mut [u8], at: usize, n: usize) -> usize
    requires { (at < 2 ^ 62) × (n ≤ SLOTS) }
    ensures { Put (replicate (SLOT * n) 0) out.old at result out.new × (result ≤ at + SLOT * SLOTS) }
{
    let none = [0u8; SLOT * SLOTS];
    let k = SLOT * n;
    pen::put_part(out, at, &none[0..k])
}

// Writes the entries: those of a track are its list, since boxes tile it.
fn put_bodies(out: &mut [u8], from: usize, file: &[u8], l: Lists) -> usize
    requires { (from < 2 ^ 61) × SheetFits file.now × ListsAt file.now l }
    ensures { Put (bodies_text (entries file.now)) out.old from result out.new }
{
    let n = l.tracks;
    let mut at = from;
    for t in 0..n {
        let s = entries::list_slot(l, t);
        at = pen::put_part(out, at, gather::bytes(file, s));
    }
    at
}

// Writes the sheet of a file that has n entries.
fn put_sheet(out: &mut [u8], file: &[u8], l: Lists, n: usize) -> usize
    requires { SheetFits file.now × ListsAt file.now l × (n ≡ length (entries file.now)) }
    ensures { Put (sheet_of file.now) out.old 0 result out.new }
{
    let e = edition::of_count(n);
    let a = put_two(out, 0, e.number, n);
    let b = put_slots(out, a, file, l, n);
    let c = put_unused(out, b, e.slots - n);
    put_bodies(out, c, file, l)
}

// The same of an accepted file, where there is room for it: the bodies, written into no room, tell how long it is.
fn sheet_of(file: &[u8], e: Tracks, out: &mut [u8]) -> Answer
    requires { SheetFits file.now × TracksAt file.now e }
    ensures { Exact (gives (sheet_of file.now)) out.old result out.new }
{
    let l = entries::lay(file, e);
    let n = entries::count(file, l);
    let mut none = [0u8; 1];
    let span = put_bodies(&mut none, edition::bodies_at(n), file, l);
    if out.len() < span {
        return Err(refusals::NO_ROOM);
    }
    Ok(put_sheet(out, file, l, n))
}

// The sheet of a file, with its length.
pub fn sheet(file: &[u8], out: &mut [u8]) -> Answer
    ensures { Exact (sheet_result file.now) out.old result out.new }
{
    let tracks = judge::judge_tracks(file)?;
    sheet_of(file, tracks, out)
}
