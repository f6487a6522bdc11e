// The rules of one track.
ghost use Rattle.std.specs.Prelude.{◌≡◌, true, ◌≤◌, length, drop};
ghost use Rattle.boxes.specs.Boxes.{FRONT, boxes};
ghost use Rattle.boxes.specs.Containers.{LONGEST};
ghost use Rattle.layout.specs.Slots.{slot_in};
ghost use Rattle.layout.specs.Tracks.{FirstMdat};
ghost use Rattle.release.specs.declared.Release.TheVariants.{Release6};
ghost use Rattle.rule_entries.specs.Ten.{entries_fine};
ghost use Rattle.rule_all.specs.Track.{Inside, heads_fine, lists_fine, forms_fine, tables_fine, around_in, AllFine, SaysOf};

use crate::TrackSays;
use boxes::walk;
use entry_rules::entry::Around;
use layout::gather;
use layout::gather::Slot;
use layout::track::Track;
use mdat::{chunks, payload};
use release::Release;
use rule::Verdict;
use rule_headers::forms;
use rule_lists::{form, url};
use sample_tables::{agree, size, table};
use wire::{lend, number};

// Rule 4.
#[tactic(auto, unfolding(crate::specs::Track::heads_fine, wire::specs::Clauses::every))]
fn heads_fine(file: &[u8], t: Track) -> bool
    requires { Inside file.now t }
    ensures { result ≡ heads_fine file.now t }
{
    forms::form(codes::TRAK, codes::TKHD, gather::bytes(file, t.tkhd))
        && forms::form(codes::MDIA, codes::MDHD, gather::bytes(file, t.mdhd))
        && forms::form(codes::MDIA, codes::HDLR, gather::bytes(file, t.hdlr))
}

// Rules 5 and 9.
#[tactic(auto, unfolding(crate::specs::Track::lists_fine, wire::specs::Clauses::every))]
fn lists_fine(file: &[u8], t: Track) -> bool
    requires { Inside file.now t }
    ensures { result ≡ lists_fine file.now t }
{
    url::url_list(gather::bytes(file, t.dref)) && form::list_form(gather::bytes(file, t.stsd))
}

// Rule 6.
fn forms_fine(file: &[u8], t: Track) -> bool
    requires { Inside file.now t }
    ensures { result ≡ forms_fine file.now t }
{
    let stts = t.stts;
    let stsc = t.stsc;
    let stsz = t.stsz;
    let stco = t.stco;
    table::table_form(gather::bytes(file, stts), 8)
        && table::table_form(gather::bytes(file, stsc), 12)
        && size::sizes_form(gather::bytes(file, stsz))
        && table::table_form(gather::bytes(file, stco), 4)
}

// Rules 7 and 8 where rule 6 holds.
fn tables_fine(file: &[u8], t: Track, mdat: Slot) -> bool
    requires { Inside file.now t × (forms_fine file.now t ≡ true) × FirstMdat file.now mdat }
    ensures { result ≡ tables_fine (boxes file.now) file.now t }
{
    let stts = t.stts;
    let stsc = t.stsc;
    let stsz = t.stsz;
    let stco = t.stco;
    let stsd = t.stsd;
    let runs = gather::bytes(file, stsc);
    let sizes = gather::bytes(file, stsz);
    let offsets = gather::bytes(file, stco);
    let entries = number::word32(gather::bytes(file, stsd), 4);
    agree::seven(gather::bytes(file, stts), runs, sizes, offsets, entries)
        && chunks::eight(
            file,
            runs,
            sizes,
            offsets,
            payload::first(mdat.from, mdat.to),
        )
}

// Rule 10 in the narrower release, which is asked first since few files need the wider.
fn entries_fine(file: &[u8], t: Track) -> bool
    requires { Inside file.now t × (length file.now ≤ LONGEST) }
    ensures { result ≡ entries_fine (around_in file.now t) Release6 (drop FRONT (slot_in file.now t.stsd)) }
{
    let mdhd = t.mdhd;
    let hdlr = t.hdlr;
    let dref = t.dref;
    let stsd = t.stsd;
    let around = Around {
        scale: number::word32(gather::bytes(file, mdhd), 12),
        handler: number::word32(gather::bytes(file, hdlr), 8),
        references: number::word32(gather::bytes(file, dref), 4),
    };
    rule_entries::entries_from(
        lend::rest(gather::bytes(file, stsd), walk::FRONT),
        0,
        Some(around),
        Release::Release6,
    )
    .is_ok()
}

// 2; or 10, where it meets rules 4 to 9; or 11, where it meets the narrower rule 10 too.
fn all_fine(file: &[u8], t: Track, mdat: Slot) -> usize
    requires { Inside file.now t × (length file.now ≤ LONGEST) × FirstMdat file.now mdat }
    ensures { AllFine file.now t result }
{
    if !heads_fine(file, t) {
        return 2;
    }
    if !lists_fine(file, t) {
        return 2;
    }
    if !forms_fine(file, t) {
        return 2;
    }
    if !tables_fine(file, t, mdat) {
        return 2;
    }
    if !entries_fine(file, t) {
        return 10;
    }
    11
}

// What a track says, by where its boxes stand, in a file with that first `mdat`.
pub fn judge(file: &[u8], t: Track, mdat: Slot) -> TrackSays
    requires { Inside file.now t × (length file.now ≤ LONGEST) × FirstMdat file.now mdat }
    ensures { SaysOf file.now t result }
{
    let tkhd = t.tkhd;
    let stsd = t.stsd;
    TrackSays {
        sure: all_fine(file, t, mdat),
        identity: number::word32(gather::bytes(file, tkhd), 12),
        entries: number::word32(gather::bytes(file, stsd), 4),
    }
}
