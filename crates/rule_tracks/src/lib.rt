// Rules 6 to 8: the sample tables of a track.
#![tactic(auto, unfolding(crate::specs::Six::table_fine, crate::specs::Six::table_in, crate::specs::Asked::seven_asked_in, wire::specs::Tests::if_eq))]

ghost use Rattle.std.specs.Prelude.{◌≡◌, ◌+◌, ◌^◌, ◌<◌, length};
ghost use Rattle.boxes.specs.Boxes.{boxes};
ghost use Rattle.rule_tracks.specs.Six.{table_fine, table_in};
ghost use Rattle.rule_tracks.specs.Asked.{six_holds, seven_asked, seven_asked_in, eight_asked, eight_asked_at};

use boxes::seek;
use mdat::{chunks, payload};
use rule::Verdict;
use sample_tables::{agree, size, table};
use wire::number;

// Whether a table has its length.
fn table_of(c: usize, body: &[u8]) -> bool
    ensures { result ≡ table_fine c body.now }
{
    match c {
        codes::STTS => table::table_form(body, 8),
        codes::STSC => table::table_form(body, 12),
        codes::STCO => table::table_form(body, 4),
        codes::STSZ => size::sizes_form(body),
        _ => true,
    }
}

// Rule 6 of a box of a container of kind k.
pub fn table_in(k: usize, c: usize, body: &[u8]) -> bool
    ensures { result ≡ table_in k c body.now }
{
    k != codes::STBL || table_of(c, body)
}

// Whether rule 6 holds of the tables of an `stbl`.
fn six_holds(stbl: &[u8]) -> bool
    ensures { result ≡ six_holds (boxes stbl.now) }
{
    table::table_form(seek::payload(stbl, codes::STTS, 0), 8)
        && table::table_form(seek::payload(stbl, codes::STSC, 0), 12)
        && size::sizes_form(seek::payload(stbl, codes::STSZ, 0))
        && table::table_form(seek::payload(stbl, codes::STCO, 0), 4)
}

// Whether the tables of an `stbl` agree, where they have their lengths.
fn seven_holds(stbl: &[u8]) -> bool
    ensures { result ≡ seven_asked (boxes stbl.now) }
{
    if !six_holds(stbl) {
        return true;
    }
    agree::seven(
        seek::payload(stbl, codes::STTS, 0),
        seek::payload(stbl, codes::STSC, 0),
        seek::payload(stbl, codes::STSZ, 0),
        seek::payload(stbl, codes::STCO, 0),
        number::word32(seek::payload(stbl, codes::STSD, 0), 4),
    )
}

// Rule 7 of a container of kind k.
pub fn seven_in(k: usize, part: &[u8]) -> bool
    ensures { result ≡ seven_asked_in k part.now }
{
    k != codes::STBL || seven_holds(part)
}

// Whether the chunks of an `stbl` lie in the file's payloads, where its tables agree.
fn eight_holds(file: &[u8], stbl: &[u8]) -> bool
    ensures { result ≡ eight_asked (boxes file.now) (boxes stbl.now) }
{
    if !six_holds(stbl) {
        return true;
    }
    if !seven_holds(stbl) {
        return true;
    }
    chunks::eight(
        file,
        seek::payload(stbl, codes::STSC, 0),
        seek::payload(stbl, codes::STSZ, 0),
        seek::payload(stbl, codes::STCO, 0),
        payload::none(),
    )
}

// Rule 8 of a container of kind k whose payload starts at base.
pub fn eight_at(file: &[u8], k: usize, part: &[u8], base: usize) -> Verdict
    requires { base + length part.now < 2 ^ 62 }
    ensures { result ≡ eight_asked_at (boxes file.now) k part.now base }
{
    if k == codes::STBL {
        if !eight_holds(file, part) {
            return Err(base + seek::place(part, codes::STCO, 0));
        }
        return Ok(());
    }
    Ok(())
}
