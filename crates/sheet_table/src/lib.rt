// The table writer: from a sheet and a track the `stsd` box of that track.
#![tactic(auto)]

ghost use Rattle.std.specs.Prelude.{◌≡◌, [], ◌∷◌, ◌+◌, ◌^◌, ◌≤◌, ◌<◌, length};
ghost use Rattle.wire.specs.Tests.{if_eq};
ghost use Rattle.wire.specs.Writing.{Put};
ghost use Rattle.rule.specs.Results.{asked, in_limit, Exact};
ghost use Rattle.rule.specs.Results.ToWrite.{gives};
ghost use Rattle.sheet.specs.Sheet.{bodies as bodies_text};
ghost use Rattle.sheet_table.specs.Form.{read};
ghost use Rattle.sheet_table.specs.Table.{own_entries, table as table_text, table_result};

use boxes::containers;
use rule::{Answer, refusals};
use sheet::edition;
use wire::{lend, number, pen, test};

mod form;
mod slots;

// How many of n slots are of a track.
fn count_own(slots: &[u8], bodies: &[u8], n: usize, track: usize) -> usize
    ensures { (result ≡ length (own_entries track (read n slots.now bodies.now))) × (result ≤ n) }
{
    if n == 0 {
        return 0;
    }
    let first = test::choose(number::byte(slots, 1), track, 1, 0);
    first
        + count_own(
            lend::rest(slots, edition::SLOT),
            slots::past(slots, bodies),
            n - 1,
            track,
        )
}

// Writes a body where it is of the track.
fn put_if(out: &mut [u8], at: usize, of: usize, track: usize, body: &[u8]) -> usize
    requires { at + length body.now < 2 ^ 63 }
    ensures { Put (if_eq of track body.now []) out.old at result out.new × (result ≤ at + length body.now) }
{
    if of == track {
        return pen::put_part(out, at, body);
    }
    at
}

// Writes the bodies of a track, of n slots.
fn put_own(out: &mut [u8], at: usize, slots: &[u8], bodies: &[u8], n: usize, track: usize) -> usize
    requires { at + length bodies.now < 2 ^ 63 }
    ensures { Put (bodies_text (own_entries track (read n slots.now bodies.now))) out.old at result out.new × (result ≤ at + length bodies.now) }
{
    if n == 0 {
        return at;
    }
    let a = put_if(
        out,
        at,
        number::byte(slots, 1),
        track,
        slots::body(slots, bodies),
    );
    put_own(
        out,
        a,
        lend::rest(slots, edition::SLOT),
        slots::past(slots, bodies),
        n - 1,
        track,
    )
}

// Writes the table of a track, which has `own` entries with bodies of `span` bytes in all.
fn put_table(
    out: &mut [u8],
    slots: &[u8],
    bodies: &[u8],
    n: usize,
    track: usize,
    own: usize,
    span: usize,
) -> usize
    requires { (16 + length bodies.now < 2 ^ 63) × (span < 2 ^ 63) × (own ≡ length (own_entries track (read n slots.now bodies.now))) × (span ≡ length (bodies_text (own_entries track (read n slots.now bodies.now)))) }
    ensures { Put (table_text (own_entries track (read n slots.now bodies.now))) out.old 0 result out.new }
{
    let a = pen::put_number(out, 0, 4, 16 + span);
    let b = pen::put_number(out, a, 4, codes::STSD);
    let c = pen::put_number(out, b, 4, 0);
    let d = pen::put_number(out, c, 4, own);
    put_own(out, d, slots, bodies, n, track)
}

// Of a track that has `own` entries of n slots: 24, 25, or its table is written.
fn write_own(
    slots: &[u8],
    bodies: &[u8],
    n: usize,
    track: usize,
    own: usize,
    out: &mut [u8],
) -> Answer
    requires { (16 + length bodies.now < 2 ^ 63) × (own ≡ length (own_entries track (read n slots.now bodies.now))) }
    ensures { Exact (asked ((24, in_limit (table_text (own_entries track (read n slots.now bodies.now)))) ∷ []) (gives (table_text (own_entries track (read n slots.now bodies.now))))) out.old result out.new }
{
    let mut none = [0u8; 1];
    let span = put_own(&mut none, 0, slots, bodies, n, track);
    if containers::LONGEST < 16 + span {
        return Err(refusals::TOO_LONG);
    }
    if out.len() < 16 + span {
        return Err(refusals::NO_ROOM);
    }
    Ok(put_table(out, slots, bodies, n, track, own, span))
}

// The `stsd` box of a track of a sheet.
pub fn table(sheet: &[u8], track: usize, out: &mut [u8]) -> Answer
    ensures { Exact (table_result sheet.now track) out.old result out.new }
{
    if !form::formed(sheet) {
        return Err(refusals::BAD_SHEET);
    }
    let n = number::byte(sheet, 1);
    let slots = lend::rest(sheet, edition::FRONT);
    let bodies = slots::bodies(sheet, n);
    let own = count_own(slots, bodies, n, track);
    if own == 0 {
        return Err(refusals::NO_SUCH);
    }
    write_own(slots, bodies, n, track, own, out)
}
