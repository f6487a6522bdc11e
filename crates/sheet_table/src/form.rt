// The form of a sheet.
ghost use Rattle.std.specs.Prelude.{◌≡◌, ◌≤◌, ◌<◌, get_or};
ghost use Rattle.std.specs.Str.{bytes_eq};
ghost use Rattle.sheet.specs.Sheet.{SLOTS, sheet as sheet_text};
ghost use Rattle.sheet_table.specs.Form.{read, unsheet, follows as follows_of, steps as steps_of, all_meet, formed as formed_of};

use crate::slots;
use entry_rules::entry;
use release::Release;
use sheet::edition;
use wire::{lend, number};

// The most tracks.
const TRACKS: usize = 4;

// Whether a slot of a track may follow one of track `last`.
#[tactic(auto, unfolding(crate::specs::Form::follows, wire::specs::Clauses::every, wire::specs::Clauses::is_le))]
fn follows(last: usize, track: usize) -> bool
    requires { last < 256 }
    ensures { result ≡ follows_of last track }
{
    last <= track && track <= last + 1 && 1 <= track && track <= TRACKS
}

// Whether the tracks of n slots go on rightly after track `last`.
fn steps(slots: &[u8], bodies: &[u8], n: usize, last: usize) -> bool
    requires { last < 256 }
    ensures { result ≡ steps_of last (read n slots.now bodies.now) }
{
    if n == 0 {
        return true;
    }
    let track = number::byte(slots, 1);
    if !follows(last, track) {
        return false;
    }
    steps(
        lend::rest(slots, edition::SLOT),
        slots::past(slots, bodies),
        n - 1,
        track,
    )
}

// Whether the bodies of n slots all meet their rule, the wider one.
fn all_meet(slots: &[u8], bodies: &[u8], n: usize) -> bool
    ensures { result ≡ all_meet (read n slots.now bodies.now) }
{
    if n == 0 {
        return true;
    }
    if !entry::entry_rule(slots::body(slots, bodies), None, Release::Release4) {
        return false;
    }
    all_meet(
        lend::rest(slots, edition::SLOT),
        slots::past(slots, bodies),
        n - 1,
    )
}

// Whether a sheet of n entries is the one that they make.
fn made(sheet: &[u8], n: usize) -> bool
    requires { (n ≡ get_or sheet.now 1 0) × (n ≤ SLOTS) }
    ensures { result ≡ bytes_eq sheet.now (sheet_text (unsheet sheet.now)) }
{
    let slots = lend::rest(sheet, edition::FRONT);
    let bodies = slots::bodies(sheet, n);
    let mut again = [0u8; edition::BODIES];
    slots::put_front(&mut again, slots, bodies, n);
    let k = edition::bodies_at(n);
    if lend::front(sheet, k) != lend::front(&again, k) {
        return false;
    }
    slots::size(slots, bodies, n) == bodies.len()
}

// Whether a sheet has the form.
pub fn formed(sheet: &[u8]) -> bool
    ensures { result ≡ formed_of sheet.now }
{
    let n = number::byte(sheet, 1);
    if n == 0 {
        return false;
    }
    if edition::SLOTS < n {
        return false;
    }
    if !made(sheet, n) {
        return false;
    }
    let slots = lend::rest(sheet, edition::FRONT);
    let bodies = slots::bodies(sheet, n);
    if !steps(slots, bodies, n, 0) {
        return false;
    }
    all_meet(slots, bodies, n)
}
