// The slots of a sheet and the bodies that follow them. A slot is read blindly: what it says may be wrong.
ghost use Rattle.std.specs.Prelude.{◌≡◌, [], ◌∷◌, ◌++◌, ◌+◌, ◌*◌, ◌≤◌, ◌<◌, length, take, drop};
ghost use Rattle.wire.specs.Numbers.{word};
ghost use Rattle.wire.specs.Writing.{Put};
ghost use Rattle.sheet.specs.Sheet.{edition_for, bodies_at, slot_of, slots as slots_text, bodies as bodies_text};
ghost use Rattle.sheet_table.specs.Form.{first_of, read};

use entry_heads::kind;
use sheet::edition;
use sheet::edition::SLOT;
use wire::{lend, number};

// The bodies of a sheet of n entries.
pub fn bodies(sheet: &[u8], n: usize) -> &[u8]
    ensures { result.now ≡ drop (bodies_at (edition_for n)) sheet.now }
{
    lend::rest(sheet, edition::bodies_at(n))
}

// The body of the first slot.
pub fn body<'a>(slots: &[u8], bodies: &'a [u8]) -> &'a [u8]
    ensures { result.now ≡ take (word 4 slots.now 8) bodies.now }
{
    lend::front(bodies, number::word32(slots, 8))
}

// The bodies past that of the first slot.
pub fn past<'a>(slots: &[u8], bodies: &'a [u8]) -> &'a [u8]
    ensures { result.now ≡ drop (word 4 slots.now 8) bodies.now }
{
    lend::rest(bodies, number::word32(slots, 8))
}

// The length of the bodies of n slots.
pub fn size(slots: &[u8], bodies: &[u8], n: usize) -> usize
    ensures { (result ≡ length (bodies_text (read n slots.now bodies.now))) × (result ≤ length bodies.now) }
{
    if n == 0 {
        return 0;
    }
    let first = body(slots, bodies).len();
    first + size(lend::rest(slots, SLOT), past(slots, bodies), n - 1)
}

// Writes the first slot as it should be.
fn put_first(out: &mut [u8], at: usize, slots: &[u8], bodies: &[u8]) -> usize
    requires { at < 60000 }
    ensures { Put (slot_of (first_of slots.now bodies.now)) out.old at result out.new × (result ≡ at + 12) }
{
    let first = body(slots, bodies);
    let kind = kind::of_code(number::word32(first, 4));
    sheet::put_slot(
        out,
        at,
        kind,
        number::byte(slots, 1),
        number::word32(slots, 4),
        first.len(),
    )
}

// Writes n slots as they should be.
fn put_slots(out: &mut [u8], at: usize, slots: &[u8], bodies: &[u8], n: usize) -> usize
    requires { at + 12 * n < 60000 }
    ensures { Put (slots_text (read n slots.now bodies.now)) out.old at result out.new }
{
    if n == 0 {
        return at;
    }
    let a = put_first(out, at, slots, bodies);
    put_slots(out, a, lend::rest(slots, SLOT), past(slots, bodies), n - 1)
}

// Writes the front of a sheet of n entries, up to the unused slots.
pub fn put_front(out: &mut [u8], slots: &[u8], bodies: &[u8], n: usize) -> usize
    requires { n < 256 }
    ensures { Put (((edition_for n).number ∷ n ∷ 0 ∷ 0 ∷ []) ++ slots_text (read n slots.now bodies.now)) out.old 0 result out.new }
{
    let e = edition::of_count(n);
    let a = sheet::put_two(out, 0, e.number, n);
    put_slots(out, a, slots, bodies, n)
}
