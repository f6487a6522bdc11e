// Tables: a stored count, and items of one width.
ghost use Rattle.std.specs.Prelude.{◌≡◌, ◌+◌, ◌^◌, ◌≤◌, ◌<◌};
ghost use Rattle.sample_tables.specs.Tables.{Table, has_form, table_form, items as items_of, field as field_of};

use wire::number;

// Whether a payload has version byte 0 and the given length.
pub fn has_form(part: &[u8], long: usize) -> bool
    ensures { result ≡ has_form long part.now }
{
    number::byte(part, 0) == 0 && part.len() == long
}

// The stored count.
pub fn items(part: &[u8]) -> usize
    ensures { (result ≡ items_of part.now) × (result < 2 ^ 32) }
{
    number::word32(part, 4)
}

// Whether a table has rule 6's form. No item is read for it.
pub fn table_form(part: &[u8], width: usize) -> bool
    requires { width ≤ 12 }
    ensures { result ≡ table_form width part.now }
{
    has_form(part, 8 + width * items(part))
}

// The number at byte j of item i.
pub fn field(part: &[u8], width: usize, j: usize, i: usize) -> usize
    requires { Table width part.now × (j + 4 ≤ width) × (i < items_of part.now) }
    ensures { (result ≡ field_of width j part.now i) × (result < 2 ^ 32) }
{
    number::word32_in(part, 8 + j + width * i)
}
