// Boxes by their fields. A total writer asks for no room: it answers the place past what it writes, fit or not.
ghost use Rattle.std.specs.Prelude.{◌≡◌, [], ◌∷◌, ◌+◌, ◌^◌, ◌≤◌, ◌<◌, length, drop};
ghost use Rattle.wire.specs.Writing.{Put};
ghost use Rattle.boxes.specs.Box.{plain_box, write};
ghost use Rattle.from_amr.specs.Fields.{fields as fields_of, span};

use boxes::walk::Form;
use boxes::way;
use wire::pen;

// Writes numbers from the i-th of the list on: the width of each in bytes, and then the number.
pub fn put_fields(out: &mut [u8], at: usize, fields: &[usize], i: usize) -> usize
    requires { (at + span (drop i fields.now) < 2 ^ 50) × (i ≤ length fields.now) × (span (drop i fields.now) < 65536) }
    ensures { Put (fields_of (drop i fields.now)) out.old at result out.new
        × (result ≡ at + span (drop i fields.now)) }
{
    if fields.len() - i < 2 {
        return at;
    }
    let a = pen::put_number(out, at, fields[i], fields[i + 1]);
    put_fields(out, a, fields, i + 2)
}

// Writes a box of such a payload.
pub fn put_box(out: &mut [u8], at: usize, code: usize, fields: &[usize]) -> usize
    requires { (at < 2 ^ 45) × (span fields.now < 65536) }
    ensures { Put (write (plain_box code (fields_of fields.now) ∷ [])) out.old at result out.new
        × (result ≡ at + 8 + span fields.now) }
{
    let r = put_fields(out, at + 8, fields, 0);
    way::put_header(out, at, r, Form::Plain, code);
    r
}
