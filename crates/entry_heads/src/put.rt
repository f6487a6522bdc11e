// A total writer of the header of a box.
ghost use Rattle.std.specs.Prelude.{◌≡◌, ◌+◌, ◌<◌};
ghost use Rattle.wire.specs.Writing.{Put};
ghost use Rattle.entry_heads.specs.Heads.{box_header};

use wire::pen;

// Writes the header of a box.
pub fn header(out: &mut [u8], at: usize, span: usize, code: usize) -> usize
    requires { at < 65000 }
    ensures { Put (box_header span code) out.old at result out.new × (result ≡ at + 8) }
{
    let a = pen::put_number(out, at, 4, span);
    pen::put_number(out, a, 4, code)
}
