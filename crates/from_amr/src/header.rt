// The headers of the movie and of the track.
ghost use Rattle.std.specs.Prelude.{◌≡◌, [], ◌∷◌, ◌+◌, ◌^◌, ◌<◌};
ghost use Rattle.codes.specs.Codes.{MVHD, TKHD};
ghost use Rattle.wire.specs.Writing.{Put};
ghost use Rattle.boxes.specs.Box.{plain_box, write};
ghost use Rattle.from_amr.specs.Fields.{fields};
ghost use Rattle.from_amr.specs.Boxes.{mvhd as mvhd_of, tkhd as tkhd_of};

use crate::field;
use boxes::walk::Form;
use boxes::way;

// The unit matrix.
fn put_matrix(out: &mut [u8], at: usize) -> usize
    requires { at < 2 ^ 45 }
    ensures { Put (fields (4 ∷ 0x00010000 ∷ 12 ∷ 0 ∷ 4 ∷ 0x00010000 ∷ 12 ∷ 0 ∷ 4 ∷ 0x40000000 ∷ [])) out.old at result out.new
        × (result ≡ at + 36) }
{
    field::put_fields(
        out,
        at,
        &[4, 0x00010000, 12, 0, 4, 0x00010000, 12, 0, 4, 0x40000000],
        0,
    )
}

// The movie's header.
pub fn put_mvhd(out: &mut [u8], at: usize, scale: usize, ticks: usize) -> usize
    requires { at < 2 ^ 40 }
    ensures { Put (write (plain_box MVHD (mvhd_of scale ticks) ∷ [])) out.old at result out.new × (result ≡ at + 108) }
{
    let a = field::put_fields(out, at + 8, &[4, 0, 8, 0, 4, scale, 4, ticks], 0);
    let b = field::put_fields(out, a, &[4, 0x00010000, 2, 0x0100, 10, 0], 0);
    let c = put_matrix(out, b);
    let r = field::put_fields(out, c, &[24, 0, 4, 2], 0);
    way::put_header(out, at, r, Form::Plain, codes::MVHD);
    r
}

// The track's header.
pub fn put_tkhd(out: &mut [u8], at: usize, ticks: usize) -> usize
    requires { at < 2 ^ 40 }
    ensures { Put (write (plain_box TKHD (tkhd_of ticks) ∷ [])) out.old at result out.new × (result ≡ at + 92) }
{
    let a = field::put_fields(out, at + 8, &[4, 7, 8, 0, 4, 1, 4, 0, 4, ticks], 0);
    let b = field::put_fields(out, a, &[8, 0, 4, 0, 2, 0x0100, 2, 0], 0);
    let c = put_matrix(out, b);
    let r = field::put_fields(out, c, &[8, 0], 0);
    way::put_header(out, at, r, Form::Plain, codes::TKHD);
    r
}
