// Writers of one line and its parts. Each answers the place past its text, fit or not.
ghost use Rattle.std.specs.Prelude.{◌≡◌, ◌+◌, ◌^◌, ◌≤◌, ◌<◌, map};
ghost use Rattle.wire.specs.Clauses.{every};
ghost use Rattle.wire.specs.Numbers.{bytes};
ghost use Rattle.wire.specs.Writing.{Put};
ghost use Rattle.outline.specs.Lines.{prints as prints_of, digit as digit_of, hex, code_printed, box_text, broken_text};

use decimal::put_labelled;
use wire::pen;

// Whether a byte prints as it is.
#[tactic(auto, unfolding(wire::specs::Clauses::every, wire::specs::Clauses::is_le))]
fn prints(b: usize) -> bool
    ensures { result ≡ prints_of b }
{
    0x20 <= b && b <= 0x7E
}

// Whether every byte of a code does.
#[tactic(auto, unfolding(wire::specs::Clauses::every, wire::specs::Numbers::bytes, wire::specs::Numbers::bytes_on))]
fn all_print(c: usize) -> bool
    ensures { result ≡ every (map prints_of (bytes 4 c)) }
{
    prints(c / 256 / 256 / 256 % 256)
        && prints(c / 256 / 256 % 256)
        && prints(c / 256 % 256)
        && prints(c % 256)
}

// A digit of base 16.
fn digit(n: usize) -> usize
    requires { n < 16 }
    ensures { (result ≡ digit_of n) × (result < 256) }
{
    if n < 10 {
        return 48 + n;
    }
    55 + n
}

// The last w digits of a number.
fn put_hex(out: &mut [u8], at: usize, w: usize, n: usize) -> usize
    requires { (at < 2 ^ 62) × (w < 2 ^ 16) }
    ensures { Put (hex w n) out.old at result out.new × (result ≡ at + w) }
{
    if w == 0 {
        return at;
    }
    let m = put_hex(out, at, w - 1, n / 16);
    pen::put_byte(out, m, digit(n % 16) as u8)
}

// A code as it stands, or as a number.
fn put_code(out: &mut [u8], at: usize, c: usize) -> usize
    requires { at < 2 ^ 61 }
    ensures { Put (code_printed c) out.old at result out.new × (result ≤ at + 10) }
{
    if all_print(c) {
        return pen::put_number(out, at, 4, c);
    }
    let m = pen::put_part(out, at, b"0x");
    put_hex(out, m, 8, c)
}

// The line of a box.
pub fn put_box(
    out: &mut [u8],
    at: usize,
    c: usize,
    place: usize,
    span: usize,
    depth: usize,
) -> usize
    requires { at < 2 ^ 60 }
    ensures { Put (box_text c place span depth) out.old at result out.new × (result ≤ at + 100) }
{
    let a = pen::put_part(out, at, b"box ");
    let b = put_code(out, a, c);
    let d = put_labelled(out, b, b" place ", place);
    let e = put_labelled(out, d, b" size ", span);
    let f = put_labelled(out, e, b" depth ", depth);
    pen::put_part(out, f, b"\n")
}

// The line of a place at which a box doesn't fit.
pub fn put_broken(out: &mut [u8], at: usize, place: usize) -> usize
    requires { at < 2 ^ 61 }
    ensures { Put (broken_text place) out.old at result out.new × (result ≤ at + 40) }
{
    let a = put_labelled(out, at, b"broken place ", place);
    pen::put_part(out, a, b"\n")
}
