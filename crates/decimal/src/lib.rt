// Numbers as they are printed, by total writers.
#![tactic(auto)]

ghost use Rattle.std.specs.Prelude.{◌+◌, ◌^◌, ◌≤◌, ◌<◌, length};
ghost use Rattle.wire.specs.Writing.{Put};
ghost use Rattle.decimal.specs.Decimal.{decimal, labelled};

use wire::pen;

// A number's digits, two at a time.
pub fn put_decimal(out: &mut [u8], at: usize, n: usize) -> usize
    requires { at < 2 ^ 62 }
    ensures { Put (decimal n) out.old at result out.new }
{
    if n < 10 {
        return pen::put_byte(out, at, (48 + n) as u8);
    }
    if n < 100 {
        let m = pen::put_byte(out, at, (48 + n / 10) as u8);
        return pen::put_byte(out, m, (48 + n % 10) as u8);
    }
    let m = put_decimal(out, at, n / 100);
    let k = pen::put_byte(out, m, (48 + n / 10 % 10) as u8);
    pen::put_byte(out, k, (48 + n % 10) as u8)
}

// A label, and then a number.
pub fn put_labelled(out: &mut [u8], at: usize, label: &[u8], n: usize) -> usize
    requires { at + length label.now < 2 ^ 62 }
    ensures { Put (labelled label.now n) out.old at result out.new × (result ≤ at + length label.now + 20) }
{
    let m = pen::put_part(out, at, label);
    put_decimal(out, m, n)
}
