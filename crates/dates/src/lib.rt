// Dates: times of 1904 as people read them, in universal time.
#![tactic(auto)]

mod calendar;

ghost use Rattle.std.specs.Prelude.{◌≡◌, ◌∷◌, ◌+◌, ◌^◌, ◌≤◌, ◌<◌};
ghost use Rattle.wire.specs.Writing.{Put};
ghost use Rattle.dates.specs.Dates.{date_of};
ghost use Rattle.dates.specs.DateText.{two_digits, date_text, time_text};

use wire::pen;

// A day of the calendar, and a time of that day. Month and day are counted from 1.
#[derive(Clone, Copy)]
pub struct Date {
    pub year: usize,
    pub month: usize,
    pub day: usize,
    pub hour: usize,
    pub minute: usize,
    pub second: usize,
}

// The date of a time.
pub fn date_of(t: u32) -> Date
    ensures { result ≡ date_of t }
{
    let days = t as usize / 86400;
    let seconds = t as usize % 86400;
    let y = calendar::fall_in_years(days);
    let year = 1904 + y.span;
    let m = calendar::fall_in_months(year, y.since);
    Date {
        year,
        month: m.span,
        day: 1 + m.since,
        hour: seconds / 3600,
        minute: seconds / 60 % 60,
        second: seconds % 60,
    }
}

// Two digits.
fn put_two(out: &mut [u8], at: usize, n: usize) -> usize
    requires { at + 2 < 2 ^ 63 }
    ensures { Put (two_digits n) out.old at result out.new }
{
    let digits = [(48 + n / 10 % 10) as u8, (48 + n % 10) as u8];
    pen::put_part(out, at, &digits)
}

// A mark, and then two digits.
fn put_marked(out: &mut [u8], at: usize, mark: u8, n: usize) -> usize
    requires { at + 3 < 2 ^ 63 }
    ensures { Put (mark ∷ two_digits n) out.old at result out.new }
{
    let a = pen::put_byte(out, at, mark);
    put_two(out, a, n)
}

// A date's text.
fn put_date(out: &mut [u8], at: usize, d: Date) -> usize
    requires { at < 2 ^ 62 }
    ensures { Put (date_text d) out.old at result out.new × (result ≤ at + 19) }
{
    let a = put_two(out, at, d.year / 100);
    let b = put_two(out, a, d.year % 100);
    let c = put_marked(out, b, b'-', d.month);
    let e = put_marked(out, c, b'-', d.day);
    let f = put_marked(out, e, b' ', d.hour);
    let g = put_marked(out, f, b':', d.minute);
    put_marked(out, g, b':', d.second)
}

// A time's text.
pub fn put_time(out: &mut [u8], at: usize, t: u32) -> usize
    requires { at < 2 ^ 62 }
    ensures { Put (time_text t) out.old at result out.new × (result ≤ at + 19) }
{
    if t == 0 {
        return pen::put_part(out, at, b"no time");
    }
    let d = date_of(t);
    put_date(out, at, d)
}
