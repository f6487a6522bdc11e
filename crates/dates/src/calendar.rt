// Days of years and of months, and the year and the month in which a day falls.
ghost use Rattle.std.specs.Prelude.{◌≡◌, ◌^◌, ◌≤◌, ◌<◌};
ghost use Rattle.dates.specs.Calendar.{leap_days, year_days, month_days, year_span};
ghost use Rattle.dates.specs.Dates.{FallsIn};

// Of years or months one after another the one in which a day falls, and the days since its start.
#[derive(Clone, Copy)]
pub struct Fall {
    pub span: usize,
    pub since: usize,
}

// The leap days of a year.
fn leap_days(y: usize) -> usize
    ensures { (result ≡ leap_days y) × (result ≤ 1) }
{
    let leap = y % 4 == 0 && (y % 100 != 0 || y % 400 == 0);
    usize::from(leap)
}

// The days of a month, which is counted from 1.
fn month_days(y: usize, m: usize) -> usize
    requires { m < 13 }
    ensures { result ≡ month_days y m }
{
    let february = 28 + leap_days(y);
    let days = [0, 31, february, 31, 30, 31, 30, 31, 31, 30, 31, 30, 31];
    days[m]
}

// The year, from 1904 on, in which day n since the start of 1904 falls.
pub fn fall_in_years(n: usize) -> Fall
    requires { n < 2 ^ 32 }
    ensures { FallsIn year_span n result × (result.span ≤ n) }
{
    // No range: how many years it takes is what the loop finds out.
    let mut i = 0;
    let mut since = n;
    let mut days = 366;
    while days <= since {
        since -= days;
        i += 1;
        days = 365 + leap_days(1904 + i);
    }
    Fall { span: i, since }
}

// The month in which day n since the start of year y falls.
pub fn fall_in_months(y: usize, n: usize) -> Fall
    requires { n < year_days y }
    ensures { FallsIn (month_days y) n result }
{
    // Nor here.
    let mut m = 1;
    let mut since = n;
    let mut days = 31;
    while days <= since {
        since -= days;
        m += 1;
        days = month_days(y, m);
    }
    Fall { span: m, since }
}
