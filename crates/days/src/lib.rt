// The days of a month, by the Gregorian leap rule, for every year from 0.
#![tactic(auto)]

ghost use Rattle.std.specs.Prelude.{◌≡◌};
ghost use Rattle.days.specs.Days.{leap, days_in};

#[tactic(auto, unfolding(crate::specs::Days::leap))]
fn leap_year(year: u16) -> bool
    ensures { result ≡ leap year }
{
    year % 4 == 0 && (year % 100 != 0 || year % 400 == 0)
}

// 31 where the month is none of the twelve.
#[tactic(auto, unfolding(crate::specs::Days::days_in))]
pub fn days_in(year: u16, month: u8) -> u8
    ensures { result ≡ days_in year month }
{
    match month {
        2 if leap_year(year) => 29,
        2 => 28,
        4 | 6 | 9 | 11 => 30,
        _ => 31,
    }
}
