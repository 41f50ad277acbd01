// The calendar: dates yymmdd of 1980 to 2079, calendar days, banking days, stamps that are too old.

#![tactic(auto)]

ghost use Rattle.std.specs.Prelude.{◌≡◌, ◌+◌, ◌<◌};
ghost use Rattle.calendar.specs.Dates.{leap, days_in, days_in_year, real_time, place_in_order, is_real, is_before, year_of, month_of, day_of, years_before};
ghost use Rattle.calendar.specs.Dates.{months_before, day_number, in_year, date_of, later};
ghost use Rattle.calendar.specs.Banking.{weekday, banking_day, more_than, too_old, first_good, earliest_good};

// A date as it is written, yymmdd. The order of dates is `before`, and not that of the numbers.
#[derive(Clone, Copy, Debug, PartialEq, Eq)]
pub struct Date {
    pub yymmdd: u32,
}

// The two counts, which are never added together or compared: a date is moved on by the one, and its age is told by the other.
#[derive(Clone, Copy, Debug, PartialEq, Eq, PartialOrd, Ord)]
pub struct CalendarDays(pub u32);

#[derive(Clone, Copy, Debug, PartialEq, Eq, PartialOrd, Ord)]
pub struct BankingDays(pub u32);

// A stamp is too old once more banking days than these lie after its date.
const TOO_OLD_AFTER: BankingDays = BankingDays(5);

// Whether a time hhmmss is real.
#[tactic(auto, unfolding(crate::specs::Dates::real_time, ground::specs::Choice::both))]
pub fn is_real_time(hhmmss: u32) -> bool
    ensures { result ≡ real_time hhmmss }
{
    hhmmss < 240000 && hhmmss / 100 % 100 < 60 && hhmmss % 100 < 60
}

// Whether a year is a leap year.
#[tactic(auto, unfolding(crate::specs::Dates::leap, ground::specs::Choice::both, ground::specs::Choice::either, ground::specs::Choice::fails))]
fn is_leap(y: u64) -> bool
    ensures { result ≡ leap y }
{
    (y % 4 == 0 && y % 100 != 0) || y % 400 == 0
}

// The days of month m of the year y; a month that is none has no days.
#[tactic(auto, unfolding(crate::specs::Dates::days_in, ground::specs::Choice::both, ground::specs::Choice::one))]
fn days_in(y: u64, m: u64) -> u64
    ensures { result ≡ days_in y m }
{
    match m {
        2 if is_leap(y) => 29,
        2 => 28,
        4 | 6 | 9 | 11 => 30,
        1..=12 => 31,
        _ => 0,
    }
}

#[tactic(auto, unfolding(ground::specs::Choice::one))]
fn days_in_year(y: u64) -> u64
    ensures { result ≡ days_in_year y }
{
    365 + u64::from(is_leap(y))
}

// The days of the first n years from 1980 on.
#[tactic(auto, using(crate::proofs::Months::year_sums))]
fn years_before(n: u64) -> u64
    requires { n < 100 }
    ensures { result ≡ years_before n }
{
    let mut days = 0;
    for i in 0..n {
        days += days_in_year(1980 + i);
    }
    days
}

// The days of the year y that come before month m.
#[tactic(auto, using(crate::proofs::Months::month_sums))]
fn months_before(y: u64, m: u64) -> u64
    requires { m < 100 }
    ensures { result ≡ months_before y m }
{
    let mut days = 0;
    for i in 0..m {
        days += days_in(y, i);
    }
    days
}

// Month and day, mmdd, of day k of the year y, counted from 0.
#[tactic(auto, using(crate::proofs::Months::month_walk))]
fn in_year(y: u64, k: u64) -> u64
    ensures { result ≡ in_year y 1 k 12 }
{
    let mut left = k;
    for m in 1..13 {
        let n = days_in(y, m);
        if left < n {
            return 100 * m + left + 1;
        }
        left -= n;
    }
    1231
}

// The date of a day's number: 791231 for any day beyond that.
#[tactic(auto, using(crate::proofs::Months::year_walk), unfolding(crate::specs::Dates::date_of))]
pub fn date_of(k: u64) -> Date
    ensures { result.yymmdd ≡ date_of k }
{
    let mut left = k;
    for y in 1980..2080 {
        let n = days_in_year(y);
        if left < n {
            let d = 10000 * (y % 100) + in_year(y, left);
            return Date { yymmdd: d as u32 };
        }
        left -= n;
    }
    Date { yymmdd: 791231 }
}

// Whether day k is Monday to Friday and no holiday.
#[tactic(auto, unfolding(crate::specs::Banking::banking_day, ground::specs::Choice::both, ground::specs::Choice::fails), using(ground::proofs::Std::member_is))]
fn is_banking(k: u64, holidays: &[u32]) -> bool
    requires { k < 40000 }
    ensures { result ≡ banking_day holidays.now k }
{
    (k + 1) % 7 < 5 && !holidays.contains(&date_of(k).yymmdd)
}

impl BankingDays {
    // One banking day more.
    fn next(self) -> BankingDays
        requires { self.0 < 40000 }
        ensures { result.0 ≡ self.0 + 1 }
    {
        BankingDays(self.0 + 1)
    }

    // Whether these are more banking days than the others.
    pub fn is_more_than(self, other: BankingDays) -> bool
        ensures { result ≡ more_than self other }
    {
        self > other
    }
}

// The first day that is not too old on day t: back from t until a sixth banking day is met.
#[tactic(auto, using(crate::proofs::Old::back))]
fn first_good(t: u64, holidays: &[u32]) -> u64
    requires { t < 40000 }
    ensures { result ≡ first_good holidays.now t 0 t }
{
    let mut met = BankingDays(0);
    for k in (1..=t).rev() {
        if is_banking(k, holidays) {
            met = met.next();
            if met.is_more_than(TOO_OLD_AFTER) {
                return k;
            }
        }
    }
    0
}

// Where a date stands in order: by the year from 1980 on, then month and day.
fn place_in_order(d: u32) -> u32
    ensures { result ≡ place_in_order d }
{
    (d % 1000000 + 200000) % 1000000
}

impl Date {
    fn year(self) -> u64
        ensures { result ≡ year_of self.yymmdd }
    {
        1980 + (u64::from(self.yymmdd) / 10000 + 20) % 100
    }

    fn month(self) -> u64
        ensures { result ≡ month_of self.yymmdd }
    {
        u64::from(self.yymmdd) / 100 % 100
    }

    fn day(self) -> u64
        ensures { result ≡ day_of self.yymmdd }
    {
        u64::from(self.yymmdd) % 100
    }

    // Whether this is a date of the calendar.
    #[tactic(auto, unfolding(crate::specs::Dates::real_date, ground::specs::Choice::both, ground::specs::Choice::between))]
    pub fn is_real(self) -> bool
        ensures { result ≡ is_real self }
    {
        self.yymmdd < 1000000
            && (1..=12).contains(&self.month())
            && (1..=days_in(self.year(), self.month())).contains(&self.day())
    }

    // Whether this date comes before the other, 991231 before 000101.
    #[tactic(auto, unfolding(crate::specs::Dates::earlier))]
    pub fn before(self, other: Date) -> bool
        ensures { result ≡ is_before self other }
    {
        place_in_order(self.yymmdd) < place_in_order(other.yymmdd)
    }

    // Days from 800101 on, which is day 0.
    #[tactic(auto, using(crate::proofs::Days::few_days), unfolding(crate::specs::Dates::day_number))]
    pub fn day_number(self) -> u64
        ensures { result ≡ day_number self.yymmdd }
    {
        let y = self.year();
        let days = years_before(y - 1980) + months_before(y, self.month()) + self.day();
        days.saturating_sub(1)
    }

    // 0 is Monday and 6 Sunday.
    #[tactic(auto, using(crate::proofs::Days::few_days))]
    pub fn weekday_of(self) -> u64
        ensures { result ≡ weekday (day_number self.yymmdd) }
    {
        (self.day_number() + 1) % 7
    }

    // The date so many calendar days later, 791231 at the latest.
    #[tactic(auto, using(crate::proofs::Days::few_days), unfolding(crate::specs::Dates::later))]
    pub fn plus(self, days: CalendarDays) -> Date
        ensures { result ≡ later self days }
    {
        date_of(self.day_number() + u64::from(days.0))
    }

    // Whether more than five banking days lie after this date, up to today.
    #[tactic(auto, using(crate::proofs::Days::few_days, crate::proofs::Old::ahead))]
    pub fn is_too_old(self, today: Date, holidays: &[u32]) -> bool
        ensures { result ≡ too_old holidays.now self today }
    {
        let mut met = BankingDays(0);
        for k in self.day_number()..today.day_number() {
            if is_banking(k + 1, holidays) {
                met = met.next();
                if met.is_more_than(TOO_OLD_AFTER) {
                    return true;
                }
            }
        }
        false
    }

    // The earliest date that is not too old on this one.
    #[tactic(auto, using(crate::proofs::Days::few_days), unfolding(crate::specs::Banking::earliest_good))]
    pub fn earliest_good(self, holidays: &[u32]) -> Date
        ensures { result ≡ earliest_good holidays.now self }
    {
        date_of(first_good(self.day_number(), holidays))
    }
}
