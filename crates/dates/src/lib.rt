// Dates, each a number YYYYMMDD: which numbers are dates, day numbers, the days left, and the notice that they give.
#![tactic(auto)]

ghost use Rattle.std.specs.Prelude.{◌≡◌, ◌≤◌};
ghost use Rattle.dates.specs.Calendar.{is_leap, days_in, within, is_date, days_before_month, day_number};
ghost use Rattle.dates.specs.Notice.{days_left, is_days, notice_of, notice_number};

// What an expiry says today, each with the number that comes back for it.
#[derive(Clone, Copy)]
pub enum Notice {
    Current = 0,
    Soon = 20,
    Expired = 15,
}

#[tactic(auto, unfolding(crate::specs::Calendar::is_leap))]
fn is_leap(year: u32) -> bool
    ensures { result ≡ is_leap year }
{
    year % 4 == 0 && year % 100 != 0 || year % 400 == 0
}

#[tactic(auto, using(crate::proofs::Months::february, crate::proofs::Months::thirty, crate::proofs::Months::thirty_one))]
fn days_in(year: u32, month: u32) -> u32
    requires { (1 ≤ month) × (month ≤ 12) }
    ensures { result ≡ days_in year month }
{
    match month {
        2 => { if is_leap(year) { 29 } else { 28 } }
        4 | 6 | 9 | 11 => 30,
        _ => 31,
    }
}

#[tactic(auto, unfolding(crate::specs::Calendar::within))]
fn within(low: u32, high: u32, n: u32) -> bool
    ensures { result ≡ within low high n }
{
    low <= n && n <= high
}

// Whether a number is a date of the years 1900 to 2999. Every month has 28 days: its length is asked for beyond them alone.
#[tactic(auto, using(crate::proofs::Months::early_day, crate::proofs::Months::late_day, crate::proofs::Bounds::bounds), unfolding(crate::specs::Calendar::is_date, crate::specs::Calendar::year, crate::specs::Calendar::month, crate::specs::Calendar::day))]
pub fn is_date(date: u32) -> bool
    ensures { result ≡ is_date date }
{
    let year = date / 10000;
    let month = date / 100 % 100;
    if !within(1900, 2999, year) {
        return false;
    }
    if !within(1, 12, month) {
        return false;
    }
    let day = date % 100;
    if day < 29 {
        return 1 <= day;
    }
    day <= days_in(year, month)
}

// From March on a month starts a day or two earlier than if February had 30 days.
fn days_before_month(year: u32, month: u32) -> u32
    requires { (1 ≤ month) × (month ≤ 12) }
    ensures { result ≡ days_before_month year month }
{
    let days = (367 * month - 362) / 12;
    if month <= 2 {
        return days;
    }
    if is_leap(year) { days - 1 } else { days - 2 }
}

// Dates in their order have day numbers in theirs, with no gap; a number that is no date has 0, by which the definition counts days left from any number.
#[tactic(auto, using(crate::proofs::Parts::date_parts, crate::proofs::Parts::number_of_date, crate::proofs::Parts::number_of_none, crate::proofs::Months::month_start_small), unfolding(crate::specs::Calendar::year, crate::specs::Calendar::month, crate::specs::Calendar::day, crate::specs::Calendar::multiples_below, crate::specs::Calendar::days_before_year))]
pub fn day_number(date: u32) -> u32
    ensures { result ≡ day_number date }
{
    if !is_date(date) {
        return 0;
    }
    let year = date / 10000;
    let leaps = (year + 3) / 4 + (year + 399) / 400 - (year + 99) / 100;
    let before = days_before_month(year, date / 100 % 100);
    365 * year + leaps + before + date % 100
}

// The days until an expiry, which are below zero once it has passed.
#[tactic(auto, using(crate::proofs::Left::number_small, std::proofs::lemmas::Int::ints), unfolding(crate::specs::Notice::days_left))]
pub fn days_left(today: u32, expiry: u32) -> i32
    ensures { result ≡ days_left today expiry }
{
    day_number(expiry) as i32 - day_number(today) as i32
}

// Whether a number is warning days.
#[tactic(auto, unfolding(crate::specs::Notice::is_days))]
pub fn is_days(days: u32) -> bool
    ensures { result ≡ is_days days }
{
    1 <= days && days <= 90
}

// A subscription (service level 0) is expired once the date has passed, and soon while less than the warning days are left.
#[tactic(auto, using(crate::proofs::Levels::no_subscription))]
pub fn notice_of(level: u32, today: u32, expiry: u32, days: u32) -> Notice
    ensures { result ≡ notice_of level (days_left today expiry) days }
{
    if 0 < level {
        return Notice::Current;
    }
    let Ok(left) = u32::try_from(days_left(today, expiry)) else {
        return Notice::Expired;
    };
    if left < days {
        Notice::Soon
    } else {
        Notice::Current
    }
}

// The number that comes back for a notice.
pub fn notice_number(notice: Notice) -> u32
    ensures { result ≡ notice_number notice }
{
    notice as u32
}
