// The calendar of the scheme: day numbers and dates, each from the other, and the scheme month of a day.

#![tactic(auto)]

mod dates;

ghost use Rattle.std.specs.Prelude.{◌≡◌};
ghost use Rattle.refusals.specs.Numbers.{by_number};
ghost use Rattle.calendar.specs.Days.{unpacked, scheme_month};
ghost use Rattle.calendar.specs.Answers.{date_of_day, day_answer, date_answer};

use dates::DATES;
use limits::DAY_COUNT;
use refusals::Refusal;

// April 2023, the first scheme month, in months counted from year 0.
const FIRST_MONTH: u32 = 12 * 2023 + 4;

// A date of the calendar.
#[derive(Clone, Copy, Debug, PartialEq, Eq)]
pub struct CalendarDate {
    pub year: u32,
    pub month: u32,
    pub day: u32,
}

// The date that a packed date stands for. No `From<u16>`: few numbers of 16 bits are packed dates, and other crates would see it.
fn unpacked(entry: u16) -> CalendarDate
    ensures { result ≡ unpacked entry }
{
    let packed = u32::from(entry);
    CalendarDate {
        year: 2000 + packed / 512,
        month: packed / 32 % 16,
        day: packed % 32,
    }
}

// The date at a place of the table, or `None` above the last day.
fn date_at(day: u32) -> Option<CalendarDate>
    ensures { result ≡ date_of_day day }
{
    DATES.get(day as usize).map(|entry| unpacked(*entry))
}

// The day number of a date; refusal 7 where no day has the date.
pub fn day(year: u32, month: u32, day: u32) -> Result<u32, Refusal>
    ensures { by_number result ≡ day_answer year month day }
{
    let wanted = CalendarDate { year, month, day };
    (0..DAY_COUNT)
        .find(|number| date_at(*number) == Some(wanted))
        .ok_or(Refusal::BadDay)
}

// The date of a day number; refusal 7 above the last day.
pub fn date(day: u32) -> Result<CalendarDate, Refusal>
    ensures { by_number result ≡ date_answer day }
{
    date_at(day).ok_or(Refusal::BadDay)
}

// The scheme month of a day: 0 for April 2023 to 11 for March 2024, and 0 for any day outside them.
pub fn scheme_month(day: u32) -> u32
    ensures { result ≡ scheme_month day }
{
    match date_at(day) {
        Some(date) => (12 * date.year + date.month).saturating_sub(FIRST_MONTH),
        None => 0,
    }
}
