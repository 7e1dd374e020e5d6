// Moments, and the value that each kind of fact has for one.
#![tactic(auto)]

mod fields;
mod offsets;

ghost use Rattle.std.specs.Prelude.{◌≡◌, ◌<◌, ◌^◌, nat_abs};
ghost use Rattle.values.specs.Moments.{moment_of};
ghost use Rattle.values.specs.Offsets.{seconds};
ghost use Rattle.values.specs.Values.{date_value, hour_of_twelve, half_of_day, hour_value, value};

use calendar::Date;
pub use fields::Field;
use offsets::is_offset;
pub use offsets::{is_negative, magnitude, offset_of};

#[derive(Clone, Copy)]
pub struct Moment {
    pub date: Date,
    pub hour: u8,
    pub minute: u8,
    pub second: u8,
    pub offset: Option<i32>,
}

impl Moment {
    // The moment with these fields, or the first bad one.
    #[tactic(auto, unfolding(crate::specs::Moments::computes, calendar::specs::Dates::computes, calendar::specs::Calendar::date_fault))]
    pub fn from_fields(
        year: u32,
        month: u32,
        day: u32,
        hour: u32,
        minute: u32,
        second: u32,
        offset: Option<i32>,
    ) -> Result<Moment, Field>
        ensures { result ≡ moment_of year month day hour minute second offset }
    {
        let date = Date::from_fields(year, month, day)?;
        if 23 < hour {
            return Err(Field::Hour);
        }
        if 59 < minute {
            return Err(Field::Minute);
        }
        if 60 < second {
            return Err(Field::Second);
        }
        if !is_offset(offset) {
            return Err(Field::Offset);
        }
        Ok(Moment {
            date,
            hour: hour as u8,
            minute: minute as u8,
            second: second as u8,
            offset,
        })
    }

    // The value of a kind of fact.
    #[tactic(auto, unfolding(crate::specs::Values::value))]
    pub fn value(self, kind: u32) -> u32
        ensures { result ≡ value kind self }
    {
        if kind <= kinds::LAST_DAY_KIND {
            return date_value(kind, self.date);
        }
        if kind <= kinds::LAST_HOUR_KIND {
            return hour_value(kind, self.hour as u32);
        }
        match kind {
            kinds::MINUTE => self.minute as u32,
            kinds::SECOND => self.second as u32,
            _ => 0,
        }
    }

    // Whole seconds from 1970-01-01 00:00:00 UTC, where the moment is so many minutes east of UTC. For every date and every number of
    // minutes they have at most 15 digits, which whoever writes them wants to know.
    pub fn seconds(self, east: i32) -> i64
        ensures value { result ≡ seconds self east }
        ensures small { nat_abs result < 10 ^ 15 }
    {
        let days = self.date.day_number() as i64 - EPOCH;
        let minutes = self.minute as i64 - east as i64;
        86400 * days + 3600 * self.hour as i64 + 60 * minutes + self.second as i64
    }
}

// The day number of 1970-01-01.
const EPOCH: i64 = 719163;

// The value of a kind that bears on the day.
#[tactic(auto, unfolding(crate::specs::Values::date_value, crate::specs::Values::date_values))]
pub fn date_value(kind: u32, date: Date) -> u32
    ensures { result ≡ date_value kind date }
{
    match kind {
        kinds::YEAR => date.year as u32,
        kinds::CENTURY => date.year as u32 / 100,
        kinds::YEAR_IN_CENTURY => date.year as u32 % 100,
        kinds::MONTH => date.month as u32,
        kinds::DAY => date.day as u32,
        kinds::DAY_OF_YEAR => date.day_of_year(),
        kinds::WEEKDAY => date.weekday(),
        kinds::SUNDAY_WEEK => date.sunday_week(),
        kinds::MONDAY_WEEK => date.monday_week(),
        kinds::ISO_YEAR => date.iso_year(),
        kinds::ISO_YEAR_IN_CENTURY => date.iso_year() % 100,
        kinds::ISO_WEEK => date.iso_week(),
        _ => 0,
    }
}

#[tactic(auto, unfolding(crate::specs::Values::hour_of_twelve))]
pub fn hour_of_twelve(hour: u32) -> u32
    ensures { result ≡ hour_of_twelve hour }
{
    if hour % 12 == 0 { 12 } else { hour % 12 }
}

#[tactic(auto, unfolding(crate::specs::Values::half_of_day))]
pub fn half_of_day(hour: u32) -> u32
    ensures { result ≡ half_of_day hour }
{
    u32::from(12 <= hour)
}

// The value of a kind that bears on the hour.
#[tactic(auto, unfolding(crate::specs::Values::hour_value))]
pub fn hour_value(kind: u32, hour: u32) -> u32
    ensures { result ≡ hour_value kind hour }
{
    match kind {
        kinds::HOUR => hour,
        kinds::HOUR_OF_TWELVE => hour_of_twelve(hour),
        kinds::HALF_OF_DAY => half_of_day(hour),
        _ => 0,
    }
}
