// The kinds of fact, by their numbers (RULES 7).
#![tactic(auto)]

pub const YEAR: u32 = 1;

pub const CENTURY: u32 = 2;

pub const YEAR_IN_CENTURY: u32 = 3;

pub const MONTH: u32 = 4;

pub const DAY: u32 = 5;

pub const DAY_OF_YEAR: u32 = 6;

pub const WEEKDAY: u32 = 7;

pub const SUNDAY_WEEK: u32 = 8;

pub const MONDAY_WEEK: u32 = 9;

pub const ISO_YEAR: u32 = 10;

pub const ISO_YEAR_IN_CENTURY: u32 = 11;

pub const ISO_WEEK: u32 = 12;

pub const HOUR: u32 = 13;

pub const HOUR_OF_TWELVE: u32 = 14;

pub const HALF_OF_DAY: u32 = 15;

pub const MINUTE: u32 = 16;

pub const SECOND: u32 = 17;

pub const ZONE_OFFSET: u32 = 18;

// How many entries an array has that is indexed by kind; there is no kind 0.
pub const KINDS: usize = 19;

// The kinds that bear on the day, and those that bear on the hour: the first and the last.
pub const FIRST_DAY_KIND: u32 = YEAR;

pub const LAST_DAY_KIND: u32 = ISO_WEEK;

pub const FIRST_HOUR_KIND: u32 = HOUR;

pub const LAST_HOUR_KIND: u32 = HALF_OF_DAY;
