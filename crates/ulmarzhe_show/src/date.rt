// A date, in days of which the first is 1 January 1970, and a time of day, as people write them.
use std::fmt;

// The date and the time of day that a message has. No rule checks a radial's: values that no clock shows are written as stored.
#[derive(Clone, Copy)]
pub struct Stamp {
    pub date: u16,
    pub milliseconds: u32,
}

impl fmt::Display for Stamp {
    fn fmt<W: fmt::Write>(&self, f: &mut fmt::Formatter<W>) -> fmt::Result {
        if header_rule::breaks_time(self.date, self.milliseconds) {
            return write!(f, "day {} and {} ms", self.date, self.milliseconds);
        }
        let day = Day::numbered(self.date);
        let time = Time(self.milliseconds);
        write!(f, "{day} {time}")
    }
}

// From 1 March of the year 0 to 31 December 1969; four hundred years; a hundred; four; one.
const BEFORE: u32 = 719467;

const ERA: u32 = 146097;

const CENTURY: u32 = 36524;

const LEAP: u32 = 1460;

const YEAR: u32 = 365;

#[derive(Clone, Copy)]
struct Day {
    year: u32,
    month: u32,
    day: u32,
}

impl Day {
    // Months are counted from March, so that a leap day is a year's last.
    fn numbered(date: u16) -> Self {
        let days = u32::from(date) + BEFORE;
        let since = days % ERA;
        let year = (since + since / CENTURY - since / LEAP - since / (ERA - 1)) / YEAR;
        let left = since - (year * YEAR + year / 4 - year / 100);
        let month = (left * 5 + 2) / 153;
        Day {
            year: days / ERA * 400 + year + month / 10,
            month: (month + 2) % 12 + 1,
            day: left + 1 - (month * 153 + 2) / 5,
        }
    }
}

impl fmt::Display for Day {
    fn fmt<W: fmt::Write>(&self, f: &mut fmt::Formatter<W>) -> fmt::Result {
        write!(f, "{}-{:02}-{:02}", self.year, self.month, self.day)
    }
}

// A time of day, in milliseconds.
#[derive(Clone, Copy)]
struct Time(u32);

impl fmt::Display for Time {
    fn fmt<W: fmt::Write>(&self, f: &mut fmt::Formatter<W>) -> fmt::Result {
        let ms = self.0;
        write!(
            f,
            "{:02}:{:02}:{:02}.{:03}",
            ms / 3600000,
            ms / 60000 % 60,
            ms / 1000 % 60,
            ms % 1000
        )
    }
}
