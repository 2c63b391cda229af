// Clutter filter maps shown to people: a code in words, and what two maps differ by.
use crate::why::Refused;
use compare::{Comparison, MOST};
use std::fmt;
use ulmarzhe_text::output::Output;
use ulmarzhe_text::page::{PAGE, Page};
use wire::refusal::Refusal;

// A byte more than the longest map has: a file that is cut off here is refused as the whole would be.
pub const LONG: usize = 147607;

const MEANINGS: [&str; 3] = ["bypass filter", "bypass map in control", "force filter"];

fn meaning(code: u16) -> &'static str {
    MEANINGS.get(usize::from(code)).copied().unwrap_or_default()
}

// The code at a place, in words.
pub fn show_code(answer: Result<u16, Refusal>, out: &mut Output) {
    match answer {
        Ok(code) => write!(out.page, "code {code}, {}\n", meaning(code)),
        Err(why) => {
            write!(out.page, "{}\n", Refused(why));
            out.refuse();
        }
    }
}

// From one code to another.
#[derive(Clone, Copy)]
struct Change {
    old: u16,
    new: u16,
}

impl Change {
    fn row(self) -> usize {
        usize::from(self.old) * usize::from(CODES) + usize::from(self.new)
    }

    fn of_row(row: u16) -> Self {
        Change {
            old: row / CODES,
            new: row % CODES,
        }
    }
}

impl fmt::Display for Change {
    fn fmt<W: fmt::Write>(&self, f: &mut fmt::Formatter<W>) -> fmt::Result {
        write!(f, "{}, now {}", meaning(self.old), meaning(self.new))
    }
}

// Numbers from one to another, behind the word for them.
#[derive(Clone, Copy)]
struct Range {
    what: &'static str,
    first: u16,
    last: u16,
}

impl Range {
    fn length(self) -> u64 {
        if self.last < self.first {
            return 0;
        }
        u64::from(self.last - self.first) + 1
    }
}

impl fmt::Display for Range {
    fn fmt<W: fmt::Write>(&self, f: &mut fmt::Formatter<W>) -> fmt::Result {
        let Range { what, first, last } = *self;
        if first == last {
            return write!(f, "{what} {first}");
        }
        write!(f, "{what}s {first} to {last}")
    }
}

#[derive(Clone, Copy)]
struct Difference {
    elevation: u16,
    azimuth: u16,
    kilometres: Range,
    change: Change,
}

// As the library lists it.
impl From<[u16; 6]> for Difference {
    fn from([elevation, azimuth, first, last, old, new]: [u16; 6]) -> Self {
        Difference {
            elevation,
            azimuth,
            kilometres: Range {
                what: "kilometre",
                first,
                last,
            },
            change: Change { old, new },
        }
    }
}

impl fmt::Display for Difference {
    fn fmt<W: fmt::Write>(&self, f: &mut fmt::Formatter<W>) -> fmt::Result {
        write!(
            f,
            "elevation {}, azimuth {}, {}: {}",
            self.elevation, self.azimuth, self.kilometres, self.change
        )
    }
}

const CODES: u16 = 3;

// A table has a row for each pair of an old and a new code, and behind them one for all.
const ALL: u16 = CODES * CODES;

const ROWS: usize = ALL as usize + 1;

// It has a column for all elevation segments, and behind it one for each.
const COLUMNS: usize = 6;

// Kilometres changed.
#[derive(Clone, Copy, Default)]
struct Table {
    rows: [[u64; COLUMNS]; ROWS],
}

impl Table {
    fn count(&mut self, d: Difference) {
        let n = d.kilometres.length();
        for row in [d.change.row(), usize::from(ALL)] {
            self.add(row, 0, n);
            self.add(row, usize::from(d.elevation), n);
        }
    }

    // No difference has another code or elevation segment than those of the table.
    fn add(&mut self, row: usize, column: usize, n: u64) {
        let cell = self
            .rows
            .get_mut(row)
            .and_then(|columns| columns.get_mut(column));
        if let Some(cell) = cell {
            *cell = cell.wrapping_add(n);
        }
    }

    fn put(&self, elevations: usize, page: &mut Page) {
        write!(
            page,
            "\nkilometres changed, of 184320 (360 azimuths of 512) in an elevation segment:\n"
        );
        for elevation in 1..=elevations {
            write!(page, "{elevation:>10}");
        }
        write!(page, "       all  elevation segment\n");
        for (row, columns) in (0..=ALL).zip(&self.rows) {
            if columns[0] != 0 {
                put_row(row, columns, elevations, page);
            }
        }
    }
}

fn put_row(row: u16, columns: &[u64; COLUMNS], elevations: usize, page: &mut Page) {
    for n in columns.iter().skip(1).take(elevations) {
        write!(page, "{n:>10}");
    }
    write!(page, "{:>10}  ", columns[0]);
    match row {
        ALL => write!(page, "all\n"),
        _ => write!(page, "{}\n", Change::of_row(row)),
    }
}

// One line for each difference of two maps, then the totals. Maps differ too if one has more elevation segments.
pub fn show_differences(
    rt: &HostRuntime,
    old: &[u8],
    new: &[u8],
    list: &mut [u16; MOST],
    out: &mut Output,
) {
    match compare::compare(old, new, list) {
        Ok(c) => show_comparison(rt, c, list, out),
        Err(why) => {
            write!(out.page, "{} map, {}\n", refused_one(old), Refused(why));
            out.refuse();
        }
    }
}

// Where both maps are refused, the first one's refusal is told.
fn refused_one(old: &[u8]) -> &'static str {
    match map::check_map(old) {
        Ok(_) => "new",
        Err(_) => "old",
    }
}

fn show_comparison(rt: &HostRuntime, c: Comparison, list: &[u16; MOST], out: &mut Output) {
    let mut table = Table::default();
    for listed in list.as_chunks::<6>().0.iter().take(c.differences as usize) {
        let d = Difference::from(*listed);
        table.count(d);
        write!(out.page, "{d}\n");
        out.flush(rt, PAGE / 2);
        if out.has_failed() {
            return;
        }
    }
    put_summary(c, &table, &mut out.page);
    if c.differences != 0 || c.old_elevations != c.new_elevations {
        out.refuse();
    }
}

fn put_summary(c: Comparison, table: &Table, page: &mut Page) {
    match c.differences {
        0 => write!(page, "no difference\n"),
        1 => write!(page, "1 difference\n"),
        n => write!(page, "{n} differences\n"),
    }
    let old = c.old_elevations;
    let new = c.new_elevations;
    put_left_out(old, new, page);
    if 0 < c.differences {
        table.put(usize::from(old.min(new)), page);
    }
}

// The elevation segments that only one of the maps has.
fn put_left_out(old: u16, new: u16, page: &mut Page) {
    if old < new {
        put_without(old, new, "new", page);
    }
    if new < old {
        put_without(new, old, "old", page);
    }
}

fn put_without(few: u16, many: u16, which: &str, page: &mut Page) {
    let left = Range {
        what: "elevation segment",
        first: few.saturating_add(1),
        last: many,
    };
    write!(
        page,
        "not compared: {left}, which only the {which} map has\n"
    );
}
