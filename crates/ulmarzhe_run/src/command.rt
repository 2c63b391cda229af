// The commands: a row for each, with its name, the words after it, and what it does.
use std::fmt;

#[derive(Clone, Copy, PartialEq, Eq)]
pub enum Command {
    Frames,
    Radials,
    Gates,
    Picture,
    Map,
    Compare,
    Salvage,
    Why,
    Cases,
    Help,
}

// `least` and `most`: how many words may follow the command's name; `form`: what they are; `help`: what the command does, by lines.
#[derive(Clone, Copy)]
pub struct Row {
    pub command: Command,
    pub name: &'static str,
    pub least: usize,
    pub most: usize,
    pub form: &'static str,
    pub help: &'static [&'static str],
}

pub const TABLE: [Row; 10] = [
    Row {
        command: Command::Frames,
        name: "frames",
        least: 1,
        most: 1,
        form: "RECORDING",
        help: &[
            "a line a frame: place, kind, bytes, and of data type, sequence number,",
            "date, time, segment, and long form where the header has that",
        ],
    },
    Row {
        command: Command::Radials,
        name: "radials",
        least: 1,
        most: 1,
        form: "RECORDING",
        help: &[
            "a line a radial: place, station, date, time, azimuth, elevation, status,",
            "and each moment as gates x bits",
        ],
    },
    Row {
        command: Command::Gates,
        name: "gates",
        least: 3,
        most: 3,
        form: "RECORDING PLACE MOMENT",
        help: &[
            "a line a gate of the radial in the frame at PLACE:",
            "gate, range, code, value",
        ],
    },
    Row {
        command: Command::Picture,
        name: "picture",
        least: 2,
        most: 2,
        form: "RECORDING MOMENT",
        help: &[
            "a PGM picture on standard output: a row a radial, a column a gate,",
            "the codes as they lie",
        ],
    },
    Row {
        command: Command::Map,
        name: "map",
        least: 4,
        most: 4,
        form: "FILE ELEVATION AZIMUTH KILOMETRE",
        help: &["the code there of a clutter filter map, FILE being the body of message 15"],
    },
    Row {
        command: Command::Compare,
        name: "compare",
        least: 2,
        most: 2,
        form: "OLD NEW",
        help: &[
            "a line a difference of two clutter filter maps, bodies of message 15,",
            "then a table of the kilometres changed",
        ],
    },
    Row {
        command: Command::Salvage,
        name: "salvage",
        least: 2,
        most: 3,
        form: "DAMAGED CLEAN [over]",
        help: &[
            "the data frames whose header passes, written to CLEAN,",
            "and a line a run of bytes skipped: place, length,",
            "then how much was kept",
        ],
    },
    Row {
        command: Command::Why,
        name: "why",
        least: 1,
        most: 1,
        form: "NUMBER",
        help: &["a refusal in words"],
    },
    Row {
        command: Command::Cases,
        name: "cases",
        least: 1,
        most: usize::MAX,
        form: "FILE...",
        help: &["each line of FILE asked of the library, its answer compared or written"],
    },
    Row {
        command: Command::Help,
        name: "help",
        least: 0,
        most: 0,
        form: "",
        help: &["this text"],
    },
];

impl Row {
    // The row of the command with that name.
    pub fn named(word: &[u8]) -> Option<Row> {
        TABLE
            .iter()
            .find(|row| row.name.as_bytes() == word)
            .copied()
    }

    pub fn takes(self, words: usize) -> bool {
        self.least <= words && words <= self.most
    }
}

// What the command line should be.
impl fmt::Display for Row {
    fn fmt<W: fmt::Write>(&self, f: &mut fmt::Formatter<W>) -> fmt::Result {
        write!(f, "ulmarzhe {}", self.name)?;
        if self.form.is_empty() {
            return Ok(());
        }
        write!(f, " {}", self.form)
    }
}
