// The questions that a case can ask, one for each entry of the library.
use crate::args::Args;
use radial::Name;
use writer_head::Given;

// `most`: how many bytes, or of a comparison how many halfwords, the library is lent; `most_runs`: room for how many runs.
#[derive(Clone, Copy)]
pub enum Question<'a> {
    Frame {
        place: usize,
        stream: &'a [u8],
    },
    Header(&'a [u8]),
    Set {
        most: u64,
        frames: &'a [u8],
    },
    Write {
        given: Given,
        most: u64,
        body: &'a [u8],
    },
    Radial(&'a [u8]),
    Gates {
        name: Name,
        body: &'a [u8],
    },
    Gate {
        name: Name,
        gate: usize,
        body: &'a [u8],
    },
    Request(&'a [u8]),
    WriteRequest {
        most: u64,
        list: &'a [u8],
    },
    Censor(&'a [u8]),
    WriteCensor {
        most: u64,
        list: &'a [u8],
    },
    Map(&'a [u8]),
    MapCode {
        elevation: usize,
        azimuth: usize,
        kilometre: usize,
        body: &'a [u8],
    },
    Compare {
        most: u64,
        old: &'a [u8],
        new: &'a [u8],
    },
    Salvage {
        most: u64,
        most_runs: u64,
        damaged: &'a [u8],
    },
}

impl<'a> Question<'a> {
    // An entry's word and, behind it, exactly the words that it takes.
    pub fn read(args: &mut Args<'a>) -> Option<Question<'a>> {
        let entry = args.word()?;
        let question = Question::of_entry(entry, args)?;
        args.end()?;
        Some(question)
    }

    fn of_entry(entry: &[u8], args: &mut Args<'a>) -> Option<Question<'a>> {
        match entry {
            b"frame" => Some(Question::Frame {
                place: args.fit()?,
                stream: args.bytes()?,
            }),
            b"header" => Some(Question::Header(args.bytes()?)),
            b"radial" => Some(Question::Radial(args.bytes()?)),
            b"gates" => Some(Question::Gates {
                name: args.name()?,
                body: args.bytes()?,
            }),
            b"gate" => Some(Question::Gate {
                name: args.name()?,
                gate: args.fit()?,
                body: args.bytes()?,
            }),
            b"request" => Some(Question::Request(args.bytes()?)),
            b"censor" => Some(Question::Censor(args.bytes()?)),
            b"map" => Some(Question::Map(args.bytes()?)),
            b"map-code" => Some(Question::MapCode {
                elevation: args.fit()?,
                azimuth: args.fit()?,
                kilometre: args.fit()?,
                body: args.bytes()?,
            }),
            _ => Question::of_writer(entry, args),
        }
    }

    // An entry that is lent room.
    fn of_writer(entry: &[u8], args: &mut Args<'a>) -> Option<Question<'a>> {
        match entry {
            b"set" => Some(Question::Set {
                most: args.number()?,
                frames: args.bytes()?,
            }),
            b"write" => Some(Question::Write {
                given: read_given(args)?,
                most: args.number()?,
                body: args.bytes()?,
            }),
            b"write-request" => Some(Question::WriteRequest {
                most: args.number()?,
                list: args.halfwords()?,
            }),
            b"write-censor" => Some(Question::WriteCensor {
                most: args.number()?,
                list: args.halfwords()?,
            }),
            b"compare" => Some(Question::Compare {
                most: args.number()?,
                old: args.bytes()?,
                new: args.bytes()?,
            }),
            b"salvage" => Some(Question::Salvage {
                most: args.number()?,
                most_runs: args.number()?,
                damaged: args.bytes()?,
            }),
            _ => None,
        }
    }
}

fn read_given(args: &mut Args<'_>) -> Option<Given> {
    Some(Given {
        channel: args.fit()?,
        kind: args.fit()?,
        sequence: args.fit()?,
        date: args.fit()?,
        milliseconds: args.fit()?,
    })
}
