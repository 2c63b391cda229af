// The case runner: each line of a file asks the library a question, and its answer is compared or written.
use crate::args::Args;
use crate::lines::{Line, Lines};
use crate::question::Question;
use crate::sink::Sink;
use crate::{ROOM, lists, readers, writers};
use std::fmt;
use std::fs::File;
use ulmarzhe_text::output::Output;
use ulmarzhe_text::page::PAGE;
use ulmarzhe_text::window::WINDOW;
use ulmarzhe_text::words;

#[derive(Clone, Copy)]
enum Verdict {
    Same,
    Differs,
    Malformed,
}

impl fmt::Display for Verdict {
    fn fmt<W: fmt::Write>(&self, f: &mut fmt::Formatter<W>) -> fmt::Result {
        f.write_str(match self {
            Verdict::Same => "same",
            Verdict::Differs => "differs",
            Verdict::Malformed => "malformed",
        })
    }
}

// The lines of a file that is open.
pub fn run_lines(
    rt: &HostRuntime,
    file: &File,
    window: &mut [u8; WINDOW],
    room: &mut [u8; ROOM],
    out: &mut Output,
) {
    let mut lines = Lines::new(file, window);
    for _ in 0..u64::MAX {
        match lines.next_line() {
            Some(line) => run_line(rt, line, room, out),
            None => break,
        }
        if out.has_failed() {
            return;
        }
    }
    if let Err(why) = lines.check() {
        out.tell(rt, b"cases", why);
    }
}

// A line that is too long for the window is malformed.
fn run_line(rt: &HostRuntime, line: Line<'_>, room: &mut [u8; ROOM], out: &mut Output) {
    match line {
        Line::Whole(text) => run_case(rt, text, room, out),
        Line::TooLong(text) => {
            let end = words::until(text, 0, b' ');
            judge(rt, &text[..end], Verdict::Malformed, out);
        }
    }
}

fn run_case(rt: &HostRuntime, line: &mut [u8], room: &mut [u8; ROOM], out: &mut Output) {
    let (case, expected) = split_answer(line);
    let end = words::until(case, 0, b' ');
    let (name, rest) = case.split_at_mut(end);
    match (Question::read(&mut Args::new(rest)), expected) {
        (None, _) => judge(rt, name, Verdict::Malformed, out),
        (Some(question), None) => write_answer(rt, name, question, room, out),
        (Some(question), Some(text)) => {
            let verdict = compare_answer(rt, question, text, room, out);
            judge(rt, name, verdict, out);
        }
    }
}

// The expected answer stands after the word `=`.
fn split_answer(line: &mut [u8]) -> (&mut [u8], Option<&[u8]>) {
    match line.windows(3).position(|w| matches!(w, b" = ")) {
        Some(end) => {
            let (case, rest) = line.split_at_mut(end);
            (case, rest.get(3..))
        }
        None => (line, None),
    }
}

fn write_answer(
    rt: &HostRuntime,
    name: &[u8],
    question: Question<'_>,
    room: &mut [u8; ROOM],
    out: &mut Output,
) {
    put_name(rt, name, out);
    out.page.put_byte(b' ');
    answer(question, room, &mut Sink::written(rt, out));
    out.page.put_byte(b'\n');
    out.flush(rt, 0);
}

fn compare_answer(
    rt: &HostRuntime,
    question: Question<'_>,
    expected: &[u8],
    room: &mut [u8; ROOM],
    out: &mut Output,
) -> Verdict {
    let mut sink = Sink::compared(rt, out, expected);
    answer(question, room, &mut sink);
    if sink.is_met() {
        return Verdict::Same;
    }
    Verdict::Differs
}

fn answer(question: Question<'_>, room: &mut [u8; ROOM], sink: &mut Sink<'_>) {
    match question {
        Question::Frame { place, stream } => sink.tell(readers::of_frame(stream, place)),
        Question::Header(message) => sink.tell(readers::of_header(message)),
        Question::Set { most, frames } => writers::say_set(frames, lists::lend(room, most), sink),
        Question::Write { given, most, body } => {
            writers::say_message(given, body, lists::lend(room, most), sink);
        }
        Question::Radial(body) => readers::say_radial(body, sink),
        Question::Gates { name, body } => readers::say_gates(body, name, sink),
        Question::Gate { name, gate, body } => sink.tell(readers::of_gate(body, name, gate)),
        Question::Request(body) => sink.tell(readers::of_request(body)),
        Question::WriteRequest { most, list } => {
            writers::say_request(list, lists::lend(room, most), sink);
        }
        Question::Censor(body) => readers::say_censor(body, sink),
        Question::WriteCensor { most, list } => {
            writers::say_censor(list, lists::lend(room, most), sink);
        }
        Question::Map(body) => sink.tell(readers::of_map(body)),
        Question::MapCode {
            elevation,
            azimuth,
            kilometre,
            body,
        } => sink.tell(readers::of_map_code(body, elevation, azimuth, kilometre)),
        Question::Compare { most, old, new } => writers::say_compared(old, new, most, sink),
        Question::Salvage {
            most,
            most_runs,
            damaged,
        } => writers::say_salvaged(damaged, lists::lend(room, most), most_runs, sink),
    }
}

// A name on the page, or written out at once where it would fill the page.
fn put_name(rt: &HostRuntime, name: &[u8], out: &mut Output) {
    if name.len() < PAGE / 2 {
        out.page.put(name);
        return;
    }
    out.write(rt, name);
}

// A line of output: a name and what is said of it.
fn judge(rt: &HostRuntime, name: &[u8], verdict: Verdict, out: &mut Output) {
    put_name(rt, name, out);
    write!(out.page, " {verdict}\n");
    if !matches!(verdict, Verdict::Same) {
        out.refuse();
    }
    out.flush(rt, 0);
}
