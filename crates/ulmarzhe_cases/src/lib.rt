// Cases: questions to the library, a line each, and its answers compared or written.
#![tactic(auto)]

mod args;
mod cases;
mod lines;
mod lists;
mod question;
mod readers;
mod sink;
mod told;
mod writers;

use ulmarzhe_text::output::Output;
use ulmarzhe_text::status::Status;
use ulmarzhe_text::window::WINDOW;
use ulmarzhe_text::{files, system};

// The room that the library is lent: the longest answer is a frame of the longest radial.
const ROOM: usize = frame::LONGEST;

// Nothing is run unless every file can be read.
pub fn run(rt: &HostRuntime, window: &mut [u8; WINDOW], out: &mut Output) -> Status {
    let count = system::count_words(rt);
    for i in 2..count {
        if files::open_named(rt, i).is_none() {
            return Status::NotDone;
        }
    }
    let mut room = [0u8; ROOM];
    for i in 2..count {
        run_file(rt, i, window, &mut room, out);
        if out.has_failed() {
            break;
        }
    }
    out.end(rt)
}

fn run_file(
    rt: &HostRuntime,
    i: usize,
    window: &mut [u8; WINDOW],
    room: &mut [u8; ROOM],
    out: &mut Output,
) {
    match files::open_named(rt, i) {
        Some(file) => cases::run_lines(rt, &file, window, room, out),
        None => out.fail(),
    }
}
