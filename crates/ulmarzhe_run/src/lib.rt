// The program: does what the command line asks for and answers how it ended.
#![tactic(auto)]

mod command;

use command::{Command, Row, TABLE};
use std::fmt::Display;
use ulmarzhe_text::output::Output;
use ulmarzhe_text::status::{Status, WrongWords};
use ulmarzhe_text::window::WINDOW;
use ulmarzhe_text::{files, system};

// Every command is lent the same window and output: two of each would not fit on the stack.
pub fn ulmarzhe_run(rt: &HostRuntime) -> Status {
    files::hold_streams(rt);
    let mut window = [0u8; WINDOW];
    let mut out = Output::new();
    answer(rt, &mut window, &mut out)
}

fn answer(rt: &HostRuntime, window: &mut [u8; WINDOW], out: &mut Output) -> Status {
    let Some(row) = read_row(rt) else {
        let form = "ulmarzhe COMMAND ..., and ulmarzhe help lists the commands";
        return tell_form(rt, form, out);
    };
    match run(rt, row, window, out) {
        Ok(status) => status,
        Err(WrongWords) => tell_form(rt, row, out),
    }
}

// The row of the command that the first word names.
fn read_row(rt: &HostRuntime) -> Option<Row> {
    let mut buffer = [0u8; system::NAME];
    Row::named(system::word(rt, 1, &mut buffer).ok()?)
}

fn run(
    rt: &HostRuntime,
    row: Row,
    window: &mut [u8; WINDOW],
    out: &mut Output,
) -> Result<Status, WrongWords> {
    if !row.takes(system::count_words(rt).saturating_sub(2)) {
        return Err(WrongWords);
    }
    match row.command {
        Command::Frames => Ok(ulmarzhe_show::list_frames(rt, window, out)),
        Command::Radials => Ok(ulmarzhe_show::list_radials(rt, window, out)),
        Command::Gates => ulmarzhe_show::list_gates(rt, window, out),
        Command::Picture => ulmarzhe_show::draw_picture(rt, window, out),
        Command::Map => ulmarzhe_show::show_map_code(rt, window, out),
        Command::Compare => Ok(ulmarzhe_show::compare_maps(rt, window, out)),
        Command::Salvage => ulmarzhe_salvage::salvage_recording(rt, window, out),
        Command::Why => ulmarzhe_show::explain(rt, out),
        Command::Cases => Ok(ulmarzhe_cases::run(rt, window, out)),
        Command::Help => Ok(help(rt, out)),
    }
}

// One line on standard error: the form of the command, or where to find all of them.
fn tell_form<F: Display + Drop>(rt: &HostRuntime, form: F, out: &mut Output) -> Status {
    out.page.clear();
    write!(out.page, "ulmarzhe: the command line should be: {form}\n");
    let _ = out.page.send(&rt.stderr());
    Status::NotDone
}

const HEAD: &str = "ulmarzhe shows recordings of RDA/RPG messages, salvages damaged ones,
and runs cases against the library.

";

const TAIL: &str = "
MOMENT is REF, VEL, SW, ZDR, PHI or RHO. CLEAN is CLEAN.part until it is whole;
one that is there is replaced only by the word over.

It ends with the status
0   done, and nothing was wrong with the input; of salvage: CLEAN is whole
1   done, and the answer is a no: a message, radial or map is refused, a
    recording is damaged, two maps differ, a case differs or is malformed
2   not done: the command line is wrong, or a file or standard output cannot be
    read or written
";

fn help(rt: &HostRuntime, out: &mut Output) -> Status {
    write!(out.page, "{HEAD}");
    for row in &TABLE {
        write!(out.page, "{row}\n");
        for line in row.help {
            write!(out.page, "    {line}\n");
        }
    }
    write!(out.page, "{TAIL}");
    out.end(rt)
}
