// A damaged recording salvaged: the command reads the words after it and answers how it ended. It is lent the program's window and output.
#![tactic(auto)]

mod clean;
mod damaged;

use clean::{Clean, Older, PART};
use std::env::Env;
use std::fs::File;
use ulmarzhe_text::output::Output;
use ulmarzhe_text::status::{Status, WrongWords};
use ulmarzhe_text::window::WINDOW;
use ulmarzhe_text::{files, system};

pub fn salvage_recording(
    rt: &HostRuntime,
    window: &mut [u8; WINDOW],
    out: &mut Output,
) -> Result<Status, WrongWords> {
    let older = read_older(rt)?;
    let Some(damaged) = files::open_named(rt, 2) else {
        return Ok(Status::NotDone);
    };
    let mut name = [0u8; system::NAME];
    let mut part = [0u8; PART];
    let Some(name) = system::or_tell(rt, b"file name", system::word(rt, 3, &mut name)) else {
        return Ok(Status::NotDone);
    };
    let clean = Clean::new(name, older, &mut part);
    Ok(salvage_to(rt, damaged, clean, window, out))
}

// What the word after CLEAN says, if there is one.
fn read_older(rt: &impl Env) -> Result<Older, WrongWords> {
    if system::count_words(rt) < 5 {
        return Ok(Older::Stays);
    }
    let mut buffer = [0u8; 32];
    match system::word(rt, 4, &mut buffer) {
        Ok(b"over") => Ok(Older::IsReplaced),
        _ => Err(WrongWords),
    }
}

// A salvage is done exactly if CLEAN is whole on its device, whatever was skipped.
fn salvage_to(
    rt: &HostRuntime,
    damaged: File,
    clean: Clean<'_>,
    window: &mut [u8; WINDOW],
    out: &mut Output,
) -> Status {
    if !clean.is_free(rt, &damaged, &mut out.page) {
        return Status::NotDone;
    }
    let Some(file) = clean.open_part(rt) else {
        return Status::NotDone;
    };
    damaged::keep_frames(rt, damaged, file, window, out);
    end(rt, clean, out)
}

// Writes the account, and gives CLEAN its name.
fn end(rt: &HostRuntime, clean: Clean<'_>, out: &mut Output) -> Status {
    let status = out.end(rt);
    if status != Status::Done {
        clean.remove_part(rt);
        return status.max(Status::NotDone);
    }
    if clean.take_name(rt) {
        return Status::Done;
    }
    Status::NotDone
}
