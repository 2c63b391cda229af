// Recordings and maps shown to people: a function for each command, which reads the words after the command and answers how it ended.
// It is lent the program's window and output.
#![tactic(auto)]

mod date;
mod gates;
mod listing;
mod maps;
mod moments;
mod picture;
mod recorded;
mod why;

use compare::MOST;
use listing::{Frames, Radials};
use moments::Moment;
use picture::{Drawing, Picture, Survey};
use recorded::{RECORDING, Task, Walk};
use std::env::Env;
use std::fs::File;
use std::io::{Seek, SeekFrom};
use ulmarzhe_text::output::Output;
use ulmarzhe_text::status::{Status, WrongWords};
use ulmarzhe_text::window::{WINDOW, Windowed};
use ulmarzhe_text::{files, system};

pub fn list_frames(rt: &HostRuntime, window: &mut [u8; WINDOW], out: &mut Output) -> Status {
    list(rt, &mut Frames, window, out)
}

pub fn list_radials(rt: &HostRuntime, window: &mut [u8; WINDOW], out: &mut Output) -> Status {
    list(rt, &mut Radials, window, out)
}

fn list<T: Task>(
    rt: &HostRuntime,
    task: &mut T,
    window: &mut [u8; WINDOW],
    out: &mut Output,
) -> Status {
    let Some(file) = files::open_named(rt, 2) else {
        return Status::NotDone;
    };
    Walk::new(&file, window, 0).follow(rt, task, out);
    out.end(rt)
}

fn read_moment(rt: &impl Env, i: usize) -> Result<Moment, WrongWords> {
    let mut buffer = [0u8; 32];
    let word = system::word(rt, i, &mut buffer).map_err(|_| WrongWords)?;
    Moment::named(word).ok_or(WrongWords)
}

// The system counts a place in 63 bits.
const PLACES: u64 = 1 << 63;

pub fn list_gates(
    rt: &HostRuntime,
    window: &mut [u8; WINDOW],
    out: &mut Output,
) -> Result<Status, WrongWords> {
    let place = files::read_number(rt, 3)?;
    let moment = read_moment(rt, 4)?;
    let Some(mut file) = files::open_named(rt, 2) else {
        return Ok(Status::NotDone);
    };
    match file.seek(SeekFrom::Start(place % PLACES)) {
        Ok(_) => gates::list(rt, &mut Walk::new(&file, window, place), moment, out),
        Err(why) => out.tell(rt, RECORDING, why),
    }
    Ok(out.end(rt))
}

pub fn draw_picture(
    rt: &HostRuntime,
    window: &mut [u8; WINDOW],
    out: &mut Output,
) -> Result<Status, WrongWords> {
    let moment = read_moment(rt, 3)?;
    let Some(file) = files::open_named(rt, 2) else {
        return Ok(Status::NotDone);
    };
    draw(rt, &file, moment, window, out);
    Ok(out.end(rt))
}

fn draw(
    rt: &HostRuntime,
    file: &File,
    moment: Moment,
    window: &mut [u8; WINDOW],
    out: &mut Output,
) {
    let mut survey = Survey {
        picture: Picture::new(moment),
    };
    Walk::new(file, window, 0).follow(rt, &mut survey, out);
    if out.has_failed() {
        return;
    }
    let picture = survey.picture;
    if picture.is_empty() {
        system::say(rt, b"ulmarzhe: no radial has a gate of that moment\n");
        out.refuse();
        return;
    }
    let mut again = file;
    match again.seek(SeekFrom::Start(0)) {
        Ok(_) => {
            picture.put_head(&mut out.page);
            Walk::new(file, window, 0).follow(rt, &mut Drawing { picture }, out);
        }
        Err(why) => out.tell(rt, RECORDING, why),
    }
}

pub fn show_map_code(
    rt: &HostRuntime,
    window: &mut [u8; WINDOW],
    out: &mut Output,
) -> Result<Status, WrongWords> {
    let place = read_place(rt)?;
    let Some(file) = files::open_named(rt, 2) else {
        return Ok(Status::NotDone);
    };
    let Some(fill) = read_map(rt, file, b"map", window, 0) else {
        return Ok(Status::NotDone);
    };
    let body = window.get(..fill).unwrap_or_default();
    let code = map::code_at(body, place.elevation, place.azimuth, place.kilometre);
    maps::show_code(code, out);
    Ok(out.end(rt))
}

// A place of a map.
#[derive(Clone, Copy)]
struct Place {
    elevation: usize,
    azimuth: usize,
    kilometre: usize,
}

fn read_place(rt: &impl Env) -> Result<Place, WrongWords> {
    Ok(Place {
        elevation: files::read_number(rt, 3)? as usize,
        azimuth: files::read_number(rt, 4)? as usize,
        kilometre: files::read_number(rt, 5)? as usize,
    })
}

// Reads a file behind the window's first `fill` bytes, closes it and answers how far the window is filled, or says why it cannot be read. A
// file that the window cuts off is longer than any map, and what is left is refused as the whole would be.
fn read_map(
    rt: &HostRuntime,
    file: File,
    name: &[u8],
    window: &mut [u8; WINDOW],
    fill: usize,
) -> Option<usize> {
    let mut reading = Windowed::after(&file, window, fill);
    system::or_tell(rt, name, reading.read_all())?;
    Some(reading.bytes().len())
}

pub fn compare_maps(rt: &HostRuntime, window: &mut [u8; WINDOW], out: &mut Output) -> Status {
    let Some(old) = files::open_named(rt, 2) else {
        return Status::NotDone;
    };
    let Some(new) = files::open_named(rt, 3) else {
        return Status::NotDone;
    };
    let mut list = [0u16; MOST];
    compare_both(rt, old, new, window, &mut list, out)
}

// The new map stands in the window behind the old one.
fn compare_both(
    rt: &HostRuntime,
    old: File,
    new: File,
    window: &mut [u8; WINDOW],
    list: &mut [u16; MOST],
    out: &mut Output,
) -> Status {
    let Some(first) = read_map(rt, old, b"old map", window, 0) else {
        return Status::NotDone;
    };
    let end = first.min(maps::LONG);
    let Some(fill) = read_map(rt, new, b"new map", window, end) else {
        return Status::NotDone;
    };
    let both = window.get(..fill).unwrap_or_default();
    if let Some((old, new)) = both.split_at_checked(end) {
        maps::show_differences(rt, old, new, list, out);
    }
    out.end(rt)
}

pub fn explain(rt: &HostRuntime, out: &mut Output) -> Result<Status, WrongWords> {
    let number = files::read_number(rt, 2)?;
    let words = why::reason(number).ok_or(WrongWords)?;
    write!(out.page, "{number}: {words}\n");
    Ok(out.end(rt))
}
