// A damaged recording, walked by windows: the frames that pass are written to a file, and each run of bytes between them is listed.
use frame::LONGEST;
use std::fs::File;
use std::io::{Seek, SeekFrom, Write};
use ulmarzhe_text::output::Output;
use ulmarzhe_text::page::PAGE;
use ulmarzhe_text::system;
use ulmarzhe_text::window::{WINDOW, Windowed};

const MEBIBYTE: u64 = 1048576;

// A recording of `LONG` bytes or more is long: its progress is shown every `STEP` bytes.
const LONG: u64 = 64 * MEBIBYTE;

const STEP: u64 = 16 * MEBIBYTE;

// Writes the frames that pass to a file, stores it on its device, and gives account of what was kept and skipped. Both files are closed
// when it is done.
pub fn keep_frames(
    rt: &HostRuntime,
    damaged: File,
    file: File,
    window: &mut [u8; WINDOW],
    out: &mut Output,
) {
    let mut s = Salvage {
        reading: Windowed::new(&damaged, window, 0),
        file: &file,
        end: 0,
        frames: 0,
        bytes: 0,
        progress: Progress::begin(rt, &damaged),
    };
    s.walk(rt, out);
    s.finish(rt, out);
}

// A salvage so far. `file`: where frames are written; `end`: where the last kept frame ends; `frames` and `bytes`: how many are kept.
#[derive(Drop)]
struct Salvage<'a> {
    reading: Windowed<'a>,
    file: &'a File,
    end: u64,
    frames: u64,
    bytes: u64,
    progress: Option<Progress>,
}

// Frames that follow one another, from a place of the window on.
#[derive(Clone, Copy)]
struct Frames {
    count: u64,
    start: usize,
    end: usize,
}

impl Salvage<'_> {
    fn walk(&mut self, rt: &HostRuntime, out: &mut Output) {
        for _ in 0..u64::MAX {
            self.reading.read_more();
            if let Err(why) = self.reading.check() {
                out.tell(rt, b"recording", why);
            }
            self.walk_window(rt, out);
            self.show_progress(rt);
            if out.has_failed() || self.reading.has_ended() {
                break;
            }
        }
        if self.progress.is_some() {
            Progress::clear(rt);
        }
    }

    fn walk_window(&mut self, rt: &HostRuntime, out: &mut Output) {
        for _ in 0..WINDOW {
            if out.has_failed() || !self.take_stretch(rt, out) {
                return;
            }
        }
    }

    // Skips the bytes up to the next frame that passes, and keeps the frames that follow one another from there. Answers whether there is
    // one: if not, the next window is needed to decide about the rest.
    fn take_stretch(&mut self, rt: &HostRuntime, out: &mut Output) -> bool {
        let start = self.reading.start();
        let decided = self.decided_end();
        let at = salvage_find::next_kept(self.reading.bytes(), start).min(decided);
        let frames = frames_from(self.reading.bytes(), at);
        self.reading.look_at(at);
        if frames.count == 0 {
            return false;
        }
        // Where the list of runs cannot be written, the frames found are still kept, and the walk ends behind them.
        self.list_run(rt, out);
        self.keep(rt, out, frames);
        self.reading.look_at(frames.end);
        true
    }

    // The place up to which the window decides what is skipped. A frame found in the window is a frame of the recording. That no frame
    // begins at a place is certain only if the longest frame would end in the window, or if the recording ends there.
    fn decided_end(&self) -> usize {
        let start = self.reading.start();
        let fill = self.reading.bytes().len();
        if self.reading.has_ended() {
            return fill;
        }
        (fill + 1).saturating_sub(LONGEST).max(start)
    }

    // Lists the run between the last kept frame and the place that is looked at, unless it is empty.
    fn list_run(&mut self, rt: &HostRuntime, out: &mut Output) {
        let end = self.end;
        let length = self.reading.place().wrapping_sub(end);
        if length == 0 {
            return;
        }
        let unit = if length == 1 { "byte" } else { "bytes" };
        write!(out.page, "{end:>10}  skipped, {length} {unit}\n");
        out.flush(rt, PAGE / 2);
    }

    // Counts and writes frames that begin at the place that is looked at.
    fn keep(&mut self, rt: &HostRuntime, out: &mut Output, frames: Frames) {
        let place = self.reading.place();
        let held = self.reading.bytes();
        let bytes = held.get(frames.start..frames.end).unwrap_or_default();
        let length = bytes.len() as u64;
        self.end = place.wrapping_add(length);
        self.bytes = self.bytes.wrapping_add(length);
        self.frames = self.frames.wrapping_add(frames.count);
        let mut file = self.file;
        if let Err(why) = file.write_all(bytes) {
            out.tell(rt, b"clean recording", why);
        }
    }

    fn show_progress(&mut self, rt: &HostRuntime) {
        let place = self.reading.place();
        if let Some(progress) = &mut self.progress {
            progress.show(rt, place);
        }
    }

    // Lists the last run, stores all that was kept, and adds up. Where something failed nothing more is done.
    fn finish(&mut self, rt: &HostRuntime, out: &mut Output) {
        if out.has_failed() {
            return;
        }
        self.list_run(rt, out);
        if out.has_failed() {
            return;
        }
        match self.file.sync_all() {
            Ok(()) => self.add_totals(out),
            Err(why) => out.tell(rt, b"clean recording", why),
        }
    }

    // What was kept, what was skipped, and all there was.
    fn add_totals(&self, out: &mut Output) {
        let all = self.reading.place();
        let kept = self.bytes;
        let skipped = all.wrapping_sub(kept);
        write!(
            out.page,
            "{:>10}  frames kept\n{kept:>10}  bytes kept\n",
            self.frames
        );
        write!(
            out.page,
            "{skipped:>10}  bytes skipped\n{all:>10}  bytes in all\n"
        );
    }
}

fn frames_from(stream: &[u8], start: usize) -> Frames {
    let mut frames = Frames {
        count: 0,
        start,
        end: start,
    };
    for count in 1..u64::MAX {
        let Some(length) = salvage_find::whole_at(stream, frames.end) else {
            break;
        };
        frames.count = count;
        frames.end = frames.end.saturating_add(length);
    }
    frames
}

// How far the walk of a long recording is. `next`: the place at which it is shown next; `length`: the recording's.
#[derive(Clone, Copy)]
struct Progress {
    next: u64,
    length: u64,
}

impl Progress {
    // None for a recording that is not long, or if standard error is no terminal.
    fn begin(rt: &HostRuntime, damaged: &File) -> Option<Progress> {
        let length = length_of(damaged);
        if length < LONG || !system::is_watched(rt) {
            return None;
        }
        Some(Progress { next: STEP, length })
    }

    // The line ends in a carriage return, and whatever is written next is longer and covers it.
    fn show(&mut self, rt: &HostRuntime, place: u64) {
        if place < self.next {
            return;
        }
        let length = self.length;
        let _ = eprint!(rt; "{} of {} MiB\r", place / MEBIBYTE, length / MEBIBYTE);
        self.next = place.wrapping_add(STEP);
    }

    fn clear(rt: &HostRuntime) {
        system::say(rt, b"                        \r");
    }
}

// The length of a file that has one, else 0.
fn length_of(damaged: &File) -> u64 {
    let mut place = damaged;
    let end = place.seek(SeekFrom::End(0));
    let _ = place.seek(SeekFrom::Start(0));
    end.unwrap_or(0)
}
