// A recording, walked frame by frame.
use crate::listing;
use frame::{DATA, Frame};
use header::HEADER;
use header_rule::RADIAL;
use std::fs::File;
use std::io::Error;
use ulmarzhe_text::output::Output;
use ulmarzhe_text::page::PAGE;
use ulmarzhe_text::window::{WINDOW, Windowed};
use wire::refusal::Refusal;

// What the recording is called where it cannot be read.
pub const RECORDING: &[u8] = b"recording";

// A frame that was found: where in the recording it begins, its kind, and its body, which of a data frame is a message.
#[derive(Clone, Copy)]
pub struct Found<'a> {
    pub place: u64,
    pub kind: u32,
    pub body: &'a [u8],
}

impl<'a> Found<'a> {
    // The body of the radial that the frame carries, if it carries one.
    pub fn radial(&self) -> Result<Option<&'a [u8]>, Refusal> {
        if self.kind != DATA {
            return Ok(None);
        }
        let h = header::read_header(self.body)?;
        if h.kind != RADIAL {
            return Ok(None);
        }
        Ok(self.body.get(HEADER..))
    }
}

// What is done with each frame of a recording.
pub trait Task {
    fn take(&mut self, found: Found<'_>, out: &mut Output);

    // A damaged place ends the walk. A listing tells it on a line of its own.
    fn stop(&self, _rt: &HostRuntime, place: u64, why: Refusal, out: &mut Output) {
        listing::list_stop(place, why, out);
    }
}

// Why there is no frame at a place: it is damaged, or it cannot be read.
#[derive(Clone, Copy)]
pub enum Fault {
    Damaged(Refusal),
    NotRead(Error),
}

// A walk through a recording.
#[derive(Drop)]
pub struct Walk<'a> {
    reading: Windowed<'a>,
}

impl<'a> Walk<'a> {
    // A walk from a place at which the recording stands.
    pub fn new(file: &'a File, window: &'a mut [u8; WINDOW], place: u64) -> Self {
        Walk {
            reading: Windowed::new(file, window, place),
        }
    }

    // The place in the recording of the frame that is looked at.
    pub fn place(&self) -> u64 {
        self.reading.place()
    }

    // The frame that is looked at, or none at the recording's end.
    pub fn find(&mut self) -> Result<Option<Frame>, Fault> {
        let answer = self.read_whole();
        self.reading.check().map_err(Fault::NotRead)?;
        answer.map_err(Fault::Damaged)
    }

    // Reads until the frame is whole in the window or refused for what it says, or the recording ends or cannot be read.
    fn read_whole(&mut self) -> Result<Option<Frame>, Refusal> {
        for _ in 0..u64::MAX {
            let start = self.reading.start();
            let answer = frame::frame_at(self.reading.bytes(), start);
            if self.reading.has_ended() || is_settled(answer) {
                return answer;
            }
            self.reading.read_more();
        }
        Ok(None)
    }

    // The frame that was found.
    pub fn found(&self, frame: Frame) -> Found<'_> {
        let place = self.reading.place();
        Found {
            place,
            kind: frame.kind,
            body: self
                .reading
                .bytes()
                .get(frame.start..frame.next)
                .unwrap_or_default(),
        }
    }

    // Hands each frame to the task, until the recording ends or is damaged, or something cannot be read or written.
    pub fn follow<T: Task>(&mut self, rt: &HostRuntime, task: &mut T, out: &mut Output) {
        for _ in 0..u64::MAX {
            let Some(frame) = self.next(rt, task, out) else {
                return;
            };
            task.take(self.found(frame), out);
            self.reading.look_at(frame.next);
            out.flush(rt, PAGE / 2);
            if out.has_failed() {
                return;
            }
        }
    }

    // The frame that is looked at. Where a fault ends the walk, it has been told.
    fn next<T: Task>(&mut self, rt: &HostRuntime, task: &T, out: &mut Output) -> Option<Frame> {
        match self.find() {
            Ok(frame) => frame,
            Err(Fault::Damaged(why)) => {
                task.stop(rt, self.place(), why, out);
                None
            }
            Err(Fault::NotRead(why)) => {
                out.tell(rt, RECORDING, why);
                None
            }
        }
    }
}

// More bytes cannot change the answer of a whole frame, or of one that is refused but not cut off.
fn is_settled(answer: Result<Option<Frame>, Refusal>) -> bool {
    !matches!(answer, Ok(None) | Err(Refusal::FrameCutOff))
}
