// Standard output: text is gathered on the page, which is written out when it is filled beyond a place.
use crate::page::Page;
use crate::status::Status;
use crate::system;
use std::io::{Error, ErrorKind, Print};

// `status`: how the command has ended so far.
#[derive(Clone, Copy)]
pub struct Output {
    pub page: Page,
    pub status: Status,
}

impl Output {
    pub fn new() -> Self {
        Output {
            page: Page::new(),
            status: Status::Done,
        }
    }

    // The command's answer is a no.
    pub fn refuse(&mut self) {
        self.status = self.status.max(Status::No);
    }

    // Something could not be read or written, and the caller has said so.
    pub fn fail(&mut self) {
        self.status = Status::NotDone;
    }

    // Says what could not be read or written and why: the command is not done.
    pub fn tell(&mut self, rt: &HostRuntime, what: &[u8], why: Error) {
        system::tell(rt, what, why);
        self.fail();
    }

    pub fn has_failed(&self) -> bool {
        Status::NotDone <= self.status
    }

    // Writes the page out where it is filled beyond a place. Once something failed nothing more is written.
    pub fn flush(&mut self, rt: &HostRuntime, most: usize) {
        if self.page.len() <= most || self.has_failed() {
            return;
        }
        let sent = self.page.send(&rt.stdout());
        self.page.clear();
        if let Err(why) = sent {
            self.tell_failure(rt, why);
        }
    }

    // Writes bytes at once, before what is on the page.
    pub fn write(&mut self, rt: &HostRuntime, bytes: &[u8]) {
        if let Err(why) = rt.stdout().write_all(bytes) {
            self.page.clear();
            self.tell_failure(rt, why);
        }
    }

    // Says why standard output cannot be written, unless nobody reads it.
    fn tell_failure(&mut self, rt: &HostRuntime, why: Error) {
        if why.kind() == ErrorKind::BrokenPipe {
            self.status = Status::NotRead;
            return;
        }
        self.tell(rt, b"standard output", why);
    }

    // Writes out all that is left, and answers how the command ended.
    pub fn end(&mut self, rt: &HostRuntime) -> Status {
        self.flush(rt, 0);
        self.status
    }
}
