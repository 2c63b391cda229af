// The lines of a file: the next one is looked for in the window, and more is read until it is there.
use std::fs::File;
use std::io::Result;
use ulmarzhe_text::window::{WINDOW, Windowed};
use ulmarzhe_text::words;

#[derive(Drop)]
pub enum Line<'a> {
    Whole(&'a mut [u8]),
    // The beginning of a line that is too long for the window.
    TooLong(&'a mut [u8]),
}

// `is_within`: the reading looks at the rest of a line that was too long.
#[derive(Drop)]
pub struct Lines<'a> {
    reading: Windowed<'a>,
    is_within: bool,
}

impl<'a> Lines<'a> {
    // The lines of a file that is open.
    pub fn new(file: &'a File, window: &'a mut [u8; WINDOW]) -> Self {
        Lines {
            reading: Windowed::new(file, window, 0),
            is_within: false,
        }
    }

    pub fn next_line(&mut self) -> Option<Line<'_>> {
        if self.is_within {
            self.skip_rest();
        }
        let end = self.find_end();
        let start = self.reading.start();
        let has_end = end < self.reading.bytes().len();
        if !has_end && start == end {
            return None;
        }
        let is_whole = has_end || self.reading.has_ended();
        self.is_within = !is_whole;
        self.reading.look_at(end.saturating_add(1));
        let text = self.reading.bytes_mut().get_mut(start..end)?;
        if is_whole {
            return Some(Line::Whole(text));
        }
        Some(Line::TooLong(text))
    }

    // Why the file could not be read to its end.
    pub fn check(&self) -> Result<()> {
        self.reading.check()
    }

    // Where the line that is looked at ends in the window, read as far as the window holds it.
    fn find_end(&mut self) -> usize {
        let mut end = self.line_end();
        for _ in 0..u64::MAX {
            let found = end < self.reading.bytes().len();
            if found || self.reading.has_ended() || self.reading.is_full() {
                return end;
            }
            self.reading.read_more();
            end = self.line_end();
        }
        end
    }

    // Looks behind the rest of a line that was too long.
    fn skip_rest(&mut self) {
        for _ in 0..u64::MAX {
            let end = self.line_end();
            let found = end < self.reading.bytes().len();
            self.reading.look_at(end.saturating_add(1));
            if found || self.reading.has_ended() {
                return;
            }
            self.reading.read_more();
        }
    }

    // The place of the line's end in the window, or the end of what the window holds.
    fn line_end(&self) -> usize {
        let start = self.reading.start();
        words::until(self.reading.bytes(), start, b'\n')
    }
}
