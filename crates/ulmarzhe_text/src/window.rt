// A file of any length, read by windows: what is looked at lies whole in the window, or is too long for it.
ghost use Rattle.std.specs.Prelude.{◌≤◌};
ghost use Rattle.ulmarzhe_text.specs.declared.window.TheConstants.{WINDOW};

use std::fs::File;
use std::io::{Error, Read, Result};

// The longest line of cases. The longest frame, 1,048,588 bytes, fits in four times.
pub const WINDOW: usize = 4718592;

// How many bytes are read at a time: few enough to stay in the processor's cache.
const AT_ONCE: usize = 262144;

// Whether anything is left to read.
#[derive(Clone, Copy)]
enum Rest {
    More,
    Ended,
    Failed(Error),
}

// A place in a file that is read by windows. What is looked at begins at `from` in the window. The window is filled up to `fill`, and its
// first byte is the file's byte at `base`.
#[derive(Clone, Copy)]
pub struct Reading<'a> {
    file: &'a File,
    base: u64,
    from: usize,
    fill: usize,
    rest: Rest,
    ghost looks_inside: { from ≤ fill },
    ghost fits: { fill ≤ WINDOW },
}

impl<'a> Reading<'a> {
    // A file that stands at its byte `base`, of which nothing is read yet.
    pub fn new(file: &'a File, base: u64) -> Self {
        Reading::begin(file, base, 0)
    }

    fn begin(file: &'a File, base: u64, fill: usize) -> Self {
        Reading {
            file,
            base,
            from: 0,
            fill: fill.min(WINDOW),
            rest: Rest::More,
        }
    }

    // The place in the file of what is looked at.
    pub fn place(&self) -> u64 {
        self.base.wrapping_add(self.from as u64)
    }
}

// A reading, and the window that the file is read into.
#[derive(Drop)]
pub struct Windowed<'a> {
    reading: Reading<'a>,
    window: &'a mut [u8; WINDOW],
}

impl<'a> Windowed<'a> {
    // A file that stands at its byte `base`.
    pub fn new(file: &'a File, window: &'a mut [u8; WINDOW], base: u64) -> Self {
        Windowed {
            reading: Reading::new(file, base),
            window,
        }
    }

    // A file that stands at its start. The window's first `fill` bytes stay, and what is read lies behind them.
    pub fn after(file: &'a File, window: &'a mut [u8; WINDOW], fill: usize) -> Self {
        Windowed {
            reading: Reading::begin(file, 0, fill),
            window,
        }
    }

    // The bytes in the window.
    pub fn bytes(&self) -> &[u8] {
        &self.window[..self.reading.fill]
    }

    pub fn bytes_mut(&mut self) -> &mut [u8] {
        let fill = self.reading.fill;
        let window = &mut *self.window;
        &mut window[..fill]
    }

    // Where in the window what is looked at begins.
    pub fn start(&self) -> usize {
        self.reading.from
    }

    // The place in the file of what is looked at.
    pub fn place(&self) -> u64 {
        self.reading.place()
    }

    // Looks at another place of the window, or at the end of what it holds.
    pub fn look_at(&mut self, from: usize) {
        self.reading.from = from.min(self.reading.fill);
    }

    // Nothing more can be read.
    pub fn has_ended(&self) -> bool {
        !matches!(self.reading.rest, Rest::More)
    }

    // Why the file could not be read to its end.
    pub fn check(&self) -> Result<()> {
        match self.reading.rest {
            Rest::Failed(why) => Err(why),
            _ => Ok(()),
        }
    }

    // Whether the window can hold no more of what is looked at.
    pub fn is_full(&self) -> bool {
        self.reading.from == 0 && self.reading.fill == WINDOW
    }

    // Reads more after the bytes that are looked at.
    pub fn read_more(&mut self) {
        self.make_room();
        let fill = self.reading.fill;
        let end = WINDOW.min(fill + AT_ONCE);
        let mut file = self.reading.file;
        let window = &mut *self.window;
        match file.read(&mut window[fill..end]) {
            Ok(0) => self.reading.rest = Rest::Ended,
            Ok(got) => {
                self.reading.fill += got;
                self.reading.rest = Rest::More;
            }
            Err(why) => self.reading.rest = Rest::Failed(why),
        }
    }

    // Moves the bytes that are looked at to the window's start, unless they may stay.
    fn make_room(&mut self) {
        if self.may_stay() {
            return;
        }
        let place = self.place();
        let Reading { from, fill, .. } = self.reading;
        let window = &mut *self.window;
        window.copy_within(from..fill, 0);
        self.reading.base = place;
        self.reading.from = 0;
        self.reading.fill = fill - from;
    }

    // Few bytes are moved each time, so that what is read stays in the cache. Many are moved only where the window is full: a long run or
    // a long frame would else be moved at each read.
    fn may_stay(&self) -> bool {
        let Reading { from, fill, .. } = self.reading;
        from == 0 || AT_ONCE < fill - from && AT_ONCE <= WINDOW - fill
    }

    // Reads a file to its end, or as far as the window holds it.
    pub fn read_all(&mut self) -> Result<()> {
        // A loop without end would need the handle `Wait`. So this one has a number of turns, more than any file takes; so have others here
        // and in the crates that depend on this one.
        for _ in 0..u64::MAX {
            self.read_more();
            if self.has_ended() {
                break;
            }
        }
        self.check()
    }
}
