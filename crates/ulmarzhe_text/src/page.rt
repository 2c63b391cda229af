// A page that text is written on, by `write!` or byte by byte. What has no room on it is dropped; callers empty it long before.
ghost use Rattle.std.specs.Prelude.{◌≤◌};
ghost use Rattle.ulmarzhe_text.specs.declared.page.TheConstants.{PAGE};

use std::fmt;
use std::fmt::Display;
use std::io::{Print, Result};

pub const PAGE: usize = 65536;

const DIGITS: [u8; 16] = *b"0123456789abcdef";

#[derive(Clone, Copy)]
pub struct Page {
    bytes: [u8; PAGE],
    at: usize,
    ghost fits: { at ≤ PAGE },
}

impl Page {
    pub fn new() -> Self {
        Page {
            bytes: [0; PAGE],
            at: 0,
        }
    }

    pub fn put(&mut self, text: &[u8]) {
        let long = text.len().min(PAGE - self.at);
        let end = self.at + long;
        self.bytes[self.at..end].copy_from_slice(&text[..long]);
        self.at = end;
    }

    pub fn put_byte(&mut self, b: u8) {
        if self.at < PAGE {
            self.bytes[self.at] = b;
            self.at += 1;
        }
    }

    // A byte in two hexadecimal digits.
    pub fn put_octet(&mut self, b: u8) {
        self.put_byte(DIGITS[usize::from(b / 16)]);
        self.put_byte(DIGITS[usize::from(b % 16)]);
    }

    // What `write!` calls. It returns nothing, since a page takes every text.
    pub fn write_fmt<D: Display + Drop>(&mut self, text: D) {
        let _ = fmt::Write::write(self, text);
    }

    // What is written on it.
    pub fn text(&self) -> &[u8] {
        &self.bytes[..self.at]
    }

    pub fn len(&self) -> usize {
        self.at
    }

    pub fn clear(&mut self) {
        self.at = 0;
    }

    pub fn send(&self, to: &impl Print) -> Result<()> {
        to.write_all(self.text())
    }
}

impl fmt::Write for Page {
    fn write_str(&mut self, text: &str) -> fmt::Result {
        self.put(text.as_bytes());
        Ok(())
    }
}

// The bytes of a name, shown as characters, with a question mark for each byte that is none that prints.
#[derive(Clone, Copy)]
pub struct Letters<'a>(pub &'a [u8]);

impl fmt::Display for Letters<'_> {
    fn fmt<W: fmt::Write>(&self, f: &mut fmt::Formatter<W>) -> fmt::Result {
        for b in self.0 {
            f.write_char(letter(*b))?;
        }
        Ok(())
    }
}

fn letter(b: u8) -> char {
    match b {
        b' '..=b'~' => char::from(b),
        _ => '?',
    }
}
