// What the program asks of the system: the words of its command line, files by name, and its streams.
use std::env::{Env, FillError};
use std::fs;
use std::fs::{File, OpenOptions};
use std::io::{Cursor, Error, IsTerminal, Print, Result, Write};
use std::path::PathBuf;

// The room for a file's name and the zero byte that C puts at its end.
pub const NAME: usize = 4096;

// The system's numbers of a word that is not there, of a name that is too long, and of one that is no text.
const ABSENT: i32 = 22;

const TOO_LONG: i32 = 36;

const NO_TEXT: i32 = 84;

// Puts a word of the command line into a buffer and answers it. Word 0 is the program's own name.
pub fn word<'a>(rt: &impl Env, i: usize, buffer: &'a mut [u8]) -> Result<&'a [u8]> {
    let length = rt.arg(i, buffer).map_err(|why| match why {
        FillError::NotPresent => Error::from_raw_os_error(ABSENT),
        FillError::TooLong => Error::from_raw_os_error(TOO_LONG),
    })?;
    Ok(&buffer[..length])
}

// How many words the command line has, the program's own name among them.
pub fn count_words(rt: &impl Env) -> usize {
    for i in 0..usize::MAX {
        if let Err(FillError::NotPresent) = rt.arg(i, &mut [0]) {
            return i;
        }
    }
    usize::MAX
}

// The system's names are bytes, and those of the language are text.
fn text_of(path: &[u8]) -> Result<&str> {
    str::from_utf8(path).map_err(|_| Error::from_raw_os_error(NO_TEXT))
}

pub fn open_read(rt: &HostRuntime, path: &[u8]) -> Result<File> {
    File::open(rt, text_of(path)?)
}

// Opens a file for reading and writing, and changes nothing in it.
pub fn open_update(rt: &HostRuntime, path: &[u8]) -> Result<File> {
    let mut how = OpenOptions::new();
    how.read(true).write(true);
    how.open(rt, text_of(path)?)
}

// Makes a file where nothing has that name, open for writing.
pub fn create(rt: &HostRuntime, path: &[u8]) -> Result<File> {
    let mut how = OpenOptions::new();
    how.write(true).create_new(true);
    how.open(rt, text_of(path)?)
}

// The name that a link has in it.
pub fn read_link(rt: &HostRuntime, path: &[u8]) -> Result<PathBuf> {
    fs::read_link(rt, text_of(path)?)
}

pub fn rename(rt: &HostRuntime, from: &[u8], to: &[u8]) -> Result<()> {
    fs::rename(rt, text_of(from)?, text_of(to)?)
}

pub fn remove(rt: &HostRuntime, path: &[u8]) -> Result<()> {
    fs::remove_file(rt, text_of(path)?)
}

// Writes bytes to standard error.
pub fn say(rt: &HostRuntime, bytes: &[u8]) {
    let _ = Print::write_all(&rt.stderr(), bytes);
}

// Says on standard error what failed and why.
pub fn tell(rt: &HostRuntime, what: &[u8], why: Error) {
    let mut line = Cursor::new([0u8; 256]);
    let _ = write!(line, "{why}");
    let text = line.into_inner();
    say(rt, what);
    say(rt, b": ");
    say(rt, reason_of(&text));
    say(rt, b"\n");
}

// What was answered. If it failed, says why and answers none.
pub fn or_tell<T>(rt: &HostRuntime, what: &[u8], answer: Result<T>) -> Option<T> {
    match answer {
        Ok(value) => Some(value),
        Err(why) => {
            tell(rt, what, why);
            None
        }
    }
}

// The words of an error without the number that follows them in parentheses. A zero byte ends them too.
fn reason_of(text: &[u8]) -> &[u8] {
    let mut parts = text.split(|b| matches!(*b, 0 | b'('));
    parts.next().unwrap_or_default().trim_ascii_end()
}

// Whether standard error is a terminal.
pub fn is_watched(rt: &HostRuntime) -> bool {
    rt.stderr().is_terminal()
}
