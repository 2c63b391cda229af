// What the command line names: files, and numbers.
use crate::status::WrongWords;
use crate::{system, words};
use std::env::Env;
use std::fs::File;
use std::io;
use std::io::Read;
use std::os::fd::{AsRawFd, IntoRawFd};

const STREAMS: usize = 3;

// The number of standard error, the last of the streams.
const LAST: i32 = 2;

// Opens the root folder in place of each closed standard stream. A folder can be neither read nor written, and no file that is opened later
// gets the stream's number.
pub fn hold_streams(rt: &HostRuntime) {
    for _ in 0..STREAMS {
        if let Ok(root) = system::open_read(rt, b"/") {
            if LAST < root.as_raw_fd() {
                return;
            }
            root.into_raw_fd();
        }
    }
}

// Opens the file that a word names for reading. If that fails, says why and answers none.
pub fn open_named(rt: &HostRuntime, i: usize) -> Option<File> {
    let mut buffer = [0u8; system::NAME];
    let path = system::or_tell(rt, b"file name", system::word(rt, i, &mut buffer))?;
    system::or_tell(rt, path, open_readable(rt, path))
}

// A directory can be opened; a read of no bytes refuses it.
fn open_readable(rt: &HostRuntime, path: &[u8]) -> io::Result<File> {
    let mut file = system::open_read(rt, path)?;
    file.read(&mut [])?;
    Ok(file)
}

// The number that a word says.
pub fn read_number(rt: &impl Env, i: usize) -> Result<u64, WrongWords> {
    let mut buffer = [0u8; 32];
    let word = system::word(rt, i, &mut buffer).map_err(|_| WrongWords)?;
    words::read_decimal(word).ok_or(WrongWords)
}
