// The file CLEAN that kept frames are written to. They go to CLEAN.part, which is renamed to CLEAN once it is whole. So a CLEAN with
// frames is whole, and an older CLEAN stays until then.
use std::fs::File;
use std::io;
use std::io::{Error, ErrorKind, Seek, SeekFrom};
use std::os::fd::AsRawFd;
use std::os::unix::fs::MetadataExt;
use std::path::PathBuf;
use ulmarzhe_text::page::Page;
use ulmarzhe_text::system;
use ulmarzhe_text::system::NAME;

const ENDING: [u8; 5] = *b".part";

// The room for the name CLEAN.part.
pub const PART: usize = NAME + ENDING.len();

// What becomes of a CLEAN that is there already.
#[derive(Clone, Copy, PartialEq, Eq)]
pub enum Older {
    Stays,
    IsReplaced,
}

// Why CLEAN may not be written. A CLEAN that was opened stays open until that is said.
#[derive(Drop)]
enum Obstacle {
    System(Error),
    IsDamaged(File),
    IsSpecial(File),
}

impl From<Error> for Obstacle {
    fn from(why: Error) -> Self {
        Obstacle::System(why)
    }
}

// `name` is CLEAN, and `part` is CLEAN.part.
#[derive(Clone, Copy)]
pub struct Clean<'a> {
    name: &'a [u8],
    part: &'a [u8],
    older: Older,
}

impl<'a> Clean<'a> {
    pub fn new(name: &'a [u8], older: Older, room: &'a mut [u8; PART]) -> Self {
        for (to, b) in room.iter_mut().zip(name.iter().chain(&ENDING)) {
            *to = *b;
        }
        let part = room.get(..name.len() + ENDING.len()).unwrap_or_default();
        Clean { name, part, older }
    }

    // Whether CLEAN may be written. If not, says why.
    pub fn is_free(self, rt: &HostRuntime, damaged: &File, page: &mut Page) -> bool {
        let Err(why) = self.check(rt, damaged, page) else {
            return true;
        };
        match why {
            Obstacle::System(why) => system::tell(rt, self.name, why),
            Obstacle::IsDamaged(_older) => self.say(rt, b": is the damaged recording\n", page),
            Obstacle::IsSpecial(_older) => self.say(rt, b": is not a regular file\n", page),
        }
        false
    }

    // One write, so that no line of another stands within it. The page is empty before and after.
    fn say(self, rt: &HostRuntime, why: &[u8], page: &mut Page) {
        page.put(self.name);
        page.put(why);
        let _ = page.send(&rt.stderr());
        page.clear();
    }

    fn check(self, rt: &HostRuntime, damaged: &File, page: &mut Page) -> Result<(), Obstacle> {
        if self.older == Older::IsReplaced {
            return self.check_older(rt, damaged, page);
        }
        self.make(rt)?;
        let _ = system::remove(rt, self.name);
        Ok(())
    }

    // Makes an empty CLEAN where nothing has that name.
    fn make(self, rt: &HostRuntime) -> io::Result<()> {
        system::create(rt, self.name)?;
        Ok(())
    }

    // CLEAN may be replaced unless it is the damaged recording itself or no regular file, such as a device.
    fn check_older(
        self,
        rt: &HostRuntime,
        damaged: &File,
        page: &mut Page,
    ) -> Result<(), Obstacle> {
        let older = match system::open_update(rt, self.name) {
            Ok(older) => older,
            Err(why) if why.kind() == ErrorKind::NotFound => return Ok(()),
            Err(why) => return Err(Obstacle::System(why)),
        };
        if is_same(rt, &older, damaged, page) {
            return Err(Obstacle::IsDamaged(older));
        }
        if !is_regular(&older) {
            return Err(Obstacle::IsSpecial(older));
        }
        Ok(())
    }

    // Makes CLEAN.part and opens it for writing. If that fails, says why and answers none.
    pub fn open_part(self, rt: &HostRuntime) -> Option<File> {
        system::or_tell(rt, self.part, system::create(rt, self.part))
    }

    pub fn remove_part(self, rt: &HostRuntime) {
        let _ = system::remove(rt, self.part);
    }

    // Renames CLEAN.part to CLEAN. If that fails, says why and removes it. Answers whether CLEAN is whole on its device.
    pub fn take_name(self, rt: &HostRuntime) -> bool {
        let is_new = self.older == Older::Stays;
        if is_new && !self.is_done(rt, self.make(rt)) {
            self.remove_part(rt);
            return false;
        }
        if !self.is_done(rt, system::rename(rt, self.part, self.name)) {
            self.remove_part(rt);
            if is_new {
                let _ = system::remove(rt, self.name);
            }
            return false;
        }
        self.is_done(rt, store_folder(rt, self.name))
    }

    // Whether something was done. If not, says why.
    fn is_done(self, rt: &HostRuntime, answer: io::Result<()>) -> bool {
        system::or_tell(rt, self.name, answer).is_some()
    }
}

// Only a regular file takes a length. Cutting a file to its present length changes nothing.
fn is_regular(file: &File) -> bool {
    let mut place = file;
    place
        .seek(SeekFrom::End(0))
        .and_then(|end| file.set_len(end))
        .is_ok()
}

// Whether two open files are one. If the system does not tell, they count as one.
fn is_same(rt: &HostRuntime, a: &File, b: &File, page: &mut Page) -> bool {
    is_same_name(rt, a, b, page)
        .or_else(|_| is_same_file(a, b))
        .unwrap_or(true)
}

// Whether the system tells the same name of two open files, links followed. If it tells no name of either, they count as the same.
fn is_same_name(rt: &HostRuntime, a: &File, b: &File, page: &mut Page) -> io::Result<bool> {
    match (name_of(rt, a, page)?, name_of(rt, b, page)?) {
        (Some(a), Some(b)) => Ok(a.as_str() == b.as_str()),
        (None, None) => Ok(true),
        _ => Ok(false),
    }
}

// Whether two open files are one, under whatever names.
fn is_same_file(a: &File, b: &File) -> io::Result<bool> {
    let first = a.metadata()?;
    let second = b.metadata()?;
    Ok(first.dev() == second.dev() && first.ino() == second.ino())
}

// The name that the system tells of an open file, if it tells one. It is refused where it is no text, or there is no memory for it.
fn name_of(rt: &HostRuntime, file: &File, page: &mut Page) -> io::Result<Option<PathBuf>> {
    write!(page, "/proc/self/fd/{}", file.as_raw_fd());
    let name = system::read_link(rt, page.text());
    page.clear();
    match name {
        Ok(name) => Ok(Some(name)),
        Err(why) if why.raw_os_error().is_some() => Ok(None),
        Err(why) => Err(why),
    }
}

// A file's name is stored by storing its folder.
fn store_folder(rt: &HostRuntime, clean: &[u8]) -> io::Result<()> {
    let folder = match clean.iter().rposition(|b| *b == b'/') {
        Some(last) => system::open_read(rt, &clean[..=last])?,
        None => system::open_read(rt, b".")?,
    };
    folder.sync_all()
}
