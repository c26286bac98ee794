// A file by name, as far as a room holds it.
//
// A read that fails is told from the end of a file, so that what cannot be read never counts as empty. Every file that was opened is closed.
use std::fs::File;
use std::rt::Files;
use std::{fmt, io};

// The numbers of the system's errors that have words: no such file, and not allowed.
const ENOENT: i32 = 2;

const EACCES: i32 = 13;

// Why a file could not be opened or read: by the number that the system gave, or else what the error says of itself.
#[derive(Clone, Copy)]
struct Why(io::Error);

impl fmt::Display for Why {
    fn fmt<W: fmt::Write>(&self, f: &mut fmt::Formatter<W>) -> fmt::Result {
        match self.0.raw_os_error() {
            Some(ENOENT) => f.write_str("no such file"),
            Some(EACCES) => f.write_str("not allowed"),
            Some(number) => write!(f, "error {number}"),
            None => write!(f, "{}", self.0),
        }
    }
}

// A file of which nothing can be judged, and why.
#[derive(Clone, Copy)]
pub(crate) enum NotThere {
    NotOpened(io::Error),
    NotRead(io::Error),
}

impl fmt::Display for NotThere {
    fn fmt<W: fmt::Write>(&self, f: &mut fmt::Formatter<W>) -> fmt::Result {
        match self {
            NotThere::NotOpened(error) => write!(f, "cannot be opened: {}", Why(*error)),
            NotThere::NotRead(error) => write!(f, "cannot be read: {}", Why(*error)),
        }
    }
}

// Opens a file, reads it and closes it, and says how many of its bytes stand over the front of the room. The library opens files by text alone, so
// that a name that is not UTF-8 is refused here.
pub(crate) fn read(files: &impl Files, name: &[u8], room: &mut [u8]) -> Result<usize, NotThere> {
    let Ok(path) = str::from_utf8(name) else {
        let why = "the name is not UTF-8";
        return Err(NotThere::NotOpened(io::Error::new(io::ErrorKind::InvalidFilename, why)));
    };
    let mut file = File::open(files, path).map_err(NotThere::NotOpened)?;
    reading::fill(&mut file, room).map_err(|failed| NotThere::NotRead(failed.error))
}
