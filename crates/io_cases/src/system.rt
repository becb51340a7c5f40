//! Files of the system in a folder of their own: made and looked at by std, read and written by `StdFiles`.
use crate::slow::{Pace, SlowFiles};
use dso_io::{FileFault, Files, StdFiles};
use std::alloc::{AllocError, Global};
use std::fmt::{Display, Formatter};
use std::path::{Path, PathBuf};
use std::{fmt, fs, io};

/// How many folders are tried for one that isn't there yet.
const TRIES: u32 = 1000;

/// The folder of a run, with the names that the rows use.
#[derive(Drop)]
pub struct System {
    folder: String,
    file: String,
    missing: String,
    nowhere: String,
}

/// What a row comes to.
#[derive(Clone, Copy, PartialEq)]
pub enum Outcome {
    /// So many bytes, and they are the first ones of the file.
    First(usize),
    /// So many bytes, and they are others.
    Others(usize),
    /// Nothing was read or written.
    Fault(FileFault),
    /// A second read came to something else, or the folder doesn't hold what it is to hold.
    Disturbed,
}

impl Display for Outcome {
    fn fmt<W: fmt::Write>(&self, f: &mut Formatter<W>) -> fmt::Result {
        match self {
            Outcome::First(count) => write!(f, "{count} bytes, the right ones"),
            Outcome::Others(count) => write!(f, "{count} bytes, wrong ones"),
            Outcome::Fault(fault) => write!(f, "{fault}"),
            Outcome::Disturbed => write!(f, "not so a second time, or the folder is disturbed"),
        }
    }
}

impl System {
    /// Makes a folder that isn't there yet in this one.
    pub fn new(rt: &HostRuntime, temporary: Path<'_>) -> io::Result<System> {
        for number in 0..TRIES {
            let name = format!(in rt.alloc(); "dsorun-io-cases-{number}")?;
            let folder = temporary.join(rt.alloc(), name.as_str())?;
            if fs::create_dir(rt, folder.as_str()).is_ok() {
                return System::in_folder(rt.alloc(), folder);
            }
        }
        Err(io::Error::from(io::ErrorKind::AlreadyExists))
    }

    /// The names in this folder.
    fn in_folder(alloc: Global, folder: PathBuf) -> io::Result<System> {
        Ok(System {
            file: folder.join(alloc, "file")?.into_string(),
            missing: folder.join(alloc, "missing")?.into_string(),
            nowhere: folder.join(alloc, "missing/file")?.into_string(),
            folder: folder.into_string(),
        })
    }

    /// The folder's name.
    pub fn folder(&self) -> &str {
        self.folder.as_str()
    }

    /// A name that isn't there.
    pub fn missing(&self) -> &str {
        self.missing.as_str()
    }

    /// A name in a folder that isn't there.
    pub fn nowhere(&self) -> &str {
        self.nowhere.as_str()
    }

    /// How many entries the folder has.
    pub fn entries(&self, rt: &HostRuntime) -> io::Result<usize> {
        let mut count: usize = 0;
        for entry in fs::read_dir(rt, self.folder.as_str())? {
            entry?;
            count = count.saturating_add(1);
        }
        Ok(count)
    }

    /// Makes a file of so many bytes, and reads at most so many of it, twice. Both reads are to come to the same, and the
    /// folder is to hold this file then, with its bytes, and nothing else.
    pub fn read(
        &self,
        rt: &HostRuntime,
        size: usize,
        most: usize,
        pace: Pace,
    ) -> io::Result<Outcome> {
        let bytes = bytes_of(rt.alloc(), size)?;
        fs::write(rt, self.file.as_str(), bytes.as_slice())?;
        let mut files = StdFiles::new(rt.alloc(), SlowFiles { host: rt, pace });
        let first = self.read_once(&mut files, rt.alloc(), bytes.as_slice(), most);
        let second = self.read_once(&mut files, rt.alloc(), bytes.as_slice(), most);
        let left = fs::read(rt, self.file.as_str())?;
        if first != second || left != bytes || self.entries(rt)? != 1 {
            return Ok(Outcome::Disturbed);
        }
        Ok(first)
    }

    /// Reads at most so many bytes of the file, which has these.
    fn read_once<F: Files>(
        &self,
        files: &mut F,
        alloc: Global,
        bytes: &[u8],
        most: usize,
    ) -> Outcome {
        match files.read(alloc, self.file.as_str(), most as u64) {
            Ok(read) => compared(read.as_slice(), bytes, bytes.len().min(most)),
            Err(fault) => Outcome::Fault(fault),
        }
    }

    /// Reads under a name, and tells how many bytes came.
    pub fn read_name(rt: &HostRuntime, name: &str) -> Outcome {
        let mut files = StdFiles::new(rt.alloc(), rt);
        match files.read(rt.alloc(), name, 100) {
            Ok(read) => Outcome::Others(read.len()),
            Err(fault) => Outcome::Fault(fault),
        }
    }

    /// Makes a file of so many bytes, writes so many over it, and looks at what it has then. The folder is to hold nothing
    /// else.
    pub fn write(
        &self,
        rt: &HostRuntime,
        before: usize,
        size: usize,
        pace: Pace,
    ) -> io::Result<Outcome> {
        let old = bytes_of(rt.alloc(), before)?;
        fs::write(rt, self.file.as_str(), old.as_slice())?;
        let bytes = bytes_of(rt.alloc(), size)?;
        let mut files = StdFiles::new(rt.alloc(), SlowFiles { host: rt, pace });
        let written = files.write(rt.alloc(), self.file.as_str(), bytes.as_slice());
        if self.entries(rt)? != 1 {
            return Ok(Outcome::Disturbed);
        }
        if let Err(fault) = written {
            return Ok(Outcome::Fault(fault));
        }
        let now = fs::read(rt, self.file.as_str())?;
        Ok(compared(now.as_slice(), bytes.as_slice(), size))
    }

    /// Writes a few bytes under a name.
    pub fn write_name(rt: &HostRuntime, name: &str) -> Outcome {
        let mut files = StdFiles::new(rt.alloc(), rt);
        match files.write(rt.alloc(), name, b"text") {
            Ok(()) => Outcome::First(4),
            Err(fault) => Outcome::Fault(fault),
        }
    }
}

/// Whether the bytes are the first ones of others, so many of them.
fn compared(bytes: &[u8], others: &[u8], count: usize) -> Outcome {
    let (first, _) = others.split_at(count.min(others.len()));
    if bytes == first {
        Outcome::First(bytes.len())
    } else {
        Outcome::Others(bytes.len())
    }
}

/// So many bytes, in a pattern that comes again after 251 of them.
fn bytes_of(alloc: Global, count: usize) -> Result<Vec<u8>, AllocError> {
    let mut bytes = Vec::new(alloc);
    for place in 0..count {
        bytes.push((place % 251) as u8)?;
    }
    Ok(bytes)
}
