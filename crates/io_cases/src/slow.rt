//! A runtime whose files give and take few bytes at a time and fail after so many, and one that prints so.
use std::alloc::Allocator;
use std::fmt::Display;
use std::fs::{File, Metadata, OpenFile, OpenOptions};
use std::io::{Read, Seek, SeekFrom, Write};
use std::{io, rt};

/// How slow a runtime is.
#[derive(Clone, Copy, Drop)]
pub struct Pace {
    /// How many bytes go through at once, at least one.
    pub piece: usize,
    /// How many bytes go through before each call fails.
    pub left: usize,
}

/// The files of the system, each opened anew at this pace. What is done to names goes to the system, so that a row sees it.
#[derive(Drop)]
pub struct SlowFiles<'a> {
    pub host: &'a HostRuntime,
    pub pace: Pace,
}

/// A file of the system at a pace.
#[derive(Drop)]
pub struct SlowFile {
    file: File,
    pace: Pace,
}

/// What isn't built here.
fn unsupported() -> io::Error {
    io::Error::from(io::ErrorKind::Unsupported)
}

impl Pace {
    /// How many of so many bytes go through now; a fault where no more do.
    fn next(&self, wanted: usize) -> io::Result<usize> {
        if self.left == 0 {
            return Err(io::Error::from(io::ErrorKind::UnexpectedEof));
        }
        Ok(wanted.min(self.piece).min(self.left))
    }
}

impl Read for SlowFile {
    fn read(&mut self, buf: &mut [u8]) -> io::Result<usize> {
        let count = self.pace.next(buf.len())?;
        let (front, _) = buf.split_at_mut(count.min(buf.len()));
        let read = self.file.read(front)?;
        self.pace.left = self.pace.left.saturating_sub(read);
        Ok(read)
    }
}

impl Write for SlowFile {
    fn write(&mut self, buf: &[u8]) -> io::Result<usize> {
        let count = self.pace.next(buf.len())?;
        let (front, _) = buf.split_at(count.min(buf.len()));
        let written = self.file.write(front)?;
        self.pace.left = self.pace.left.saturating_sub(written);
        Ok(written)
    }

    fn flush(&mut self) -> io::Result<()> {
        Ok(())
    }
}

impl Seek for SlowFile {
    fn seek(&mut self, _pos: SeekFrom) -> io::Result<u64> {
        Err(unsupported())
    }
}

impl OpenFile for SlowFile {
    fn metadata(&self) -> io::Result<Metadata> {
        Err(unsupported())
    }

    fn set_len(&self, _size: u64) -> io::Result<()> {
        Err(unsupported())
    }

    fn sync_all(&self) -> io::Result<()> {
        Err(unsupported())
    }

    fn sync_data(&self) -> io::Result<()> {
        Err(unsupported())
    }
}

impl<'a> rt::Files for SlowFiles<'a> {
    type File = SlowFile;

    type Dir = SlowFile;

    fn open_file(&self, how: &OpenOptions, path: &str) -> io::Result<SlowFile> {
        let file = self.host.open_file(how, path)?;
        Ok(SlowFile {
            file,
            pace: self.pace,
        })
    }

    fn open_dir(&self, _path: &str) -> io::Result<SlowFile> {
        Err(unsupported())
    }

    fn metadata(&self, path: &str) -> io::Result<Metadata> {
        self.host.metadata(path)
    }

    fn symlink_metadata(&self, path: &str) -> io::Result<Metadata> {
        self.host.symlink_metadata(path)
    }

    fn copy(&self, from: &str, to: &str) -> io::Result<u64> {
        self.host.copy(from, to)
    }

    fn rename(&self, from: &str, to: &str) -> io::Result<()> {
        self.host.rename(from, to)
    }

    fn remove_file(&self, path: &str) -> io::Result<()> {
        self.host.remove_file(path)
    }

    fn create_dir(&self, path: &str) -> io::Result<()> {
        self.host.create_dir(path)
    }

    fn remove_dir(&self, path: &str) -> io::Result<()> {
        self.host.remove_dir(path)
    }

    fn remove_dir_all<B: Allocator>(&self, alloc: B, path: &str) -> io::Result<()> {
        self.host.remove_dir_all(alloc, path)
    }
}

/// Takes so many bytes at a time, none at all where that is 0, and fails where it is none.
#[derive(Drop)]
pub struct SlowPrint {
    pub piece: Option<usize>,
}

impl Print for SlowPrint {
    fn print<D: Display + Drop>(&self, _value: D) -> io::Result<()> {
        Err(unsupported())
    }

    fn println<D: Display + Drop>(&self, _value: D) -> io::Result<()> {
        Err(unsupported())
    }

    fn write_all(&self, _bytes: &[u8]) -> io::Result<()> {
        Err(unsupported())
    }

    fn write_some(&self, bytes: &[u8]) -> io::Result<usize> {
        match self.piece {
            Some(piece) => Ok(bytes.len().min(piece)),
            None => Err(unsupported()),
        }
    }
}
