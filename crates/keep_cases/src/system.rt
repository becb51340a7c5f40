//! A file of the system as a disk, in a folder of its own.

use case_words::{bytes_of, count, digits_of, first_of, number};
use dso_base::NoMemory;
use dso_io::{Failed, FileFault};
use dso_keep::{Disk, StdDisk};
use std::alloc::Global;
use std::path::Path;
use std::{fs, io};

/// How many folders are tried for one that isn't there yet.
const TRIES: u32 = 1000;

/// Makes a folder that isn't there yet in this one, and answers its name.
pub fn folder_in(rt: &HostRuntime, temporary: Path<'_>) -> io::Result<String> {
    for number in 0..TRIES {
        let name = format!(in rt.alloc(); "dsorun-keep-cases-{number}")?;
        let folder = temporary.join(rt.alloc(), name.as_str())?;
        if fs::create_dir(rt, folder.as_str()).is_ok() {
            return Ok(folder.into_string());
        }
    }
    Err(io::Error::from(io::ErrorKind::AlreadyExists))
}

/// What each of these calls answers that a disk of the system is given, one after the other. Its names are in the folder;
/// `folder` is the folder itself.
pub fn answers(rt: &HostRuntime, folder: &str, calls: &str) -> Result<String, NoMemory> {
    let mut disk = StdDisk::new(rt);
    let mut text = String::new(rt.alloc());
    for call in calls.split(", ") {
        let answer = answer(rt.alloc(), &mut disk, folder, call)?;
        text = format!(in rt.alloc(); "{text}{answer}; ")?;
    }
    let text = String::from_str(rt.alloc(), text.trim_end_matches("; "))?;
    Ok(text)
}

/// What one call answers.
fn answer(
    alloc: Global,
    disk: &mut StdDisk<&HostRuntime>,
    folder: &str,
    call: &str,
) -> Result<String, NoMemory> {
    let (word, rest) = first_of(call);
    let text = match word {
        "attach" => done(alloc, disk.attach(path_of(alloc, folder, rest)?.as_str()))?,
        "len" => match disk.len() {
            Ok(count) => format!(in alloc; "{count} bytes")?,
            Err(_) => String::from_str(alloc, "failed")?,
        },
        "read" => read(alloc, disk, rest)?,
        "write" => write(alloc, disk, rest)?,
        _ => done(alloc, disk.sync())?,
    };
    Ok(text)
}

/// The path of a name in the folder.
fn path_of(alloc: Global, folder: &str, name: &str) -> Result<String, NoMemory> {
    let path = match name {
        "folder" => String::from_str(alloc, folder)?,
        _ => format!(in alloc; "{folder}/{name}")?,
    };
    Ok(path)
}

/// The bytes that a read gives, from a place on and at most so many.
fn read(alloc: Global, disk: &mut StdDisk<&HostRuntime>, call: &str) -> Result<String, NoMemory> {
    let (at, most) = first_of(call);
    let at = number(at).unwrap_or(0);
    let most = count(most).unwrap_or(0);
    let text = match disk.read_at(alloc, at, most) {
        Ok(bytes) => format!(in alloc; "bytes {}", digits_of(alloc, &bytes)?)?,
        Err(FileFault::Failed) => String::from_str(alloc, "failed")?,
        Err(FileFault::NoMemory(refused)) => return Err(refused),
    };
    Ok(text)
}

/// What a write answers, at a place and of these bytes.
fn write(alloc: Global, disk: &mut StdDisk<&HostRuntime>, call: &str) -> Result<String, NoMemory> {
    let (at, bytes) = first_of(call);
    let at = number(at).unwrap_or(0);
    let bytes = bytes_of(alloc, bytes)?;
    done(alloc, disk.write_at(at, &bytes))
}

/// Whether a call was done.
fn done(alloc: Global, answer: Result<(), Failed>) -> Result<String, NoMemory> {
    let text = match answer {
        Ok(()) => "done",
        Err(_) => "failed",
    };
    let text = String::from_str(alloc, text)?;
    Ok(text)
}
