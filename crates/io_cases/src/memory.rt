//! The files in memory, by their own calls.
use dso_base::NoMemory;
use dso_io::{Files, MemFiles};
use std::alloc::Global;
use std::io;

/// Files in memory with one that is there; the third call of all is to fail.
fn opened(alloc: Global) -> Result<MemFiles, NoMemory> {
    let mut files = MemFiles::new(alloc, &[3])?;
    files.add(alloc, "a", b"old")?;
    Ok(files)
}

/// Prints what the calls of files in memory answer.
pub fn show_files(rt: &HostRuntime) -> io::Result<()> {
    match opened(rt.alloc()) {
        Ok(mut files) => show_answers(rt, &mut files),
        Err(_) => println!(rt; "files in memory: no memory"),
    }
}

/// Writes the file anew, and reads the first two bytes of it twice; prints the answers, a line each.
fn show_answers(rt: &HostRuntime, files: &mut MemFiles) -> io::Result<()> {
    let write = files.write(rt.alloc(), "a", b"new");
    println!(rt; "a file in memory is written: {write:?}")?;
    show_content(rt, files.content("a").unwrap_or(b""))?;
    let missing = files.content("b").is_none();
    println!(rt; "a name that was never written has no file: {missing}")?;
    show_read(rt, files, "a read gives the first bytes that it asks for")?;
    show_read(rt, files, "a read whose call is listed fails")
}

/// Prints the content of the file.
fn show_content(rt: &HostRuntime, content: &[u8]) -> io::Result<()> {
    let content = String::from_utf8_lossy(rt.alloc(), content)?;
    println!(rt; "a file in memory keeps what was written last: {content}")
}

/// Prints what a read of two bytes answers, behind the sentence.
fn show_read(rt: &HostRuntime, files: &mut MemFiles, sentence: &str) -> io::Result<()> {
    let read = files.read(rt.alloc(), "a", 2);
    println!(rt; "{sentence}: {read:?}")
}
