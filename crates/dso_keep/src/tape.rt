//! A file in memory with all that was done to it (`specs/Tape.antt`).
ghost use Rattle.std.specs.Prelude.{◌≡◌, ◌+◌, ◌-◌, ◌≤◌, ◌<◌, ◌||◌, nat_lt, [], ◌∷◌, ◌^◌, length, drop, vec_len, vec_capacity, IfOk};
ghost use Rattle.dso_keep.specs.Disk.{Attached, MayLeave, Wrote, Synced, bytes_after, bytes_in, with_bytes};
ghost use Rattle.dso_keep.specs.Memory.{count_pending, image_of};
ghost use Rattle.dso_keep.specs.Tape.{AreWithin, BeginsWithin, change_told, changes_of, count_in, count_of};

use dso_base::NoMemory;
use std::alloc::Global;
use std::marker::Model;

/// What was done to the file. The bytes of a write stand elsewhere.
#[derive(Clone, Copy, Debug, PartialEq, Eq)]
pub(crate) enum Mark {
    Attached,
    Wrote { at: u64, count: usize },
    Synced,
}

/// A file in memory: the bytes that it had at first and those that it has now, and all that was done to it. It makes the
/// room for all of this first.
#[derive(Drop)]
pub(crate) struct Tape {
    first: Vec<u8>,
    bytes: Vec<u8>,
    marks: Vec<Mark>,
    written: Vec<u8>,
    pending: u32,
    most_marks: usize,
    most_bytes: usize,
}

impl Model for Tape {
    ghost use Rattle.std.specs.Prelude.{◌≡◌, ◌+◌, ◌≤◌, ◌<◌, ◌^◌, length, vec_len, vec_capacity};
    ghost use Rattle.dso_keep.specs.Disk.{bytes_after};
    ghost use Rattle.dso_keep.specs.Memory.{count_pending};
    ghost use Rattle.dso_keep.specs.Tape.{AreWithin, RecordedFile, changes_of, count_of};

    ghost Value = { RecordedFile };

    ghost view = { λ a. record {
      file = record { first = a.first.items; changes = changes_of a.first.items a.marks.items a.written.items };
      written = vec_len a.written;
      most_marks = a.most_marks;
      most_bytes = a.most_bytes;
    } };

    ghost invariant = { λ a. (a.bytes.items ≡ bytes_after a.first.items (changes_of a.first.items a.marks.items a.written.items))
        × AreWithin a.first.items (changes_of a.first.items a.marks.items a.written.items)
        × (count_of a.marks.items ≡ length a.written.items)
        × (length (changes_of a.first.items a.marks.items a.written.items) ≡ vec_len a.marks)
        × (a.pending ≡ count_pending (changes_of a.first.items a.marks.items a.written.items))
        × (a.pending ≤ vec_len a.marks)
        × (vec_len a.marks ≤ a.most_marks)
        × (a.most_marks < 2 ^ 32)
        × (vec_len a.bytes ≤ vec_len a.first + vec_len a.written)
        × (vec_len a.written ≤ a.most_bytes)
        × (vec_len a.first + a.most_bytes ≤ vec_capacity a.bytes)
        × (a.most_bytes ≤ vec_capacity a.written)
        × (a.most_marks ≤ vec_capacity a.marks) };
}

impl Tape {
    /// A file with these bytes, to which nothing was done.
    pub(crate) fn new(
        alloc: Global,
        bytes: &[u8],
        most_marks: u32,
        most_bytes: u32,
    ) -> Result<Tape, NoMemory>
        requires { length bytes.now < 2 ^ 62 }
        ensures { IfOk result (λ tape. tape ≡ record {
          file = record { first = bytes.now; changes = [] };
          written = 0;
          most_marks = most_marks;
          most_bytes = most_bytes;
        }) }
    {
        let first = Vec::from_slice(alloc, bytes)?;
        let mut now = Vec::with_capacity(alloc, bytes.len() + most_bytes as usize)?;
        now.extend_from_slice(bytes)?;
        Ok(Tape {
            first,
            bytes: now,
            marks: Vec::with_capacity(alloc, most_marks as usize)?,
            written: Vec::with_capacity(alloc, most_bytes as usize)?,
            pending: 0,
            most_marks: most_marks as usize,
            most_bytes: most_bytes as usize,
        })
    }

    /// The bytes that the file has.
    pub(crate) fn bytes(&self) -> &[u8]
        ensures { result.now ≡ bytes_in self.now.file }
    {
        self.bytes.as_slice()
    }

    /// Whether there is no room for so many marks, or for so many bytes more.
    pub(crate) fn is_full(&self, marks: u64, bytes: usize) -> bool
        ensures { result ≡ (nat_lt self.now.most_marks marks || nat_lt self.now.most_bytes (self.now.written + bytes)) }
    {
        marks > self.most_marks as u64 || bytes > self.most_bytes - self.written.len()
    }

    /// The file is taken anew, as it is.
    #[tactic(auto, using(crate::proofs::recording::Marks::with_attached, crate::proofs::recording::Marks::count_more))]
    pub(crate) fn attach(&mut self)
        requires { length self.old.file.changes < self.old.most_marks }
        ensures { self.new ≡ record self.old {
          file = record self.old.file { changes = Attached (bytes_in self.old.file) ∷ self.old.file.changes };
        } }
    {
        self.marks.push(Mark::Attached).unwrap();
        self.pending = 0;
    }

    /// All that was written is put on the disk.
    #[tactic(auto, using(crate::proofs::recording::Marks::with_synced, crate::proofs::recording::Marks::count_more))]
    pub(crate) fn sync(&mut self)
        requires { length self.old.file.changes < self.old.most_marks }
        ensures { self.new ≡ record self.old {
          file = record self.old.file { changes = Synced ∷ self.old.file.changes };
        } }
    {
        self.marks.push(Mark::Synced).unwrap();
        self.pending = 0;
    }

    /// Bytes are written at a place.
    #[tactic(auto, using(crate::proofs::recording::Marks::with_write, crate::proofs::recording::Marks::count_more))]
    pub(crate) fn write(&mut self, at: u64, bytes: &[u8])
        requires within { at ≤ length (bytes_in self.old.file) }
        requires marks { length self.old.file.changes < self.old.most_marks }
        requires room { self.old.written + length bytes.now ≤ self.old.most_bytes }
        ensures { self.new ≡ record self.old {
          file = record self.old.file { changes = Wrote at bytes.now ∷ self.old.file.changes };
          written = self.old.written + length bytes.now;
        } }
    {
        let mark = Mark::Wrote {
            at,
            count: bytes.len(),
        };
        self.marks.push(mark).unwrap();
        self.written.extend_from_slice(bytes).unwrap();
        overwrite(&mut self.bytes, at as usize, bytes);
        self.pending += 1;
    }

    /// How many writes there were since the file was last taken or synced.
    pub(crate) fn pending(&self) -> u32
        ensures { result ≡ count_pending self.now.file.changes }
    {
        self.pending
    }

    /// The bytes that the file would have with the first `kept` of the pending writes alone.
    pub(crate) fn image(&self, alloc: Global, kept: u32) -> Result<Vec<u8>, NoMemory>
        requires { kept ≤ count_pending self.now.file.changes }
        ensures image { IfOk result (λ bytes. bytes.items ≡ image_of kept self.now.file) }
        ensures left { IfOk result (λ bytes. MayLeave self.now.file.first self.now.file.changes bytes.items) }
    {
        let count = self.marks.len() - (self.pending - kept) as usize;
        let marks = &self.marks[..count];
        played(alloc, self.first.as_slice(), marks, self.written.as_slice())
    }
}

/// The bytes that the marks make of those that the file had at first, with the bytes written.
fn played(alloc: Global, first: &[u8], marks: &[Mark], written: &[u8]) -> Result<Vec<u8>, NoMemory>
    requires own { count_of marks.now ≤ length written.now }
    requires within { AreWithin first.now (changes_of first.now marks.now written.now) }
    requires room { length first.now + length written.now < 2 ^ 63 }
    ensures { IfOk result (λ bytes. bytes.items ≡ bytes_after first.now (changes_of first.now marks.now written.now)) }
{
    let mut bytes = Vec::with_capacity(alloc, first.len() + written.len())?;
    bytes.extend_from_slice(first)?;
    let mut used = 0;
    for place in 0..marks.len() {
        used = repeat(&mut bytes, marks[place], written, used);
    }
    Ok(bytes)
}

/// Does again what a mark tells of, with its own bytes of those written, and answers how many of these are used then.
fn repeat(bytes: &mut Vec<u8>, mark: Mark, written: &[u8], used: usize) -> usize
    requires within { BeginsWithin bytes.old.items mark }
    requires own { used + count_in mark ≤ length written.now }
    requires room { vec_len bytes.old + count_in mark ≤ vec_capacity bytes.old }
    ensures used { result ≡ used + count_in mark }
    ensures bytes { bytes.new.items ≡ bytes_after bytes.old.items (change_told bytes.old.items mark (drop used written.now) ∷ []) }
    ensures longer { vec_len bytes.new ≤ vec_len bytes.old + count_in mark }
    ensures room { vec_capacity bytes.old ≤ vec_capacity bytes.new }
{
    match mark {
        Mark::Wrote { at, count } => {
            overwrite(bytes, at as usize, &written[used..used + count]);
            used + count
        }
        Mark::Attached | Mark::Synced => used,
    }
}

/// Puts bytes in the place of those from a place on, and behind the end. There is room for them.
fn overwrite(bytes: &mut Vec<u8>, at: usize, new: &[u8])
    requires within { at ≤ vec_len bytes.old }
    requires room { vec_len bytes.old + length new.now ≤ vec_capacity bytes.old }
    ensures bytes { bytes.new.items ≡ with_bytes at new.now bytes.old.items }
    ensures longer { vec_len bytes.new ≤ vec_len bytes.old + length new.now }
    ensures room { vec_capacity bytes.old ≤ vec_capacity bytes.new }
{
    let inside = new.len().min(bytes.len() - at);
    let (front, back) = new.split_at(inside);
    bytes[at..at + inside].copy_from_slice(front);
    bytes.extend_from_slice(back).unwrap();
}
