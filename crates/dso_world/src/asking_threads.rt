//! Threads by what they ask next (`specs/AskingThreads.antt`).
ghost use Rattle.std.specs.Int.{bit_at};
ghost use Rattle.std.specs.Prelude.{◌≡◌, ◌+◌, ◌*◌, ◌<◌, ℕ, IfOk, IfSome, Some, replicate};
ghost use Rattle.dso_base.specs.declared.lock.ThreadId.{ThreadId};
ghost use Rattle.dso_open_law.specs.TouchedThreads.{OfLock, OfObject, topic};
ghost use Rattle.dso_world.specs.AskingThreads.{IsOne, IsListed, IsUnder, Turns, bucket_of, row_of, word_at};

use crate::bits::{first_bit, with_bit, without_bit};
use dso_base::{Entry, Event, LockName, NoMemory, Request, ThreadId};
use std::alloc::Global;
use std::marker::Model;

/// How many buckets each client has: two of one topic, and those of objects and of locks by their numbers.
const BUCKETS: usize = 64;

/// The bucket of the ids that are left.
pub(crate) const IDS_BUCKET: u32 = 0;

/// The bucket of the records that aren't acknowledged.
pub(crate) const RECORDS_BUCKET: u32 = 1;

/// The first bucket of objects.
const FIRST_OBJECT_BUCKET: u32 = 2;

/// The first bucket of locks, behind those of objects.
const FIRST_LOCK_BUCKET: u32 = 33;

/// How many buckets there are of objects, and of locks.
const NUMBERED: u64 = 31;

/// The bucket of an object.
pub(crate) fn object_bucket(object: u64) -> u32
    ensures bucket { bucket_of (OfObject object) ≡ Some result }
    ensures within { result < 64 }
{
    (object % NUMBERED) as u32 + FIRST_OBJECT_BUCKET
}

/// The bucket of a lock.
pub(crate) fn lock_bucket(lock: LockName) -> u32
    ensures bucket { bucket_of (OfLock lock) ≡ Some result }
    ensures within { result < 64 }
{
    let number = match lock {
        LockName::Mon(object) => object,
        LockName::Name(number) => number as u64,
    };
    (number % NUMBERED) as u32 + FIRST_LOCK_BUCKET
}

/// The bucket of what a thread asks next; None where no entry of others changes the answer.
fn asked_bucket(request: Option<Request>) -> Option<u32>
    ensures bucket { (t : ThreadId) → result ≡ bucket_of (topic t request) }
    ensures within { IfSome result (λ bucket. bucket < 64) }
{
    match request {
        None => None,
        Some(Request::New(_, _)) => Some(IDS_BUCKET),
        Some(Request::Settle) => Some(RECORDS_BUCKET),
        Some(Request::Look(object)) => Some(object_bucket(object)),
        Some(Request::Get(object, _)) => Some(object_bucket(object)),
        Some(Request::Put(object, _, _)) => Some(object_bucket(object)),
        Some(Request::Enter(lock, _)) => Some(lock_bucket(lock)),
        Some(Request::Resume(lock)) => Some(lock_bucket(lock)),
        _ => None,
    }
}

/// Where the word of a client's bucket stands.
fn row_of(client: u8, bucket: u32) -> usize
    requires { bucket < 64 }
    ensures { result ≡ row_of client bucket }
{
    BUCKETS * client as usize + bucket as usize
}

/// For each client the buckets of topics, and in each bucket those of its threads whose next request is of such a topic.
/// So an entry finds the threads whose answer it can change without a look at any other; contracts see a word for each
/// bucket, with a bit for each thread. It takes no memory once it is made.
#[derive(Drop)]
pub struct AskingThreads {
    words: Vec<u64>,
}

impl Model for AskingThreads {
    ghost use Rattle.std.specs.Prelude.{ℕ, List};

    ghost Value = { List ℕ };

    ghost view = { λ asking. asking.words.items };
}

impl AskingThreads {
    /// No thread of so many clients asks for anything.
    pub(crate) fn new(alloc: Global, clients: u8) -> Result<AskingThreads, NoMemory>
        ensures { IfOk result (λ asking. asking ≡ replicate (64 * (clients + 1)) 0) }
    {
        Ok(AskingThreads {
            words: vec![in alloc; 0; BUCKETS * (clients as usize + 1)]?,
        })
    }

    /// The word of a client's bucket: all threads, where there is no such client.
    fn word(&self, client: u8, bucket: u32) -> u64
        requires { bucket < 64 }
        ensures { result ≡ word_at self.now (row_of client bucket) }
    {
        match self.words.get(row_of(client, bucket)) {
            Some(word) => *word,
            None => u64::MAX,
        }
    }

    /// Puts the thread into the bucket of what it asks next.
    pub(crate) fn put_in(&mut self, thread: ThreadId, next: Option<Request>)
        ensures its { thread.index < 64 → IsUnder self.new thread next }
        ensures others { (u : ThreadId) (b : ℕ) → IsListed self.old u b → IsListed self.new u b }
    {
        if let Some(bucket) = asked_bucket(next) {
            let row = row_of(thread.client, bucket);
            if row < self.words.len() {
                self.words[row] = with_bit(self.words[row], thread.index as u32);
            }
        }
    }

    /// Takes the thread out of the bucket of what it asked.
    fn take_out(&mut self, thread: ThreadId, asked: Option<Request>)
        ensures { (u : ThreadId) (b : ℕ) → b < 64 → u.index < 64 → (IsOne thread u → ⊥) → IsListed self.old u b → IsListed self.new u b }
    {
        if let Some(bucket) = asked_bucket(asked) {
            let row = row_of(thread.client, bucket);
            if row < self.words.len() {
                self.words[row] = without_bit(self.words[row], thread.index as u32);
            }
        }
    }

    /// After the entry: the thread that acts by it, where one does, asks this next.
    pub(crate) fn turn(&mut self, entry: &Entry, next: Option<Request>)
        ensures { Turns entry.now.event next self.old self.new }
    {
        match &entry.event {
            Some(event) => match event.get() {
                Event::Act {
                    thread,
                    request,
                    ..
                } => {
                    self.take_out(*thread, Some(*request));
                    self.put_in(*thread, next);
                }
                Event::Lost(_) => {}
            },
            None => {}
        }
    }

    /// The threads of the client that ask for a topic of these buckets.
    pub(crate) fn asking(&self, client: u8, buckets: u64) -> u64
        ensures { (b i : ℕ) → b < 64 → bit_at buckets b ≡ 1 → bit_at (word_at self.now (row_of client b)) i ≡ 1
            → bit_at result i ≡ 1 }
    {
        let mut left = buckets;
        let mut threads = 0;
        while left != 0 {
            let bucket = first_bit(left);
            threads |= self.word(client, bucket);
            left = without_bit(left, bucket);
        }
        threads
    }
}
