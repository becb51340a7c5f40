//! What an entry of a client touches, and so which of the client's threads it may let act, or keep from acting
//! (`specs/EntryTouches.antt`).
ghost use Rattle.std.specs.List.{flat_map};
ghost use Rattle.std.specs.Prelude.{◌≡◌, ◌∷◌, ◌<◌, [], Some, map};
ghost use Rattle.dso_base.specs.declared.lock.ThreadId.{ThreadId};
ghost use Rattle.dso_open_law.specs.TouchedThreads.{OfIds, OfLock, OfObject, OfRecords, awaited, sent_topics, up_topics};
ghost use Rattle.dso_world.specs.EntryTouches.{Adds, AddsActed, AddsBucket, AddsDone, AddsMade, AddsTaken, Covers};

use crate::asking_threads::{IDS_BUCKET, RECORDS_BUCKET, lock_bucket, object_bucket};
use crate::bits::with_bit;
use dso_base::{
    Body, Down, Entry, Event, Input, Level, LockName, Reply, Request, Sent, ThreadId, Up,
};

/// What an entry of a client touches: the ids that are left, objects, locks, and records that aren't acknowledged; by
/// the buckets of these topics, a bit for each (`specs/AskingThreads.antt`).
///
/// It is one word, whatever the entry takes in and sends. So it may have more than the entry touches: with a topic all
/// of its bucket.
#[derive(Clone, Copy)]
pub struct Touches {
    buckets: u64,
}

impl Touches {
    /// With the bucket.
    fn with_bucket(self, bucket: u32) -> Touches
        requires { bucket < 64 }
        ensures { AddsBucket bucket self result }
    {
        Touches {
            buckets: with_bit(self.buckets, bucket),
        }
    }

    /// With the ids that are left.
    fn with_ids(self) -> Touches
        ensures { Adds (OfIds ∷ []) self result }
    {
        self.with_bucket(IDS_BUCKET)
    }

    /// With records that aren't acknowledged.
    fn with_records(self) -> Touches
        ensures { (t : ThreadId) → Adds (OfRecords t ∷ []) self result }
    {
        self.with_bucket(RECORDS_BUCKET)
    }

    /// With the object.
    #[tactic(auto, using(crate::proofs::touches::Added::bucket_added))]
    fn with_object(self, object: u64) -> Touches
        ensures { Adds (OfObject object ∷ []) self result }
    {
        self.with_bucket(object_bucket(object))
    }

    /// With the lock.
    #[tactic(auto, using(crate::proofs::touches::Added::bucket_added))]
    fn with_lock(self, lock: LockName) -> Touches
        ensures { Adds (OfLock lock ∷ []) self result }
    {
        self.with_bucket(lock_bucket(lock))
    }

    /// With the lock that a thread awaits at `Write` whose next request this is.
    fn with_awaited(self, request: Option<Request>) -> Touches
        ensures { Adds (awaited request) self result }
    {
        match request {
            Some(Request::Enter(lock, Level::Write)) => self.with_lock(lock),
            Some(Request::Resume(lock)) => self.with_lock(lock),
            _ => self,
        }
    }

    /// With what the entry takes in.
    #[tactic(auto, using(crate::proofs::touches::Added::acked_added))]
    fn with_taken(self, input: &Input) -> Touches
        ensures { AddsTaken input.now self result }
    {
        match input {
            Input::Flush(object) => self.with_object(*object),
            Input::TookDown(Down::Ids(_)) => self.with_ids(),
            Input::TookDown(Down::Object(body)) => self.with_object(body.get().object),
            Input::TookDown(Down::Grant(lock, _)) => self.with_lock(*lock),
            Input::TookDown(Down::Recall(lock)) => self.with_lock(*lock),
            Input::TookDown(Down::Wake(lock, _)) => self.with_lock(*lock),
            Input::TookDown(Down::Ack(_)) => self.with_records(),
            _ => self,
        }
    }

    /// With what an act does.
    #[tactic(auto, using(crate::proofs::touches::Added::part_added))]
    fn with_done(self, request: Request, reply: Reply, woken: Option<ThreadId>) -> Touches
        ensures { AddsDone request reply woken self result }
    {
        match (request, reply) {
            (Request::Enter(lock, _), Reply::Done) => self.with_lock(lock),
            (Request::Exit(lock), Reply::Done) => self.with_lock(lock),
            (Request::Wait(lock), Reply::Done) => self.with_lock(lock),
            (Request::Resume(lock), Reply::Done) => self.with_lock(lock),
            (Request::NotifyAll(lock), Reply::Done) => self.with_lock(lock),
            (Request::Notify(lock), Reply::Done) => match woken {
                Some(_) => self.with_lock(lock),
                None => self,
            },
            _ => self,
        }
    }

    /// With the ids that are left, where the reply is that of an object made.
    #[tactic(auto, using(crate::proofs::touches::Added::part_added))]
    fn with_made(self, reply: Reply) -> Touches
        ensures { AddsMade reply self result }
    {
        match reply {
            Reply::Made(_) => self.with_ids(),
            _ => self,
        }
    }

    /// With what the event touches, of a thread that asks this next.
    fn with_event(self, event: &Event, next: Option<Request>) -> Touches
        ensures { AddsActed (Some event.now) next self result }
    {
        match event {
            Event::Act {
                request,
                reply,
                woken,
                ..
            } => {
                let done = self.with_made(*reply).with_done(*request, *reply, *woken);
                done.with_awaited(Some(*request)).with_awaited(next)
            }
            Event::Lost(_) => self,
        }
    }

    /// With what the entry's event touches, where it has one.
    fn with_acted(self, entry: &Entry, next: Option<Request>) -> Touches
        ensures { AddsActed entry.now.event next self result }
    {
        match &entry.event {
            Some(event) => self.with_event(event.get(), next),
            None => self,
        }
    }

    /// With the objects that a record publishes.
    fn with_news(self, news: &[Body]) -> Touches
        ensures { Adds (map (λ body. OfObject body.object) news.now) self result }
    {
        match news {
            [] => self,
            [body, rest @ ..] => self.with_object(body.object).with_news(rest),
        }
    }

    /// With what a message to the server touches.
    fn with_message(self, message: &Up) -> Touches
        ensures { Adds (up_topics message.now) self result }
    {
        match message {
            Up::IdAsk => self.with_ids(),
            Up::Fault(object) => self.with_object(*object),
            Up::Flushed(_) => self,
            Up::Request(lock, _) => self.with_lock(*lock),
            Up::Return(lock, _) => self.with_lock(*lock),
            Up::Commit(txn) => self.with_records().with_news(txn.get().news.as_slice()),
        }
    }

    /// With what the message touches.
    fn with_one(self, message: &Sent) -> Touches
        ensures { Adds (sent_topics message.now) self result }
    {
        match message {
            Sent::ToServer(up) => self.with_message(up),
            Sent::ToClient(_, _) => self,
        }
    }

    /// With what the messages touch.
    fn with_sent(self, messages: &[Sent]) -> Touches
        ensures { Adds (flat_map sent_topics messages.now) self result }
    {
        match messages {
            [] => self,
            [message, rest @ ..] => self.with_one(message).with_sent(rest),
        }
    }

    /// What the entry touches, whose thread, where one acts, asks this next. It costs a step for each message sent
    /// and each object published.
    pub(crate) fn of(entry: &Entry, next: Option<Request>) -> Touches
        ensures { Covers entry.now next result }
    {
        let none = Touches { buckets: 0 };
        none.with_taken(&entry.input)
            .with_acted(entry, next)
            .with_sent(entry.sent.as_slice())
    }

    /// The buckets, a bit for each.
    pub(crate) fn buckets(self) -> u64
        ensures { result ≡ self.buckets }
    {
        self.buckets
    }
}
