//! The words that every layer speaks: values, locks, requests, events, records, messages, the journal.
#![tactic(auto)]

mod both;
mod boxed;
mod data;
mod items;
mod journal;
mod lock;
mod message;
mod no_memory;
mod op;
mod part;
mod record;
mod request;
mod shape;
mod shared;
mod value;
mod word;

pub use both::Both;
pub use boxed::Boxed;
pub use data::{Data, Same};
pub use items::Items;
pub use journal::{Entry, Input, Journal, Node, Sent, Trigger};
pub use lock::{Grade, Level, LockName, ThreadId};
pub use message::{Down, Up};
pub use no_memory::NoMemory;
pub use op::Op;
pub use part::{Part, Span};
pub use record::{Body, Choice, Ending, Note, Set, Txn};
pub use request::{Event, Fault, Reply, Request};
pub use shape::{ClassShape, FieldShape, Guard, Shape};
pub use shared::Shared;
pub use value::{ClassId, Kind, Value, fits};
pub use word::Word;
