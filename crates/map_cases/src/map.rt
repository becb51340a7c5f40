//! The map of the rows.

use crate::calls::{
    asked, last_requests, op_of_words, requests_of, requests_with_held, standing, told_last,
};
use crate::fields::Fields;
use crate::program::{code_of, new_map, no_map};
use crate::threads::{Asked, asked_by};
use case_words::{count, debugged, first_of, long, reply, value_list};
use dso_base::{NoMemory, Reply, Request, Value};
use dso_map::{MapCall, MapOp};
use std::alloc::{AllocError, Global};

/// The map's id.
pub const MAP: u64 = 1;

/// A map's fields, and a call that is answered by hand.
#[derive(Drop)]
pub struct Map {
    fields: Fields,
    call: MapCall,
}

impl Map {
    /// An empty map.
    pub fn new(alloc: Global) -> Result<Map, AllocError> {
        Ok(Map {
            fields: Fields::new(alloc)?,
            call: MapCall::new(MAP, MapOp::Size),
        })
    }

    /// The answer to a command.
    pub fn told(&mut self, alloc: Global, command: &str) -> Result<String, NoMemory> {
        let (word, rest) = first_of(command);
        match word {
            "last" => self.last(alloc, rest),
            "keys" => self.keys(alloc, rest),
            "begin" => self.begun(alloc, rest),
            "answer" => self.answered(alloc, reply(rest)),
            "call" => debugged(alloc, (self.call.object, self.call.op)),
            "thread" => requests_of(alloc, self.thread(alloc, rest)?.as_slice()),
            "holds" => requests_with_held(alloc, self.thread(alloc, rest)?.as_slice()),
            "ends" => self.ends(alloc, rest),
            "null" => requests_of(alloc, self.thread_on_null(alloc, rest)?.as_slice()),
            _ => self.whole(alloc, command),
        }
    }

    /// A whole call.
    fn whole(&mut self, alloc: Global, words: &str) -> Result<String, NoMemory> {
        let Some(op) = op_of_words(alloc, words)? else {
            return debugged(alloc, "no call");
        };
        let (requests, result) = self.called(alloc, op)?;
        asked(alloc, requests.as_slice(), result)
    }

    /// A whole call, of which the last requests are told.
    fn last(&mut self, alloc: Global, words: &str) -> Result<String, NoMemory> {
        let (most, rest) = first_of(words);
        let Some(op) = op_of_words(alloc, rest)? else {
            return debugged(alloc, "no call");
        };
        let (requests, result) = self.called(alloc, op)?;
        told_last(alloc, requests.as_slice(), count(most), result)
    }

    /// The call on the fields: what it asked, and its result.
    fn called(
        &mut self,
        alloc: Global,
        op: MapOp,
    ) -> Result<(Vec<Request>, Option<Value>), NoMemory> {
        let mut call = MapCall::new(MAP, op);
        let mut requests = Vec::new(alloc);
        for _ in 0..1000u32 {
            let Some(request) = call.next() else {
                break;
            };
            requests.push(request)?;
            call = on(call, self.fields.reply(request));
        }
        Ok((requests, call.result()))
    }

    /// Puts so many keys from one on, each with an object.
    fn keys(&mut self, alloc: Global, words: &str) -> Result<String, NoMemory> {
        let (number, first) = first_of(words);
        let mut key = long(first).unwrap_or(0);
        let mut trues = 0u32;
        for _ in 0..count(number).unwrap_or(0) {
            if self.gives_true(MapOp::Put(key, 7)) {
                trues = trues.wrapping_add(1);
            }
            key = key.wrapping_add(1);
        }
        debugged(alloc, trues)
    }

    /// Whether a call on the fields gives true.
    fn gives_true(&mut self, op: MapOp) -> bool {
        let mut call = MapCall::new(MAP, op);
        for _ in 0..1000u32 {
            let Some(request) = call.next() else {
                break;
            };
            call = on(call, self.fields.reply(request));
        }
        call.result() == Some(Value::Bool(true))
    }

    /// What a thread asks that prints what the call on a new map gives, whose fields are these.
    fn thread(&mut self, alloc: Global, words: &str) -> Result<Vec<Asked>, NoMemory> {
        let (method, rest) = first_of(words);
        let args = value_list(alloc, rest, ' ')?;
        let code = code_of(alloc, new_map(), method, args.as_slice())?;
        asked_by(alloc, &code, &mut self.fields)
    }

    /// What a thread asks that calls null.
    fn thread_on_null(&mut self, alloc: Global, words: &str) -> Result<Vec<Asked>, NoMemory> {
        let (method, rest) = first_of(words);
        let args = value_list(alloc, rest, ' ')?;
        let code = code_of(alloc, no_map(), method, args.as_slice())?;
        asked_by(alloc, &code, &mut self.fields)
    }

    /// What a thread asks that makes the call, of which the last requests are told.
    fn ends(&mut self, alloc: Global, words: &str) -> Result<String, NoMemory> {
        let (most, rest) = first_of(words);
        let asked = self.thread(alloc, rest)?;
        last_requests(alloc, asked.as_slice(), count(most))
    }

    /// Begins a call that is answered by hand.
    fn begun(&mut self, alloc: Global, words: &str) -> Result<String, NoMemory> {
        if let Some(op) = op_of_words(alloc, words)? {
            self.call = MapCall::new(MAP, op);
        }
        standing(alloc, self.call)
    }

    /// Answers it, where it accepts the reply.
    fn answered(&mut self, alloc: Global, reply: Option<Reply>) -> Result<String, NoMemory> {
        match reply {
            Some(reply) if self.call.accepts(reply) => {
                self.call.answer(reply);
                standing(alloc, self.call)
            }
            _ => debugged(alloc, "not accepted"),
        }
    }
}

/// The call after the reply, where it accepts it.
fn on(call: MapCall, reply: Reply) -> MapCall {
    let mut call = call;
    if call.accepts(reply) {
        call.answer(reply);
    }
    call
}
