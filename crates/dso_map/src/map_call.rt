//! A call of a map that is under way (`specs/Calls.antt`).
ghost use Rattle.std.specs.Prelude.{◌≡◌, IsTrue};
ghost use Rattle.dso_map.specs.Calls.{accepts, after_reply, ended_with, request_of, rest_of};
ghost use Rattle.dso_map.specs.Talk as talk;

use crate::MapOp;
use crate::progress::{read, written};
use crate::requests::{ended, request, takes, writes};
use crate::stage::{Stage, first};
use dso_base::{Data, Reply, Request, Value};

/// A call of a map that is under way: what it asks of the map's fields, one request after the other. No call of it takes
/// memory.
#[derive(Clone, Copy, Debug, PartialEq, Eq)]
pub struct MapCall {
    /// The map that is called.
    pub object: u64,
    /// The call, with its arguments.
    pub op: MapOp,
    stage: Stage,
}

impl Data for MapCall {
    ghost use Rattle.std.proofs.Common.{rules};

    ghost faithful = { Prim.search rules };
}

impl MapCall {
    /// A call of the map that this object is.
    pub fn new(object: u64, op: MapOp) -> MapCall
        ensures rest { rest_of result ≡ talk.talk op }
        ensures object { result.object ≡ object }
        ensures op { result.op ≡ op }
    {
        MapCall {
            object,
            op,
            stage: first(op),
        }
    }

    /// What it asks next: a Get or a Put of a field of the map. None exactly where it has ended.
    pub fn next(&self) -> Option<Request>
        ensures { result ≡ request_of self.now.object (rest_of self.now) }
    {
        request(self.object, self.op, self.stage)
    }

    /// Whether this reply answers what it asks next: Done a Put, and a value of the field's kind a Get.
    pub fn accepts(&self, reply: Reply) -> bool
        ensures { result ≡ accepts (rest_of self.now) reply }
    {
        match reply {
            Reply::Val(value) => takes(self.op, self.stage, value),
            Reply::Done => writes(self.op, self.stage),
            _ => false,
        }
    }

    /// Goes on after a reply that it accepts.
    pub fn answer(&mut self, reply: Reply)
        requires { IsTrue (accepts (rest_of self.old) reply) }
        ensures rest { rest_of self.new ≡ after_reply (rest_of self.old) reply }
        ensures object { self.new.object ≡ self.old.object }
        ensures op { self.new.op ≡ self.old.op }
    {
        self.stage = match reply {
            Reply::Val(value) => read(self.op, self.stage, value),
            _ => written(self.op, self.stage),
        };
    }

    /// The value with which it ended. Some exactly where nothing is asked any more.
    pub fn result(&self) -> Option<Value>
        ensures { result ≡ ended_with (rest_of self.now) }
    {
        ended(self.op, self.stage)
    }
}
