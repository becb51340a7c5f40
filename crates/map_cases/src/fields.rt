//! The fields of a map, which answer its calls.

use dso_base::{Reply, Request, Value};
use std::alloc::{AllocError, Global};

/// The values of a map's fields.
#[derive(Drop)]
pub struct Fields {
    values: Vec<Value>,
}

impl Fields {
    /// Those of an empty map.
    pub fn new(alloc: Global) -> Result<Fields, AllocError> {
        let mut values = Vec::new(alloc);
        for field in 0..769u32 {
            values.push(first_value(field))?;
        }
        Ok(Fields { values })
    }

    /// The reply to a request of one of them.
    pub fn reply(&mut self, request: Request) -> Reply {
        match request {
            Request::Get(_, field) => Reply::Val(self.value(field)),
            Request::Put(_, field, value) => self.written(field, value),
            _ => Reply::Local,
        }
    }

    /// A field's value.
    fn value(&self, field: u32) -> Value {
        match self.values.get(field as usize) {
            Some(value) => *value,
            None => Value::Null,
        }
    }

    /// Writes a field.
    fn written(&mut self, field: u32, value: Value) -> Reply {
        if let Some(place) = self.values.get_mut(field as usize) {
            *place = value;
        }
        Reply::Done
    }
}

/// The value that a field begins with.
fn first_value(field: u32) -> Value {
    match field % 3 {
        0 if field < 768 => Value::Bool(false),
        2 => Value::Null,
        _ => Value::Long(0),
    }
}
