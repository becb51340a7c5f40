//! Sweeps of the server's graph.
ghost use Rattle.std.specs.Prelude.{◌≡◌, false, IfOk};
ghost use Rattle.dso_lookup.specs.Search.{is_listed};

use case_words::{number, shown};
use dso_base::NoMemory;
use dso_store::Store;
use std::alloc::Global;

/// The objects of the words, but for object 0.
fn objects(alloc: Global, text: &str) -> Result<Vec<u64>, NoMemory>
    ensures { IfOk result (λ objects. is_listed 0 objects.items ≡ false) }
{
    let mut objects = Vec::new(alloc);
    for word in text.split(' ') {
        if let Some(object) = number(word)
            && object != 0
        {
            objects.push(object)?;
        }
    }
    Ok(objects)
}

/// How many bodies of the objects of the words were there.
pub fn swept(alloc: Global, store: &mut Store, text: &str) -> Result<String, NoMemory> {
    let objects = objects(alloc, text)?;
    shown(alloc, store.sweep(objects.as_slice()))
}
