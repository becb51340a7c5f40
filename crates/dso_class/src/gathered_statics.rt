//! The static fields that a program text declares, each with its number (`specs/Gathered.antt`).

ghost use Rattle.std.specs.Prelude.{◌≡◌, ◌↔◌, ◌∷◌, ◌++◌, [], List, Contains, IfOk, IfSome, IsNone, OnOk};
ghost use Rattle.dso_config.specs.declared.config.RootEntry.{RootEntry};
ghost use Rattle.dso_class.specs.Declarations.{all_statics, statics_of};
ghost use Rattle.dso_class.specs.Gathered.{statics_named};
ghost use Rattle.dso_config_entries.specs.LastAndFirst.{AreFirsts};
ghost use Rattle.dso_class.specs.Numbers.{IsNumber};

use dso_base::NoMemory;
use dso_config_entries::Interner;
use dso_syntax::{Item, Member};
use std::alloc::Global;

/// The number of a static field, None where it isn't there.
pub(crate) fn static_number<'a>(
    statics: &Interner<(&'a [u8], &'a [u8])>,
    class: &'a [u8],
    field: &'a [u8],
) -> Option<usize>
    ensures found { IfSome result (λ number. IsNumber (statics_named statics.now) (record { class = class.now; field = field.now }) number) }
    ensures none { IsNone result ↔ (Contains (statics_named statics.now) (record { class = class.now; field = field.now }) → ⊥) }
{
    statics.number((class, field))
}

/// Puts a static field behind the others where it isn't there yet.
fn add_static<'a>(
    statics: &mut Interner<(&'a [u8], &'a [u8])>,
    class: &'a [u8],
    field: &'a [u8],
) -> Result<(), NoMemory>
    ensures { (all : List RootEntry) → AreFirsts all (statics_named statics.old) → OnOk result (AreFirsts (all ++ record { class = class.now; field = field.now } ∷ []) (statics_named statics.new)) }
{
    statics.add((class, field))?;
    Ok(())
}

/// Puts the static fields of a class behind the others.
fn add_statics<'a>(
    statics: &mut Interner<(&'a [u8], &'a [u8])>,
    class: &'a [u8],
    members: &'a [Member],
) -> Result<(), NoMemory>
    ensures { (before : List RootEntry) → AreFirsts before (statics_named statics.old) → OnOk result (AreFirsts (before ++ statics_of class.now members.now) (statics_named statics.new)) }
{
    for member in members {
        match member {
            Member::Static { name, .. } => add_static(statics, class, name.name.as_slice())?,
            Member::Field { .. } => {}
            Member::Method { .. } => {}
        }
    }
    Ok(())
}

/// The static fields of all classes, each once, in the order of the text.
pub(crate) fn all_statics(
    alloc: Global,
    items: &[Item],
) -> Result<Interner<(&[u8], &[u8])>, NoMemory>
    ensures { IfOk result (λ statics. AreFirsts (all_statics items.now) (statics_named statics)) }
{
    let mut statics = Interner::new(alloc);
    for item in items {
        match item {
            Item::Class { name, members, .. } => {
                add_statics(&mut statics, name.name.as_slice(), members.as_slice())?
            }
            Item::Thread { .. } => {}
        }
    }
    Ok(statics)
}
