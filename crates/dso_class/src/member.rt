//! The members of a class in numbers, in the order of the text (`specs/TextWalk.antt`). What they mention is judged on
//! the way.

ghost use Rattle.std.specs.Prelude.{◌≡◌, ◌≤◌, ℕ, List, [], ◌∷◌, flat_map, length, OnOk};
ghost use Rattle.dso_class.specs.Assignable.{AreAssignable, MemberAssigns, MembersAssign};
ghost use Rattle.dso_class.specs.Limits.{most_params};
ghost use Rattle.dso_class.specs.PrecedingMentions.{in_body};
ghost use Rattle.dso_class.specs.NameFaults.{HasNoFault};
ghost use Rattle.dso_class.specs.Heads.{IsHeadRight, IsMonitorRight, head_of, owner_of, word_of};
ghost use Rattle.dso_config_entries.specs.BorrowedWords.{words_of};
ghost use Rattle.dso_class.specs.Mentions.{Mention, of_member};
ghost use Rattle.dso_class.specs.TextProgram.{Source, IsNamedLock};
ghost use Rattle.dso_class.specs.BodyWalk.{HasTexts};
ghost use Rattle.dso_class.specs.TextWalk.{AnswersBody, Gives, HasMetClass, IsReady, IsSetting, WalksMembers};
ghost use Rattle.dso_class.specs.declared.class_item.Resolved.{Resolved};

use crate::body::{Body, body_of};
use crate::class_item::{Resolved, Setting};
use crate::declaration::declare;
use crate::fault::{NameFault, NameKind, What};
use crate::limits::{MOST_FIELDS, MOST_METHODS, MOST_STATICS};
use crate::locks::{guard_of, named_lock};
use crate::place::Place;
use dso_base::{FieldShape, Grade, Items, Kind, Word};
use dso_config::Config;
use dso_config_entries::{Interner, autolock, is_root};
use dso_machine::Method;
use dso_syntax::{Ident, Member, StmtTree};
use std::alloc::Global;

/// A class as far as it was resolved.
#[derive(Drop)]
pub(crate) struct Class<'a> {
    pub(crate) name: &'a Word,
    pub(crate) number: u32,
    pub(crate) members: Interner<&'a [u8]>,
    pub(crate) fields: Items<FieldShape>,
    pub(crate) methods: usize,
}

/// Resolves members of a class.
pub(crate) fn class_members<'a>(
    alloc: Global,
    setting: &Setting<'_, 'a>,
    resolved: &mut Resolved<'a>,
    class: &mut Class<'a>,
    members: &'a [Member],
) -> Result<(), NameFault>
    requires assigns { MembersAssign members.now }
    requires setting { IsReady setting.now }
    ensures { WalksMembers setting.now (λ name. flat_map (of_member name) members.now) members.now resolved.old resolved.new class.old class.new result }
{
    for member in members {
        class_member(alloc, setting, resolved, class, member)?;
    }
    Ok(())
}

/// Resolves a member of a class.
fn class_member<'a>(
    alloc: Global,
    setting: &Setting<'_, 'a>,
    resolved: &mut Resolved<'a>,
    class: &mut Class<'a>,
    member: &'a Member,
) -> Result<(), NameFault>
    requires assigns { MemberAssigns member.now }
    requires setting { IsReady setting.now }
    ensures { WalksMembers setting.now (λ name. of_member name member.now) (member.now ∷ []) resolved.old resolved.new class.old class.new result }
{
    match member {
        Member::Field { kind, name, .. } => field(setting, class, *kind, name),
        Member::Static { line, name } => static_field(setting, resolved, class, *line, name),
        Member::Method {
            line,
            synced,
            name,
            params,
            body,
        } => {
            let monitor = method_head(setting.config, class, *line, *synced, name)?;
            let text = MethodText {
                name,
                params: params.as_slice(),
                statements: body.as_slice(),
            };
            let body = method_body(alloc, setting, &mut resolved.texts, class.name, text)?;
            let method = method(setting, class, monitor, text, body);
            resolved.methods.push(method)?;
            Ok(())
        }
    }
}

/// Resolves a field.
fn field<'a>(
    setting: &Setting<'_, 'a>,
    class: &mut Class<'a>,
    kind: Kind,
    name: &'a Ident,
) -> Result<(), NameFault>
    requires setting { IsReady setting.now }
    ensures { (line : ℕ) (resolved : Resolved) → WalksMembers setting.now (λ class. of_member class (Member.Field line kind name.now)) (Member.Field line kind name.now ∷ []) resolved resolved class.old class.new result }
{
    let count = class.fields.len();
    declare(&mut class.members, name, count, MOST_FIELDS, What::Fields)?;
    let guard = guard_of(
        setting.config,
        setting.locks,
        setting.roots,
        class.name,
        &name.name,
    );
    class.fields.push(FieldShape { kind, guard })?;
    Ok(())
}

/// Judges a static field: it is a root, and its name.
fn static_field<'a>(
    setting: &Setting<'_, 'a>,
    resolved: &mut Resolved<'a>,
    class: &mut Class<'a>,
    line: u32,
    name: &'a Ident,
) -> Result<(), NameFault>
    ensures { WalksMembers setting.now (λ class. of_member class (Member.Static line name.now)) (Member.Static line name.now ∷ []) resolved.old resolved.new class.old class.new result }
{
    if !is_root(setting.config, class.name, &name.name) {
        return Err(NameFault::At {
            kind: NameKind::UnknownRoot,
            line,
        });
    }
    declare(
        &mut class.members,
        name,
        resolved.statics,
        MOST_STATICS,
        What::Statics,
    )?;
    resolved.statics += 1;
    Ok(())
}

/// Judges the head of a method, and gives the level at which it locks the object's monitor, where it is `synchronized`.
fn method_head<'a>(
    config: &Config,
    class: &mut Class<'a>,
    line: u32,
    synced: bool,
    name: &'a Ident,
) -> Result<Option<Grade>, NameFault>
    ensures { (source : Source) (before : List Mention) → source.config ≡ config.now → HasMetClass before class.old
        → Gives source before (head_of class.old.name.now line synced name.now) (IsHeadRight source before line synced name.now class.old class.new) result }
{
    let monitor = monitor(config, class.name, line, synced, name)?;
    declare(
        &mut class.members,
        name,
        class.methods,
        MOST_METHODS,
        What::Methods,
    )?;
    class.methods += 1;
    Ok(monitor)
}

/// The level at which a method locks the object's monitor, where it is `synchronized`.
fn monitor(
    config: &Config,
    class: &Word,
    line: u32,
    synced: bool,
    name: &Ident,
) -> Result<Option<Grade>, NameFault>
    ensures { (source : Source) (before : List Mention) → source.config ≡ config.now
        → Gives source before (word_of class.now line synced name.now) (IsMonitorRight source before class.now line synced name.now) result }
{
    if !synced {
        return Ok(None);
    }
    match autolock(config, class, &name.name) {
        Some(grade) => Ok(Some(grade)),
        None => Err(NameFault::At {
            kind: NameKind::NoAutolock,
            line,
        }),
    }
}

/// What the text has of a method behind its head: its name, its parameters and its statements.
#[derive(Clone, Copy)]
struct MethodText<'a> {
    name: &'a Ident,
    params: &'a [Ident],
    statements: &'a [StmtTree],
}

/// The statements of a method.
fn method_body<'a>(
    alloc: Global,
    setting: &Setting<'_, 'a>,
    texts: &mut Interner<&'a [u8]>,
    class: &'a Word,
    text: MethodText<'a>,
) -> Result<Body, NameFault>
    requires assigns { AreAssignable text.statements.now }
    ensures right { (source : Source) (before : List Mention) → IsSetting source setting.now → in_body before ≡ [] → HasTexts before (words_of texts.old)
        → AnswersBody source (owner_of class.now text.entry.name.now) before text.entry.params.now text.entry.statements.now (words_of texts.old) (words_of texts.new) result }
    ensures few { OnOk result (length text.entry.params.now ≤ most_params) }
{
    let place = Place {
        config: setting.config,
        tables: setting.tables,
        class,
        method: &text.name.name,
        in_thread: false,
    };
    body_of(alloc, &place, texts, text.params, text.statements)
}

/// A method of the class.
fn method<'a>(
    setting: &Setting<'_, 'a>,
    class: &Class<'a>,
    synced: Option<Grade>,
    text: MethodText<'a>,
    body: Body,
) -> Method
    requires setting { IsReady setting.now }
    requires few { length text.params.now ≤ most_params }
    ensures class { result.class ≡ class.now.number }
    ensures params { result.params ≡ length text.entry.params.now }
    ensures vars { result.vars ≡ body.vars }
    ensures synced { result.synced ≡ synced }
    ensures body { result.body ≡ body.statements }
    ensures lock { (source : Source) → IsSetting source setting.now → HasNoFault source.config source.ast → IsNamedLock source class.now.name.now text.entry.name.now.name result.named }
{
    Method {
        class: class.number,
        params: text.params.len() as u32,
        vars: body.vars,
        named: named_lock(
            setting.config,
            setting.locks,
            setting.roots,
            class.name,
            &text.name.name,
        ),
        synced,
        body: body.statements,
    }
}
