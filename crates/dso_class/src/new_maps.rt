//! Whether a program text makes a map somewhere (`specs/Maps.antt`).

ghost use Rattle.std.specs.Prelude.{◌≡◌, List, map, flat_map};
ghost use Rattle.dso_class.specs.Maps.{make_map, map_word};
ghost use Rattle.dso_class.specs.Mentions as mention;
ghost use Rattle.dso_class.specs.Mentions.{Owner, all_of, block, of_item, of_member};
ghost use Rattle.dso_config_entries.specs.Words.{Word};

use crate::expression::bare;
use dso_syntax::{ExprForm, ExprTree, Item, Member, StmtForm, StmtTree};

/// The name of the class of maps.
pub(crate) fn map_name() -> &'static [u8]
    ensures { result.now ≡ map_word }
{
    b"DsoMap".as_slice()
}

/// Whether an expression makes a map.
#[cycle(new_maps)]
fn in_expression(tree: &ExprTree) -> bool
    ensures { (owner : Owner) (known : List Word) → result ≡ make_map ((mention.expression owner tree.now).mentions known) }
{
    match &tree.form {
        ExprForm::NewObject(class) => class.name.as_slice() == map_name(),
        ExprForm::Paren(inner) => in_expression(inner.get()),
        ExprForm::NewArray(_, size) => in_expression(size.get()),
        ExprForm::Field(on, _) => in_object(on.get()),
        ExprForm::Call(on, _, trees) => in_object(on.get()) | in_expressions(trees.as_slice()),
        ExprForm::Elem(on, at) => in_expression(on.get()) | in_expression(at.get()),
        ExprForm::Unary(_, operand) => in_expression(operand.get()),
        ExprForm::Binary(_, left, right) => in_expression(left.get()) | in_expression(right.get()),
        _ => false,
    }
}

/// Whether what stands before a dot makes a map.
#[cycle(new_maps)]
fn in_object(tree: &ExprTree) -> bool
    ensures field { (owner : Owner) (name : Word) (known : List Word) → result ≡ make_map (mention.qualifier_mentions (mention.expression owner tree.now).bare (mention.expression owner tree.now).mentions name known) }
    ensures method { (owner : Owner) (known : List Word) → result ≡ make_map (mention.receiver_mentions (mention.expression owner tree.now).bare (mention.expression owner tree.now).mentions known) }
{
    match bare(tree) {
        Some(_) => false,
        None => in_expression(tree),
    }
}

/// Whether one of these expressions makes a map.
#[cycle(new_maps)]
fn in_expressions(trees: &[ExprTree]) -> bool
    ensures { (owner : Owner) (known : List Word) → result ≡ make_map (all_of (map (mention.expression owner) trees.now) known) }
{
    let mut makes = false;
    for tree in trees {
        makes |= in_expression(tree);
    }
    makes
}

/// Whether the value of a `return` makes a map.
fn in_answer(value: &Option<ExprTree>) -> bool
    ensures { (owner : Owner) (known : List Word) → result ≡ make_map (mention.answer owner value.now known) }
{
    match value {
        None => false,
        Some(value) => in_expression(value),
    }
}

/// Whether a statement makes a map.
#[cycle(new_maps_in_statements)]
fn in_statement(tree: &StmtTree) -> bool
    ensures { (owner : Owner) (known : List Word) → result ≡ make_map ((mention.statement owner tree.now).mentions known) }
{
    match &tree.form {
        StmtForm::Var(_, value) => in_expression(value),
        StmtForm::Assign(target, value) => in_expression(target) | in_expression(value),
        StmtForm::Eval(value) => in_expression(value),
        StmtForm::If(test, these, those) => {
            in_expression(test) | in_block(these.as_slice()) | in_block(those.as_slice())
        }
        StmtForm::While(test, these) => in_expression(test) | in_block(these.as_slice()),
        StmtForm::Sync(on, these) => in_expression(on) | in_block(these.as_slice()),
        StmtForm::Wait(on) => in_expression(on),
        StmtForm::TimedWait(on, ticks) => in_expression(on) | in_expression(ticks),
        StmtForm::Notify(on) => in_expression(on),
        StmtForm::NotifyAll(on) => in_expression(on),
        StmtForm::Print(value) => in_expression(value),
        StmtForm::Return(value) => in_answer(value),
    }
}

/// Whether one of the statements of a block makes a map.
#[cycle(new_maps_in_statements)]
fn in_block(trees: &[StmtTree]) -> bool
    ensures { (owner : Owner) (known : List Word) → result ≡ make_map (block (map (mention.statement owner) trees.now) known) }
{
    let mut makes = false;
    for tree in trees {
        makes |= in_statement(tree);
    }
    makes
}

/// Whether one of the methods of a class makes a map.
fn in_members(members: &[Member]) -> bool
    ensures { (class : Word) → result ≡ make_map (flat_map (of_member class) members.now) }
{
    let mut makes = false;
    for member in members {
        match member {
            Member::Method { body, .. } => makes |= in_block(body.as_slice()),
            Member::Field { .. } => {}
            Member::Static { .. } => {}
        }
    }
    makes
}

/// Whether one of the classes and threads of a text makes a map.
pub(crate) fn in_items(items: &[Item]) -> bool
    ensures { result ≡ make_map (flat_map of_item items.now) }
{
    let mut makes = false;
    for item in items {
        match item {
            Item::Class { members, .. } => makes |= in_members(members.as_slice()),
            Item::Thread { body, .. } => makes |= in_block(body.as_slice()),
        }
    }
    makes
}
