//! A tree as text: each form as `(word parts ..)`, with its line as `@2` behind the word where that is not 1, and lists
//! in braces.

use dso_base::Word;
use dso_syntax::{Ast, ExprForm, ExprTree, Ident, Item, Member, StmtForm, StmtTree};
use std::alloc::AllocError;
use std::fmt::Write;

/// Writes ` @line`, where the line is not the first.
fn line(out: &mut String, line: u32) -> Result<(), AllocError> {
    if line == 1 {
        return Ok(());
    }
    write!(out, "@{line}")
}

/// Opens a form.
fn open(out: &mut String, word: &str, at: u32) -> Result<(), AllocError> {
    out.push_str(" (")?;
    out.push_str(word)?;
    line(out, at)
}

/// Writes the letters of a name or of a text.
fn letters(out: &mut String, word: &Word) -> Result<(), AllocError> {
    for byte in word.as_slice() {
        out.push(char::from(*byte))?;
    }
    Ok(())
}

/// Writes the content of a text in quotes.
fn quoted(out: &mut String, content: &Word) -> Result<(), AllocError> {
    out.push_str(" \"")?;
    letters(out, content)?;
    out.push('"')
}

/// Writes a name.
fn name(out: &mut String, name: &Word) -> Result<(), AllocError> {
    out.push(' ')?;
    letters(out, name)
}

/// Writes a name with its line.
fn ident(out: &mut String, ident: &Ident) -> Result<(), AllocError> {
    name(out, &ident.name)?;
    line(out, ident.line)
}

/// The word of an expression's form.
fn expression_word(form: &ExprForm) -> &'static str {
    match form {
        ExprForm::Number(_) => "number",
        ExprForm::Text(_) => "text",
        ExprForm::Truth(true) => "true",
        ExprForm::Truth(false) => "false",
        ExprForm::Null => "null",
        ExprForm::This => "this",
        ExprForm::Name(_) => "name",
        ExprForm::Paren(_) => "paren",
        ExprForm::NewObject(_) => "new",
        ExprForm::NewArray(_, _) => "array",
        ExprForm::Field(_, _) => "field",
        ExprForm::Call(_, _, _) => "call",
        ExprForm::Elem(_, _) => "element",
        ExprForm::Unary(_, _) => "unary",
        ExprForm::Binary(_, _, _) => "binary",
    }
}

/// Writes the parts of an expression that are no expressions.
fn plain_parts(out: &mut String, form: &ExprForm) -> Result<(), AllocError> {
    match form {
        ExprForm::Number(number) => write!(out, " {number}"),
        ExprForm::Text(content) => quoted(out, content),
        ExprForm::Name(word) => name(out, word),
        ExprForm::NewObject(name) | ExprForm::Field(_, name) | ExprForm::Call(_, name, _) => {
            ident(out, name)
        }
        ExprForm::NewArray(kind, _) => write!(out, " {kind:?}"),
        ExprForm::Unary(op, _) | ExprForm::Binary(op, _, _) => write!(out, " {op:?}"),
        _ => Ok(()),
    }
}

/// Writes an expression.
#[cycle(expressions)]
fn expression(out: &mut String, tree: &ExprTree) -> Result<(), AllocError> {
    open(out, expression_word(&tree.form), tree.line)?;
    plain_parts(out, &tree.form)?;
    match &tree.form {
        ExprForm::Paren(a)
        | ExprForm::NewArray(_, a)
        | ExprForm::Field(a, _)
        | ExprForm::Unary(_, a) => expression(out, a.get())?,
        ExprForm::Elem(a, b) | ExprForm::Binary(_, a, b) => {
            expression(out, a.get())?;
            expression(out, b.get())?;
        }
        ExprForm::Call(a, _, arguments) => {
            expression(out, a.get())?;
            expressions(out, arguments.as_slice())?;
        }
        _ => {}
    }
    out.push(')')
}

/// Writes expressions.
#[cycle(expressions)]
fn expressions(out: &mut String, trees: &[ExprTree]) -> Result<(), AllocError> {
    for tree in trees {
        expression(out, tree)?;
    }
    Ok(())
}

/// The word of a statement's form.
fn statement_word(form: &StmtForm) -> &'static str {
    match form {
        StmtForm::Var(_, _) => "var",
        StmtForm::Assign(_, _) => "assign",
        StmtForm::Eval(_) => "eval",
        StmtForm::If(_, _, _) => "if",
        StmtForm::While(_, _) => "while",
        StmtForm::Sync(_, _) => "synchronized",
        StmtForm::Wait(_) => "wait",
        StmtForm::TimedWait(_, _) => "timedWait",
        StmtForm::Notify(_) => "notify",
        StmtForm::NotifyAll(_) => "notifyAll",
        StmtForm::Print(_) => "print",
        StmtForm::Return(_) => "return",
    }
}

/// Writes a statement.
#[cycle(statements)]
fn statement(out: &mut String, tree: &StmtTree) -> Result<(), AllocError> {
    open(out, statement_word(&tree.form), tree.line)?;
    match &tree.form {
        StmtForm::Var(name, a) => {
            ident(out, name)?;
            expression(out, a)?;
        }
        StmtForm::Assign(a, b) | StmtForm::TimedWait(a, b) => {
            expression(out, a)?;
            expression(out, b)?;
        }
        StmtForm::Eval(a)
        | StmtForm::Wait(a)
        | StmtForm::Notify(a)
        | StmtForm::NotifyAll(a)
        | StmtForm::Print(a)
        | StmtForm::Return(Some(a)) => expression(out, a)?,
        StmtForm::Return(None) => {}
        StmtForm::While(a, body) | StmtForm::Sync(a, body) => {
            expression(out, a)?;
            block(out, body.as_slice())?;
        }
        StmtForm::If(a, body, others) => {
            expression(out, a)?;
            block(out, body.as_slice())?;
            block(out, others.as_slice())?;
        }
    }
    out.push(')')
}

/// Writes statements in braces.
#[cycle(statements)]
fn block(out: &mut String, trees: &[StmtTree]) -> Result<(), AllocError> {
    out.push_str(" {")?;
    for tree in trees {
        statement(out, tree)?;
    }
    out.push_str(" }")
}

/// Writes the parameters of a method in braces.
fn parameters(out: &mut String, names: &[Ident]) -> Result<(), AllocError> {
    out.push_str(" {")?;
    for name in names {
        ident(out, name)?;
    }
    out.push_str(" }")
}

/// Writes a member of a class.
fn member(out: &mut String, member: &Member) -> Result<(), AllocError> {
    match member {
        Member::Field { line, kind, name } => {
            open(out, "field", *line)?;
            write!(out, " {kind:?}")?;
            ident(out, name)?;
        }
        Member::Static { line, name } => {
            open(out, "static", *line)?;
            ident(out, name)?;
        }
        Member::Method {
            line,
            synced,
            name,
            params,
            body,
        } => {
            open(out, method_word(*synced), *line)?;
            ident(out, name)?;
            parameters(out, params.as_slice())?;
            block(out, body.as_slice())?;
        }
    }
    out.push(')')
}

/// The word of a method.
fn method_word(synced: bool) -> &'static str {
    if synced { "synchronized" } else { "method" }
}

/// Writes members in braces.
fn members(out: &mut String, all: &[Member]) -> Result<(), AllocError> {
    out.push_str(" {")?;
    for one in all {
        member(out, one)?;
    }
    out.push_str(" }")
}

/// Writes a class or a thread.
fn item(out: &mut String, item: &Item) -> Result<(), AllocError> {
    match item {
        Item::Class {
            line,
            name,
            members: all,
        } => {
            open(out, "class", *line)?;
            ident(out, name)?;
            members(out, all.as_slice())?;
        }
        Item::Thread {
            line: at,
            number,
            number_line,
            body,
        } => {
            open(out, "thread", *at)?;
            write!(out, " {number}")?;
            line(out, *number_line)?;
            block(out, body.as_slice())?;
        }
    }
    out.push(')')
}

/// Writes a program.
pub fn program(out: &mut String, ast: &Ast) -> Result<(), AllocError> {
    out.push_str("program")?;
    for one in ast.items.as_slice() {
        item(out, one)?;
    }
    Ok(())
}
