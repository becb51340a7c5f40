//! Which program a text is, and what a configuration says, in words.

ghost use Rattle.dso_config.specs.InRange.{IsInRange};

use crate::names::{program_of, refusal_line};
use dso_base::{FieldShape, Guard, Kind, NoMemory, ThreadId};
use dso_class::Program;
use dso_config::Config;
use dso_machine::{Branch, Method, Stmt, ThreadBody};
use std::alloc::Global;
use std::fmt::Write;

/// Which program a text is, or why it is none.
pub(crate) fn described(alloc: Global, config: &Config, text: &str) -> Result<String, NoMemory>
    requires { IsInRange config.now }
{
    match program_of(alloc, config, text.as_bytes()) {
        Ok(program) => {
            let mut words = String::new(alloc);
            add_program(&mut words, &program)?;
            Ok(words)
        }
        Err(refusal) => refusal_line(alloc, refusal),
    }
}

/// Adds the counts of a program, then its classes, its methods, and its threads, with their order at the end.
fn add_program(words: &mut String, program: &Program) -> Result<(), NoMemory> {
    add_counts(words, program)?;
    for class in program.code.shape.classes.as_slice() {
        add_class(words, class.fields.as_slice())?;
    }
    for method in program.code.methods.as_slice() {
        add_method(words, method)?;
    }
    for body in program.code.bodies.as_slice() {
        add_thread(words, body)?;
    }
    add_order(words, program.threads.as_slice())
}

/// Adds how many clients, resident objects, roots, named locks with the roots, and texts a program has.
fn add_counts(words: &mut String, program: &Program) -> Result<(), NoMemory> {
    let (clients, resident) = (program.clients, program.resident);
    let shape = &program.code.shape;
    let (roots, locks, texts) = (shape.roots, shape.names, shape.texts);
    write!(
        words,
        "clients {clients}, resident {resident}, roots {roots}, "
    )?;
    writeln!(
        words,
        "locks {locks}, texts {texts} of {}",
        program.names.texts.len()
    )?;
    Ok(())
}

/// The most fields of a class that are written one by one: as many as a text gives a class.
const MOST_WRITTEN: usize = 64;

/// Adds a class with its fields.
fn add_class(words: &mut String, fields: &[FieldShape]) -> Result<(), NoMemory> {
    if fields.len() > MOST_WRITTEN {
        return add_large_class(words, fields);
    }
    words.push_str("class\n")?;
    for field in fields {
        writeln!(words, "    {:?}, guard {:?}", field.kind, field.guard)?;
    }
    Ok(())
}

/// Adds a class with how many fields of each kind it has, and how many of all their own monitor guards.
fn add_large_class(words: &mut String, fields: &[FieldShape]) -> Result<(), NoMemory> {
    writeln!(words, "class of {} fields", fields.len())?;
    let (longs, flags) = (count(fields, Kind::Long), count(fields, Kind::Bool));
    let (refs, texts) = (count(fields, Kind::Ref), count(fields, Kind::Text));
    let own = fields
        .iter()
        .filter(|field| field.guard == Guard::Own)
        .count();
    write!(words, "    Long {longs}, Bool {flags}, Ref {refs}, ")?;
    writeln!(words, "Text {texts}, guard Own {own}")?;
    Ok(())
}

/// How many fields are of this kind.
fn count(fields: &[FieldShape], kind: Kind) -> usize {
    fields.iter().filter(|field| field.kind == kind).count()
}

/// Adds a method with its statements.
fn add_method(words: &mut String, method: &Method) -> Result<(), NoMemory> {
    let (class, params, vars) = (method.class, method.params, method.vars);
    write!(
        words,
        "method of class {class}: parameters {params}, variables {vars}, "
    )?;
    writeln!(
        words,
        "named {:?}, synchronized {:?}",
        method.named, method.synced
    )?;
    add_statements(words, method.body.get().as_slice())
}

/// Adds a thread with its statements.
fn add_thread(words: &mut String, body: &ThreadBody) -> Result<(), NoMemory> {
    let (client, index) = (body.thread.client, body.thread.index);
    writeln!(words, "thread {client}.{index}: variables {}", body.vars)?;
    add_statements(words, body.body.get().as_slice())
}

/// Adds statements, one a line.
fn add_statements(words: &mut String, statements: &[Branch<Stmt>]) -> Result<(), NoMemory> {
    for statement in statements {
        writeln!(words, "    {statement:?}")?;
    }
    Ok(())
}

/// Adds the order of the threads.
fn add_order(words: &mut String, threads: &[ThreadId]) -> Result<(), NoMemory> {
    words.push_str("threads")?;
    for thread in threads {
        write!(words, " {}.{}", thread.client, thread.index)?;
    }
    words.push('\n')?;
    Ok(())
}

/// What is said of the configuration's numbers and sections.
pub(crate) fn configuration_words(alloc: Global, config: &Config) -> Result<String, NoMemory> {
    let mut words = String::new(alloc);
    add_settings(&mut words, config)?;
    Ok(words)
}

/// Adds the numbers of a configuration, which sections are there, and how many entries the others have.
fn add_settings(words: &mut String, config: &Config) -> Result<(), NoMemory> {
    writeln!(
        words,
        "clients {}, resident {}",
        config.clients, config.resident
    )?;
    let (roots, autolocks) = (config.roots.is_some(), config.autolocks.is_some());
    write!(words, "sections: roots {roots}, autolocks {autolocks}, ")?;
    writeln!(words, "named {}", config.named.is_some())?;
    let (guards, losses) = (config.guards.len(), config.losses.len());
    writeln!(
        words,
        "guards {guards}, losses {losses}, breaks {}",
        config.breaks.len()
    )?;
    Ok(())
}
