//! Threads in numbers (`specs/Heads.antt`). What they mention is judged on the way.

ghost use Rattle.std.specs.Prelude.{◌≡◌, ◌∷◌, [], List, count_by, reverse};
ghost use Rattle.dso_class.specs.Assignable.{AreAssignable};
ghost use Rattle.dso_class.specs.PrecedingMentions.{in_text, thread_in};
ghost use Rattle.dso_class.specs.Heads.{IsThreadNamed, is_number, thread_head};
ghost use Rattle.dso_class.specs.Mentions.{Mention, of_item};
ghost use Rattle.dso_class.specs.TextProgram.{Source};
ghost use Rattle.dso_class.specs.TextWalk.{Gives, WalksItems, clients_in};

use crate::body::body_of;
use crate::class_item::{Resolved, Setting};
use crate::clients::client_of;
use crate::fault::{NameFault, NameKind, What};
use crate::limits::MOST_THREADS;
use crate::place::Place;
use dso_base::ThreadId;
use dso_config::Config;
use dso_machine::ThreadBody;
use dso_syntax::{Item, StmtTree};
use std::alloc::Global;

/// The head of a thread: its line, the number of its client, and that number's line.
#[derive(Clone, Copy)]
pub(crate) struct ThreadHead {
    pub(crate) line: u32,
    pub(crate) number: i64,
    pub(crate) number_line: u32,
}

/// Resolves a thread.
pub(crate) fn thread<'a>(
    alloc: Global,
    setting: &Setting<'_, 'a>,
    resolved: &mut Resolved<'a>,
    head: ThreadHead,
    statements: &'a [StmtTree],
) -> Result<(), NameFault>
    requires assigns { AreAssignable statements.now }
    ensures { WalksItems setting.now (of_item (Item.Thread head.line head.number head.number_line statements.now)) (Item.Thread head.line head.number head.number_line statements.now ∷ []) resolved.old resolved.new result }
{
    let thread = thread_name(setting.config, resolved.bodies.as_slice(), head)?;
    let place = Place {
        config: setting.config,
        tables: setting.tables,
        class: setting.thread_class,
        method: setting.thread_method,
        in_thread: true,
    };
    let body = body_of(alloc, &place, &mut resolved.texts, &[], statements)?;
    resolved.bodies.push(ThreadBody {
        thread,
        vars: body.vars,
        body: body.statements,
    })?;
    Ok(())
}

/// Judges a thread of a client of this number, and gives its name: it is the next of that client.
fn thread_name(
    config: &Config,
    bodies: &[ThreadBody],
    head: ThreadHead,
) -> Result<ThreadId, NameFault>
    ensures { (source : Source) (before : List Mention) → source.config ≡ config.now → clients_in bodies.now ≡ reverse (in_text thread_in before)
        → Gives source before (thread_head head.line head.number head.number_line) (IsThreadNamed source before head.line head.number head.number_line bodies.now) result }
{
    let count = threads_of_client(bodies, head.number);
    if count >= MOST_THREADS {
        return Err(NameFault::At {
            kind: NameKind::TooMany(What::Threads),
            line: head.line,
        });
    }
    match client_of(config, head.number) {
        Some(client) => Ok(ThreadId {
            client,
            index: count as u8 + 1,
        }),
        None => Err(NameFault::At {
            kind: NameKind::NoSuchClient,
            line: head.number_line,
        }),
    }
}

/// How many threads of a client are there.
fn threads_of_client(bodies: &[ThreadBody], number: i64) -> usize
    ensures { result ≡ count_by (is_number number) (clients_in bodies.now) }
{
    let mut count = 0;
    for body in bodies {
        if i64::from(body.thread.client) == number {
            count += 1;
        }
    }
    count
}
