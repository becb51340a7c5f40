//! The two texts of the generated load (`specs/GeneratedLoad.antt`).
ghost use Rattle.std.specs.Prelude.{◌≡◌, ◌++◌, IfOk, OnOk};
ghost use Rattle.std.specs.String.{string_bytes};
ghost use Rattle.dso_gen.specs.GeneratedLoad.{client_of, clients_of, load_config, load_program, thread_line, threads_of};

use dso_base::NoMemory;
use std::alloc::{AllocError, Global};
use std::fmt::Write;

/// The configuration and the program of the generated load of a number, each as the bytes of a text.
///
/// The load has 2 to 4 clients, by the remainder of the number by 3, and two threads for each; a thread adds as often to a counter as
/// the number says. The words ask for the numbers 1 to 1000; of each other number the texts are made alike. `NoMemory` is answered
/// where an allocation was refused, and then there is no text.
pub fn generate(alloc: Global, n: u32) -> Result<(Vec<u8>, Vec<u8>), NoMemory>
    ensures config { IfOk result (λ texts. texts.0.items ≡ load_config n) }
    ensures program { IfOk result (λ texts. texts.1.items ≡ load_program n) }
{
    let config = config_of(alloc, n)?;
    let program = program_of(alloc, n)?;
    Ok((config.into_bytes(), program.into_bytes()))
}

/// How many clients the load has.
pub(crate) fn clients_of(n: u32) -> u32
    ensures { result ≡ clients_of n }
{
    2 + n % 3
}

/// How many threads the load has: each client has two.
pub(crate) fn threads_of(n: u32) -> u32
    ensures { result ≡ threads_of n }
{
    2 * clients_of(n)
}

/// The client that a thread is of, by the number of the thread, counted from 0.
fn client_of(t: u32) -> u32
    ensures { result ≡ client_of t }
{
    t / 2 + 1
}

/// The configuration.
fn config_of(alloc: Global, n: u32) -> Result<String, AllocError>
    ensures { IfOk result (λ text. string_bytes text ≡ load_config n) }
{
    let clients = clients_of(n);
    format!(in alloc;
        "clients = {clients}\n\
        [[autolock]]\nmethod = \"*.*\"\nlevel = \"write\"\n\
        [[autolock]]\nmethod = \"Thread.run\"\nlevel = \"read\"\n"
    )
}

/// The program.
fn program_of(alloc: Global, n: u32) -> Result<String, AllocError>
    ensures { IfOk result (λ text. string_bytes text ≡ load_program n) }
{
    let mut text = String::new(alloc);
    text.push_str("class Counter { long n; synchronized add(k) { this.n = this.n + k; } }\n")?;
    text.push_str("class Main { static ref all; }\n")?;
    for t in 0..threads_of(n) {
        push_thread(&mut text, n, t)?;
    }
    Ok(text)
}

/// Puts the line of a thread at the end.
fn push_thread(text: &mut String, n: u32, t: u32) -> Result<(), AllocError>
    ensures { OnOk result (string_bytes text.new ≡ string_bytes text.old ++ thread_line n t) }
{
    let client = client_of(t);
    write!(
        text,
        "thread {client} {{ \
        var a = new ref[8]; var i = 0; while (i < 8) {{ a[i] = new Counter(); i = i + 1; }} \
        Main.all = a; a = Main.all; i = 0; var x = null; \
        while (i < {n}) {{ \
        synchronized (a) {{ x = a[({t} * 5 + i) % 8]; }} \
        x.add(({t} + i) % 7 + 1); \
        i = i + 1; }} }}\n"
    )
}
