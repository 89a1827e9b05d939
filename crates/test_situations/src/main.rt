// Runs the twelve situations of paper 01 on the store, and prints for each its letter, a space, and `ok` or
// `no`.
#![tactic(auto)]

use std::io;
use store::Store;

mod letters;
mod script;

fn print(rt: &impl Print, letter: &str, ok: bool) -> io::Result<()> {
    let verdict = if ok { "ok" } else { "no" };
    println!(rt; "{letter} {verdict}")
}

fn run_situations(rt: &impl Print, store: &mut Store) -> io::Result<()> {
    print(rt, "a", letters::a(store))?;
    print(rt, "b", letters::b(store))?;
    print(rt, "c", letters::c(store))?;
    print(rt, "d", letters::d(store))?;
    print(rt, "e", letters::e(store))?;
    print(rt, "f", letters::f(store))?;
    print(rt, "g", letters::g(store))?;
    print(rt, "h", letters::h(store))?;
    print(rt, "i", letters::i(store))?;
    print(rt, "j", letters::j(store))?;
    print(rt, "k", letters::k(store))?;
    print(rt, "l", letters::l(store))
}

fn main(rt: HostRuntime) -> io::Result<()> {
    let mut store = Store::new();
    run_situations(&rt, &mut store)
}
