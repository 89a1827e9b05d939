// Three tasks are ready to commit, and the scheduler wants most of them through. 0 and 1 write to a file
// whose end 1 and 2 have seen: a commit of 0 makes 1 and 2 stale, a commit of 1 makes 2 stale. The given
// order is the worst.
#![tactic(auto)]

use std::io;
use store::{Answer, Best, Outcome, Store};

// The minute of every commit. In a fresh store each file may change at any.
const MINUTE: usize = 0;

// Prints the order of three, its grants, the gap and how many orders were tried.
fn tell(rt: &impl Print, b: Best) -> io::Result<()> {
    let Ok(Answer::Ordered(grants, gap, tried)) = b.outcome else {
        return println!(rt; "refused");
    };
    let [first, second, third, ..] = b.order;
    print!(rt; "order {first} {second} {third}: ")?;
    println!(rt; "grants {grants}, gap {gap}, orders tried {tried}")
}

// A refused call, on which the next ones build, ends the program.
fn needed(o: Outcome) -> io::Result<Answer> {
    o.map_err(|_| io::Error::other("a call was refused"))
}

// Transaction t writes at a place of the file, through its own descriptor.
fn writes(store: &mut Store, t: usize, place: usize) -> Outcome {
    store.seek(t, t, place)?;
    store.write(t, t, b"task")
}

// Transaction t reads to the end of the file, through descriptor d.
fn reads(store: &mut Store, t: usize, d: usize) -> Outcome {
    let mut reader = [0u8; 4];
    store.read(t, d, 4, &mut reader)
}

// The three are begun, 0 and 1 write, 1 and 2 read.
fn prepare(store: &mut Store) -> Outcome {
    store.begin(0)?;
    store.begin(1)?;
    store.begin(2)?;
    writes(store, 0, 0)?;
    writes(store, 1, 4)?;
    reads(store, 1, 9)?;
    reads(store, 2, 10)
}

// Asks for the best order of the three, with a budget of so many orders.
fn ask(rt: &impl Print, store: &Store, budget: usize) -> io::Result<()> {
    let three = [0u8, 1, 2];
    tell(rt, store.best_order(&three, MINUTE, budget))
}

// A fresh store whose descriptors all belong to file 0.
fn main(rt: HostRuntime) -> io::Result<()> {
    let mut store = Store::new();
    needed(store.fresh(&[0u8; 16]))?;
    needed(prepare(&mut store))?;
    ask(&rt, &store, 1)?;
    ask(&rt, &store, 3)?;
    ask(&rt, &store, 6)
}
