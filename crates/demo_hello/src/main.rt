// A caller of the store. Transaction 1 reads an empty file while transaction 0 writes to it: the commit of 0
// makes 1 stale, since the file no longer ends where 1 saw it end; the commit of 1 is refused, and 1 starts
// again.
#![tactic(auto)]

use std::{fmt, io};
use store::{Answer, Outcome, Store};

// The minute of every commit. In a fresh store each file may change at any.
const MINUTE: usize = 0;

// What a call answered, as it is printed.
#[derive(Clone, Copy)]
struct Told(Outcome);

impl fmt::Display for Told {
    fn fmt<W: fmt::Write>(&self, f: &mut fmt::Formatter<W>) -> fmt::Result {
        match self.0 {
            Ok(Answer::Done) => write!(f, "done"),
            Ok(Answer::Offset(n)) => write!(f, "offset {n}"),
            Ok(Answer::Given(n)) => write!(f, "bytes given {n}"),
            Ok(Answer::Granted(octet)) => {
                write!(f, "granted, made stale {}", store::made_stale(octet))
            }
            Ok(Answer::Pairs(n)) => write!(f, "pairs listed {n}"),
            Ok(Answer::Ordered(n, _, _)) => write!(f, "grants in order {n}"),
            Err(_) => write!(f, "refused"),
        }
    }
}

// Prints what a call answered.
fn tell(rt: &impl Print, call: &str, o: Outcome) -> io::Result<()> {
    println!(rt; "{call}: {}", Told(o))
}

// A refused call, on which the next ones build, ends the program.
fn needed(o: Outcome) -> io::Result<Answer> {
    o.map_err(|_| io::Error::other("a call was refused"))
}

// Transaction 0 writes through descriptor 0 and transaction 1 reads through descriptor 1; then both commit.
fn both(rt: &impl Print, store: &mut Store) -> io::Result<()> {
    let mut reader = [0u8; 5];
    needed(store.begin(0))?;
    needed(store.begin(1))?;
    tell(rt, "0 writes", store.write(0, 0, b"hello"))?;
    tell(rt, "1 reads", store.read(1, 1, 5, &mut reader))?;
    tell(rt, "commit 0", store.commit(0, MINUTE))?;
    tell(rt, "commit 1", store.commit(1, MINUTE))
}

// Transaction 1 again.
fn again(rt: &impl Print, store: &mut Store) -> io::Result<()> {
    let mut reader = [0u8; 5];
    needed(store.begin(1))?;
    tell(rt, "1 reads", store.read(1, 1, 5, &mut reader))?;
    rt.write_all(&reader)?;
    println!(rt; "")?;
    tell(rt, "commit 1", store.commit(1, MINUTE))
}

// A fresh store whose descriptors all belong to file 0.
fn main(rt: HostRuntime) -> io::Result<()> {
    let mut store = Store::new();
    needed(store.fresh(&[0u8; 16]))?;
    both(&rt, &mut store)?;
    again(&rt, &mut store)
}
