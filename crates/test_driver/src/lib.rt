// A generated call, performed on the store.
#![tactic(auto)]

ghost use Rattle.std.specs.Prelude.{◌≡◌, ◌≤◌, length, take};

use dispatcher::ends::{Dispatched, Ended};
use dispatcher::scripts::SCRIPTS;
use state::layout::State;
use state::outcomes::{Answer, Outcome};
use store::Store;
use test_calls::{Generated, Made, NumberList, Ready, StoreBuffer};
use test_scripts::Plan;

// What stands in a buffer lent for an answer.
const FILLED: u8 = 165;

// How many bytes of a buffer are lent where n are asked for.
pub fn within(n: usize, buffer: &[u8]) -> usize
    ensures within { result ≤ length buffer.now }
    ensures front { result ≡ length (take result buffer.now) }
{
    n.min(buffer.len())
}

// Fills a buffer: each byte is step more than the one before, mod 256.
fn put(bytes: &mut [u8], first: u8, step: u8) {
    let mut byte = first;
    for place in bytes.iter_mut() {
        *place = byte;
        byte = byte.wrapping_add(step);
    }
}

// How many bytes of a store buffer are lent: all, where it is not the short one.
fn lent(g: Generated, which: StoreBuffer, buffer: &[u8]) -> usize
    ensures within { result ≤ length buffer.now }
    ensures front { result ≡ length (take result buffer.now) }
{
    match g.damage.short {
        Some(short) if short.buffer == which => within(short.length, buffer),
        _ => within(buffer.len(), buffer),
    }
}

// What a generated call came to.
#[derive(Clone, Copy)]
pub enum Performance {
    Answered(Outcome),
    // Of a dispatcher that ran: how many scripts it had, the end of each, and the number of Commits that it
    // made.
    Ran {
        scripts: usize,
        ends: [Ended; SCRIPTS],
        commits: usize,
    },
    // Of a best order: its outcome, it, and how many transactions it has.
    Ordered {
        outcome: Outcome,
        order: [u8; 8],
        listed: usize,
    },
}

// What a dispatcher of so many scripts came to.
fn several(d: Dispatched, scripts: usize) -> Performance {
    let ends = d.ends;
    match d.outcome {
        Ok(Answer::Done) => Performance::Ran {
            scripts,
            ends,
            commits: d.commits,
        },
        outcome => Performance::Answered(outcome),
    }
}

// Makes the store fresh, with the numbers listed.
fn made_fresh(
    state: &mut State,
    files: &mut [u8],
    logs: &[u8],
    marks: &mut [u8],
    undo: &[u8],
    list: NumberList<17>,
) -> Outcome {
    store::fresh(state, files, logs, marks, undo, list.as_slice())
}

// Runs the planned scripts.
fn dispatched(
    state: &mut State,
    files: &mut [u8],
    logs: &mut [u8],
    marks: &mut [u8],
    undo: &mut [u8],
    plan: Plan,
    bytes: &[u8],
    reader: &mut [u8],
) -> Performance {
    let scripts = test_scripts::plan_scripts(plan);
    let d = dispatcher::dispatch(
        state,
        files,
        logs,
        marks,
        undo,
        scripts,
        bytes,
        reader,
        plan.minute,
    );
    several(d, plan.count)
}

// Asks for the best order of the transactions listed.
fn ordered<'a>(
    state: &'a State,
    files: &'a [u8],
    logs: &'a [u8],
    marks: &'a [u8],
    undo: &'a [u8],
    ready: Ready,
) -> Performance {
    let list = ready.list.as_slice();
    let b = call_order::best_order(
        state,
        files,
        logs,
        marks,
        undo,
        list,
        ready.minute,
        ready.budget,
    );
    if list.is_empty() {
        return Performance::Answered(b.outcome);
    }
    let order = b.order;
    Performance::Ordered {
        outcome: b.outcome,
        order,
        listed: list.len(),
    }
}

// Performs the call on the buffers that are lent.
fn on_lent(
    state: &mut State,
    files: &mut [u8],
    logs: &mut [u8],
    marks: &mut [u8],
    undo: &mut [u8],
    g: Generated,
    bytes: &mut [u8],
    reader: &mut [u8],
) -> Performance {
    put(bytes, g.first, g.step);
    put(reader, FILLED, 0);
    match g.made {
        Made::Fresh(list) => Performance::Answered(made_fresh(
            state, files, logs, marks, undo, list,
        )),
        Made::Dispatch(plan) => dispatched(state, files, logs, marks, undo, plan, bytes, reader),
        Made::BestOrder(ready) => ordered(state, files, logs, marks, undo, ready),
        Made::Asks(q) => Performance::Answered(requests::perform(
            state, files, logs, marks, undo, q, bytes, reader,
        )),
    }
}

// Performs the call, with a short store buffer where it says so.
pub fn performed(
    store: &mut Store,
    g: Generated,
    bytes: &mut [u8],
    reader: &mut [u8],
) -> Performance {
    let files = &mut store.files[..];
    let logs = &mut store.logs[..];
    let marks = &mut store.marks[..];
    let undo = &mut store.undo[..];
    let f = lent(g, StoreBuffer::Files, files);
    let l = lent(g, StoreBuffer::Logs, logs);
    let m = lent(g, StoreBuffer::Marks, marks);
    let u = lent(g, StoreBuffer::Undo, undo);
    let n = within(g.size, bytes);
    let r = within(g.buffer, reader);
    on_lent(
        &mut store.state,
        &mut files[..f],
        &mut logs[..l],
        &mut marks[..m],
        &mut undo[..u],
        g,
        &mut bytes[..n],
        &mut reader[..r],
    )
}
