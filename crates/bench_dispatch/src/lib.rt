// The best order and the dispatcher in loops, over a state and buffers that bench/ lends. They stand apart
// from `bench_calls`, so that there each call has one caller, which is made part of it.
#![tactic(auto)]

use dispatcher::scripts::{ScriptCall, Scripts};
use state::layout::State;
use state::outcomes::{Answer, Outcome};

// The minute for which an order is asked, and at which scripts are dispatched.
const MINUTE: usize = 0;

// The grants of an order; 0 of any other outcome.
fn grants(o: Outcome) -> u64 {
    match o {
        Ok(Answer::Ordered(n, _, _)) => u64::from(n),
        _ => 0,
    }
}

// Asks so many times for the best order of the transactions listed. Answers the sum of the grants.
#[unsafe(no_mangle)]
pub extern "C" fn bench_dispatch_order<'a>(
    state: &'a State,
    files: &'a [u8],
    logs: &'a [u8],
    marks: &'a [u8],
    undo: &'a [u8],
    list: &'a [u8],
    budget: usize,
    rounds: usize,
) -> u64 {
    let mut sum: u64 = 0;
    for _ in 0..rounds {
        let best = call_order::best_order(state, files, logs, marks, undo, list, MINUTE, budget);
        sum = sum.wrapping_add(grants(best.outcome));
    }
    sum
}

// Four more calls for script k, on descriptor k: Seek, Write of 16 octets, Seek, Read of them.
fn with_task(scripts: Scripts, k: usize) -> Scripts {
    let scripts = scripts.then(k, ScriptCall::Seek(k, 0));
    let scripts = scripts.then(k, ScriptCall::Write(k, 0, 16));
    let scripts = scripts.then(k, ScriptCall::Seek(k, 0));
    scripts.then(k, ScriptCall::Read(k, 16))
}

// Eight scripts of four calls.
fn tasks() -> Scripts {
    let mut scripts = Scripts::new(8);
    for k in 0..8 {
        scripts = with_task(scripts, k);
    }
    scripts
}

// Dispatches eight scripts of four calls so many times. Answers the sum of the Commits made.
#[unsafe(no_mangle)]
pub extern "C" fn bench_dispatch_run(
    state: &mut State,
    files: &mut [u8],
    logs: &mut [u8],
    marks: &mut [u8],
    undo: &mut [u8],
    data: &[u8],
    reader: &mut [u8],
    rounds: usize,
) -> u64 {
    let scripts = tasks();
    let mut sum: u64 = 0;
    for _ in 0..rounds {
        let d = dispatcher::dispatch(
            state, files, logs, marks, undo, scripts, data, reader, MINUTE,
        );
        sum = sum.wrapping_add(d.commits as u64);
    }
    sum
}
