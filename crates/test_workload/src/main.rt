// Runs a fixed stream of 300,000 calls on the store, with good and bad numbers, short buffers and forged
// states. After every thousand it prints how many calls were made, how often each answer and each refusal
// came, the digest of the state and that of all answers.
#![tactic(auto)]

use std::io;
use store::Store;
use test_calls::{Forgery, Generated, Guess, NumberSource};
use test_digest::digest::Digest;
use test_digest::outcomes;
use test_digest::outcomes::COUNTS;
use test_driver::Performance;

const CALLS: usize = 300000;

// What a run carries from call to call, beside the store.
#[derive(Clone, Copy)]
struct WorkloadProgress {
    source: NumberSource,
    guess: Guess,
    counts: [usize; COUNTS],
    answers: Digest,
}

// The digest of all answers after a call, from what it came to and the buffer lent for the answer.
fn answers_after(answers: Digest, came: Performance, reader: &[u8]) -> Digest {
    match came {
        Performance::Answered(outcome) => answers.reply_taken(outcome, reader),
        Performance::Ran {
            scripts,
            ends,
            commits,
        } => answers.ran_taken(commits, ends, scripts, reader),
        Performance::Ordered {
            outcome,
            order,
            listed,
        } => answers.ordered_taken(outcome, order, listed),
    }
}

fn counts_after(counts: [usize; COUNTS], came: Performance) -> [usize; COUNTS] {
    match came {
        Performance::Answered(outcome) | Performance::Ordered { outcome, .. } => {
            outcomes::counted(counts, outcome)
        }
        Performance::Ran { .. } => outcomes::counted_ran(counts),
    }
}

// The progress after a call.
fn progress_after(
    mut c: WorkloadProgress,
    g: Generated,
    came: Performance,
    reader: &[u8],
) -> WorkloadProgress {
    c.answers = answers_after(c.answers, came, reader);
    c.guess = c.guess.after(g);
    c.counts = counts_after(c.counts, came);
    c
}

// What a call comes to where a number of the state is out of range. The call leaves the state as it was.
fn on_forged(
    store: &mut Store,
    g: Generated,
    forgery: Forgery,
    bytes: &mut [u8],
    reader: &mut [u8],
) -> Performance {
    let kept = store.state;
    test_forgeries::forge(&mut store.state, forgery);
    let came = test_driver::performed(store, g, bytes, reader);
    store.state = kept;
    came
}

// What a call comes to, on a forged state where it says so.
fn comes_to(store: &mut Store, g: Generated, bytes: &mut [u8], reader: &mut [u8]) -> Performance {
    match g.damage.forgery {
        Some(forgery) => on_forged(store, g, forgery, bytes, reader),
        None => test_driver::performed(store, g, bytes, reader),
    }
}

// Call i.
fn turn(
    mut c: WorkloadProgress,
    i: usize,
    store: &mut Store,
    bytes: &mut [u8],
    reader: &mut [u8],
) -> WorkloadProgress {
    let numbers = c.source.draw();
    let g = test_calls::requested(numbers, i, c.guess);
    let came = comes_to(store, g, bytes, reader);
    let n = test_driver::within(g.buffer, reader);
    progress_after(c, g, came, &reader[..n])
}

fn print_counts(rt: &impl Print, counts: [usize; COUNTS]) -> io::Result<()> {
    for count in counts {
        print!(rt; "{count} ")?;
    }
    Ok(())
}

// A line after every thousand calls.
fn print_line(rt: &impl Print, made: usize, c: WorkloadProgress, store: &Store) -> io::Result<()> {
    if made % 1000 == 0 {
        print!(rt; "{made} ")?;
        print_counts(rt, c.counts)?;
        let stands = Digest::of_state(
            &store.state,
            &store.files,
            &store.logs,
            &store.marks,
            &store.undo,
        )
        .value;
        let answers = c.answers.value;
        println!(rt; "{stands} {answers}")?;
    }
    Ok(())
}

fn run(rt: &impl Print, store: &mut Store, bytes: &mut [u8], reader: &mut [u8]) -> io::Result<()> {
    let mut c = WorkloadProgress {
        source: NumberSource::new(),
        guess: Guess::none(),
        counts: [0usize; COUNTS],
        answers: Digest::new(),
    };
    for i in 0..CALLS {
        c = turn(c, i, store, bytes, reader);
        print_line(rt, i + 1, c, store)?;
    }
    Ok(())
}

// Before call 0 comes a Fresh in which descriptor d belongs to file d mod 8.
fn main(rt: HostRuntime) -> io::Result<()> {
    let mut store = Store::new();
    let mut bytes = [0u8; 4097];
    let mut reader = [0u8; 5000];
    let list = [0u8, 1, 2, 3, 4, 5, 6, 7, 0, 1, 2, 3, 4, 5, 6, 7];
    let _ = store.fresh(&list);
    run(&rt, &mut store, &mut bytes, &mut reader)
}
