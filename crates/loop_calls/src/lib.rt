// Calls in loops, to be timed beside the same loops in C.
#![tactic(auto)]

use limits::FILE_BYTES;
use state::layout::State;
use state::outcomes::{Answer, Outcome};
use store::{Buffer, UndoLog};

// The number that an outcome carries.
fn number(o: Outcome) -> u64 {
    match o {
        Ok(Answer::Done) => 0,
        Ok(Answer::Offset(n) | Answer::Given(n) | Answer::Pairs(n)) => u64::from(n),
        Ok(Answer::Granted(n) | Answer::Ordered(n, _, _)) => u64::from(n),
        Err(r) => u64::from(r.number()),
    }
}

fn added(sum: u64, o: Outcome) -> u64 {
    sum.wrapping_add(number(o))
}

#[unsafe(no_mangle)]
pub extern "C" fn loop_calls_seek(
    state: &mut State,
    files: &Buffer,
    logs: &Buffer,
    marks: &Buffer,
    undo: &UndoLog,
    t: usize,
    d: usize,
    v: usize,
    n: usize,
) -> u64 {
    let mut sum: u64 = 0;
    for _ in 0..n {
        sum = added(sum, store::seek(state, files, logs, marks, undo, t, d, v));
    }
    sum
}

#[unsafe(no_mangle)]
pub extern "C" fn loop_calls_pointer(
    state: &mut State,
    files: &Buffer,
    logs: &Buffer,
    marks: &Buffer,
    undo: &UndoLog,
    t: usize,
    d: usize,
    v: usize,
    n: usize,
) -> u64 {
    let mut sum: u64 = 0;
    for _ in 0..n {
        sum = added(
            sum,
            store::get_file_pointer(state, files, logs, marks, undo, t, d),
        );
    }
    sum
}

#[unsafe(no_mangle)]
pub extern "C" fn loop_calls_seek_read<'a>(
    state: &mut State,
    files: &'a Buffer,
    logs: &'a Buffer,
    marks: &mut Buffer,
    undo: &UndoLog,
    reader: &mut [u8; FILE_BYTES],
    t: usize,
    d: usize,
    v: usize,
    n: usize,
) -> u64 {
    let mut sum: u64 = 0;
    for _ in 0..n {
        sum = added(sum, store::seek(state, files, logs, marks, undo, t, d, 0));
        sum = added(
            sum,
            store::read(state, files, logs, marks, undo, t, d, v, reader),
        );
    }
    sum
}

#[unsafe(no_mangle)]
pub extern "C" fn loop_calls_begin_commit(
    state: &mut State,
    files: &mut Buffer,
    logs: &Buffer,
    marks: &mut Buffer,
    undo: &mut UndoLog,
    t: usize,
    d: usize,
    v: usize,
    n: usize,
) -> u64 {
    let mut sum: u64 = 0;
    for _ in 0..n {
        sum = added(sum, store::begin(state, files, logs, marks, undo, t));
        sum = added(sum, store::commit(state, files, logs, marks, undo, t, v));
    }
    sum
}

fn written(
    state: &mut State,
    files: &mut Buffer,
    logs: &mut Buffer,
    marks: &mut Buffer,
    undo: &mut UndoLog,
    bytes: &[u8; 16],
    t: usize,
    d: usize,
    v: usize,
) -> u64 {
    let mut sum = added(0, store::begin(state, files, logs, marks, undo, t));
    sum = added(sum, store::seek(state, files, logs, marks, undo, t, d, 0));
    sum = added(
        sum,
        store::write(state, files, logs, marks, undo, t, d, bytes),
    );
    added(sum, store::commit(state, files, logs, marks, undo, t, v))
}

#[unsafe(no_mangle)]
pub extern "C" fn loop_calls_begin_write_commit(
    state: &mut State,
    files: &mut Buffer,
    logs: &mut Buffer,
    marks: &mut Buffer,
    undo: &mut UndoLog,
    bytes: &[u8; 16],
    t: usize,
    d: usize,
    v: usize,
    n: usize,
) -> u64 {
    let mut sum: u64 = 0;
    for _ in 0..n {
        sum = sum.wrapping_add(written(state, files, logs, marks, undo, bytes, t, d, v));
    }
    sum
}
