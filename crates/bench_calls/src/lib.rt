// Scripts of store calls, run over a state and buffers that bench/ lends. A script is a list of steps of
// eight octets: the kind of call, its transaction, its descriptor (or file), an unused octet, and two
// numbers, low octet first: how many octets (or the offset of a Seek, the minute of a Commit, the start of a
// window), and where they start in `data` (or the end of a window).
#![tactic(auto)]

ghost use Rattle.std.specs.Prelude.{◌+◌, ◌<◌, ◌≤◌, length};

use requests::Request;
use state::layout::{State, length_at, offset_at};
use state::outcomes::{Answer, Outcome};

const STEP: usize = 8;

// How many octets the line of a call takes at most.
const LINE: usize = 8238;

// One step, its numbers widened.
#[derive(Clone, Copy)]
struct Step {
    kind: u8,
    t: usize,
    d: usize,
    n: usize,
    from: usize,
}

fn sixteen_bits(low: u8, high: u8) -> usize {
    usize::from(low) + 256 * usize::from(high)
}

// The step at octet `at` of the script.
fn step_at(script: &[u8], at: usize) -> Step
    requires { at + 8 ≤ length script.now }
{
    Step {
        kind: script[at],
        t: usize::from(script[at + 1]),
        d: usize::from(script[at + 2]),
        n: sixteen_bits(script[at + 4], script[at + 5]),
        from: sixteen_bits(script[at + 6], script[at + 7]),
    }
}

// The part of data that a step names, or all of data where it reaches past the end.
fn named<'a>(data: &'a [u8], from: usize, n: usize) -> &'a [u8] {
    if from > data.len() || n > data.len() - from {
        return data;
    }
    &data[from..from + n]
}

// The call of a step that is no Fresh, as a line of a log has it. A kind above 10 is an Abort too.
fn request(s: Step) -> Request {
    match s.kind {
        1 => Request::Begin(s.t),
        2 => Request::Seek(s.t, s.d, s.n),
        3 => Request::Write(s.t, s.d),
        4 => Request::GetFilePointer(s.t, s.d),
        5 => Request::Read(s.t, s.d, s.n),
        6 => Request::Commit(s.t, s.n),
        8 => Request::UndoCommit,
        9 => Request::Places(s.t, s.d),
        10 => Request::SetWindow(s.d, s.n, s.from),
        _ => Request::Abort(s.t),
    }
}

// What a call came to. The code is 0 done, 1 an offset, 2 a count of bytes, 3 granted, 4 a count of pairs,
// 6 an order, and 10 more than a refusal's number; the number is the one that the outcome carries.
#[derive(Clone, Copy)]
struct Reply {
    code: u8,
    number: u64,
}

// One match on the outcome, in each place that makes a call: the compiler then knows which outcomes that call
// has, as it does in the harness of the store in C.
fn reply_of(o: Outcome) -> Reply {
    let (code, number) = match o {
        Ok(Answer::Done) => (0, 0),
        Ok(Answer::Offset(n)) => (1, u64::from(n)),
        Ok(Answer::Given(n)) => (2, u64::from(n)),
        Ok(Answer::Granted(n)) => (3, u64::from(n)),
        Ok(Answer::Pairs(n)) => (4, u64::from(n)),
        Ok(Answer::Ordered(n, _, _)) => (6, u64::from(n)),
        Err(r) => (r.number().wrapping_add(10), 0),
    };
    Reply { code, number }
}

// Makes the call of a step. Kind 0 is Fresh, a kind above 10 an Abort.
fn made(
    state: &mut State,
    files: &mut [u8],
    logs: &mut [u8],
    marks: &mut [u8],
    undo: &mut [u8],
    s: Step,
    data: &[u8],
    reader: &mut [u8],
) -> Reply {
    let bytes = named(data, s.from, s.n);
    match s.kind {
        0 => reply_of(store::fresh(state, files, logs, marks, undo, bytes)),
        1 => reply_of(store::begin(state, files, logs, marks, undo, s.t)),
        2 => reply_of(store::seek(state, files, logs, marks, undo, s.t, s.d, s.n)),
        3 => reply_of(store::write(state, files, logs, marks, undo, s.t, s.d, bytes)),
        4 => reply_of(store::get_file_pointer(state, files, logs, marks, undo, s.t, s.d)),
        5 => reply_of(store::read(state, files, logs, marks, undo, s.t, s.d, s.n, reader)),
        6 => reply_of(store::commit(state, files, logs, marks, undo, s.t, s.n)),
        8 => reply_of(store::undo_commit(state, files, logs, marks, undo)),
        9 => reply_of(store::places(state, files, logs, marks, undo, s.t, s.d, reader)),
        10 => reply_of(store::set_window(state, files, logs, marks, undo, s.d, s.n, s.from)),
        _ => reply_of(store::abort(state, files, logs, marks, undo, s.t)),
    }
}

// Puts x at i, if there is room.
fn note(said: &mut [u8], i: usize, x: u8) {
    if i < said.len() {
        said[i] = x;
    }
}

// Runs the script once. The code of each step's outcome goes to `said`, as far as it has room. Answers the
// sum of the numbers that the calls answered, modulo 2 to the power 64.
fn pass(
    state: &mut State,
    files: &mut [u8],
    logs: &mut [u8],
    marks: &mut [u8],
    undo: &mut [u8],
    script: &[u8],
    data: &[u8],
    reader: &mut [u8],
    said: &mut [u8],
) -> u64 {
    let mut sum: u64 = 0;
    for i in 0..script.len() / STEP {
        let s = step_at(script, STEP * i);
        let reply = made(state, files, logs, marks, undo, s, data, reader);
        sum = sum.wrapping_add(reply.number);
        note(said, i, reply.code);
    }
    sum
}

// Runs the script so many rounds. Answers the sum of the numbers that the calls answered.
#[unsafe(no_mangle)]
pub extern "C" fn bench_calls_run(
    state: &mut State,
    files: &mut [u8],
    logs: &mut [u8],
    marks: &mut [u8],
    undo: &mut [u8],
    script: &[u8],
    data: &[u8],
    reader: &mut [u8],
    said: &mut [u8],
    rounds: usize,
) -> u64 {
    let mut sum: u64 = 0;
    for _ in 0..rounds {
        let answered = pass(state, files, logs, marks, undo, script, data, reader, said);
        sum = sum.wrapping_add(answered);
    }
    sum
}

// Puts the line that a call log has for the call of a step to the front of `out`, and answers its length.
fn put_line(out: &mut [u8], s: Step, data: &[u8], room: usize) -> usize
    requires { 8238 ≤ length out.old }
{
    let bytes = named(data, s.from, s.n);
    if s.kind == 0 {
        return text_log::put_fresh(out, bytes);
    }
    text_log::put_call(out, request(s), bytes, room)
}

// Puts the line of each step of the script to the front of `out`, one over the other, and answers the sum of
// their lengths, modulo 2 to the power 64.
fn put_lines(script: &[u8], data: &[u8], out: &mut [u8], room: usize) -> u64
    requires { 8238 ≤ length out.old }
{
    let mut sum: u64 = 0;
    for i in 0..script.len() / STEP {
        let n = put_line(out, step_at(script, STEP * i), data, room);
        sum = sum.wrapping_add(n as u64);
    }
    sum
}

// Puts the lines of the script's calls so many rounds, for a reader's buffer of `room` octets. Answers the
// sum of their lengths, or 0 where `out` is shorter than a line may be.
#[unsafe(no_mangle)]
pub extern "C" fn bench_calls_lines(
    script: &[u8],
    data: &[u8],
    out: &mut [u8],
    room: usize,
    rounds: usize,
) -> u64 {
    if out.len() < LINE {
        return 0;
    }
    let mut sum: u64 = 0;
    for _ in 0..rounds {
        sum = sum.wrapping_add(put_lines(script, data, out, room));
    }
    sum
}

// The offset of descriptor i or, from 16 on, the length of file i - 16.
fn committed_at(state: &State, i: usize) -> u16
    requires { i < 24 }
{
    if i < 16 {
        return offset_at(state, i);
    }
    length_at(state, i - 16)
}

// Puts the sixteen committed offsets and behind them the eight lengths, as far as `out` has room.
#[unsafe(no_mangle)]
pub extern "C" fn bench_calls_committed(state: &State, out: &mut [u16]) {
    for i in 0..out.len().min(24) {
        out[i] = committed_at(state, i);
    }
}
