// Runs a trace: reads calls from standard input, a line each, performs them on a fresh store, and prints a
// line for each to standard output. Failures are reported on standard error. The memory is the same for an
// input of any size.
#![tactic(auto)]

mod answering;
mod stdio;

ghost use Rattle.std.specs.Prelude.{◌≡◌, true, false, List, [], ℕ, ◌≤◌, ◌<◌, length, take};
ghost use Rattle.spec.specs.SerializabilityOfStore.{FreshlyMade};
ghost use Rattle.store.specs.Kept.{machine_in};
ghost use Rattle.text_lines.specs.Lines.{last_line};
ghost use Rattle.text_lines.specs.Programs.{Answered, at_end};
ghost use Rattle.text_lines.specs.WholeRun.{LinesLead};
ghost use Rattle.trace.specs.Transcript.{mod_eight, store_trace, under};
ghost use Rattle.trace.specs.WholeRun.{ReachedFresh};
ghost use Rattle.trace.specs.Bounds.{TraceResting, TraceRoom};

use answering::{TraceProgress, answer_last_line, fill};
use buffers::parts::part;
use store::Store;
use text_stdio::{Streams, has_argument, lines_more, read_piece, write_out};

// The bytes buffered of a line: one more than it may have.
const LINE_BUFFER: usize = 129;

// The bytes that a call of Read may ask for, and those of a piece of input and of pending output.
const READ_BYTES: usize = 4096;

const PIECE_BYTES: usize = 65536;

// Writes the pending output, and counts its lines. A write that fails is reported, and ends the run. No
// contract can say what is written: the theorem of a whole run binds what is handed over here.
fn flush(streams: Streams, mut progress: TraceProgress, out: &[u8]) -> TraceProgress
    requires { progress.waiting ≤ length out.now }
    ensures { (result.waiting ≡ 0) × ((result.pending ≡ progress.pending) × (result.at ≡ progress.at)) }
{
    let n = progress.waiting;
    let (done, wrote) = write_out(streams, part(out, 0, n));
    progress.written = lines_more(part(out, 0, done), progress.written);
    progress.waiting = 0;
    if let Err(e) = wrote {
        progress.goes = false;
        stdio::say_unwritten(streams, progress.written, e);
    }
    progress
}

// Answers the lines that end in the piece, and buffers the rest.
fn take_piece(
    streams: Streams,
    mut progress: TraceProgress,
    store: &mut Store,
    line: &mut [u8],
    reader: &mut [u8],
    piece: &[u8],
    out: &mut [u8],
) -> TraceProgress
    requires { TraceResting progress × (TraceRoom reader.old out.old × (length line.old ≡ 129)) }
    ensures { TraceResting result × (result.goes ≡ true → at_end store_trace
        (under (machine_in store.old) reader.old (take progress.pending line.old) piece.now)
        ≡ under (machine_in store.new) reader.new (take result.pending line.new) []) }
{
    progress.at = 0;
    // A while: as many lines are answered between two writes as the output has room for.
    while progress.at < piece.len() {
        let d = fill(progress, store, line, reader, piece, out);
        progress = flush(streams, d, out);
        if !progress.goes {
            return progress;
        }
    }
    progress
}

// Reads a piece and answers its lines; where the run goes on, those of a front part of what the input buffer
// holds.
fn turn(
    streams: Streams,
    mut progress: TraceProgress,
    store: &mut Store,
    line: &mut [u8],
    reader: &mut [u8],
    input: &mut [u8],
    out: &mut [u8],
) -> TraceProgress
    requires { TraceResting progress × (TraceRoom reader.old out.old × ((length line.old ≡ 129)
        × ReachedFresh (under (machine_in store.old) reader.old (take progress.pending line.old) []))) }
    ensures { TraceResting result × (result.goes ≡ true → (n : ℕ)
        × (at_end store_trace
        (under (machine_in store.old) reader.old (take progress.pending line.old) (take n input.new))
        ≡ under (machine_in store.new) reader.new (take result.pending line.new) []))
        × (result.complete ≡ true → (text : List ℕ) × Answered store_trace
        (last_line (take progress.pending line.old))
        (record { machine = machine_in store.old; reader = reader.old })
        []
        (record { machine = machine_in store.new; reader = reader.new })
        text) }
{
    progress.complete = false;
    match read_piece(streams, input) {
        Ok(0) => {
            let d = answer_last_line(progress, store, line, reader, out);
            progress = flush(streams, d, out);
            progress.complete = progress.goes;
            progress.goes = false;
        }
        Ok(n) => {
            progress = take_piece(streams, progress, store, line, reader, &input[..n], out);
            progress.complete = false;
        }
        Err(e) => {
            progress.goes = false;
            stdio::say_unread(streams, progress.written, e);
        }
    }
    progress
}

// Answers the whole input. Nothing says that it ends, so the turns are as many as no run uses up.
fn run(
    streams: Streams,
    store: &mut Store,
    line: &mut [u8],
    reader: &mut [u8],
    input: &mut [u8],
    out: &mut [u8],
) -> TraceProgress
    requires { FreshlyMade mod_eight (machine_in store.old)
        × (TraceRoom reader.old out.old × (length line.old ≡ 129)) }
    ensures { result.complete ≡ true → LinesLead store_trace
        (record { machine = machine_in store.old; reader = reader.old })
        (record { machine = machine_in store.new; reader = reader.new }) }
{
    let mut progress = TraceProgress {
        pending: 0,
        at: 0,
        waiting: 0,
        written: 0,
        returned: false,
        goes: true,
        complete: false,
    };
    for _ in 0..u64::MAX {
        progress = turn(streams, progress, store, line, reader, input, out);
        if !progress.goes {
            return progress;
        }
    }
    progress
}

// Makes a fresh store, descriptor d in file d mod 8. Fresh refuses no new store.
fn start() -> Store
    ensures { FreshlyMade mod_eight (machine_in result) }
{
    let mut store = Store::new();
    let list = [0u8, 1, 2, 3, 4, 5, 6, 7, 0, 1, 2, 3, 4, 5, 6, 7];
    store.fresh(&list).unwrap();
    store
}

// Performs the trace, and with any argument only says how it is used.
fn main(rt: HostRuntime) {
    let streams = Streams {
        input: rt.stdin(),
        output: rt.stdout(),
        error: rt.stderr(),
    };
    if has_argument(&rt, 1) {
        stdio::say_use(streams);
        return;
    }
    let mut store = start();
    let mut line = [0u8; LINE_BUFFER];
    let mut reader = [0u8; READ_BYTES];
    let mut input = [0u8; PIECE_BYTES];
    let mut out = [0u8; PIECE_BYTES];
    let progress = run(
        streams,
        &mut store,
        &mut line,
        &mut reader,
        &mut input,
        &mut out,
    );
    if progress.returned {
        stdio::say_returned(streams);
    }
}
