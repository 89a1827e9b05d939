// Answers the lines of a piece of input. Answers are pending in the output buffer until they are written.
ghost use Rattle.std.specs.Prelude.{◌≡◌, ◌∷◌, [], ◌≤◌, ◌<◌, length, take, drop};
ghost use Rattle.text_lines.specs.Lines.{last_line};
ghost use Rattle.store.specs.Kept.{machine_in};
ghost use Rattle.trace.specs.Answers.{Answers};
ghost use Rattle.text_lines.specs.Programs.{Answered, Passes};
ghost use Rattle.trace.specs.Transcript.{store_trace, under};
ghost use Rattle.trace.specs.Bounds.{TraceProgressIn, TraceOnward, TraceResting, TraceRoom};

use buffers::parts::part;
use store::{Outcome, Refusal, Store};

// Output is written when more than this is pending, so that the longest line still fits behind it.
const MOST: usize = 57000;

// The progress of a run, beside the store: how many bytes of the current line are pending, the place in the
// piece, how many bytes of output are pending, and how many lines of it were written; whether a line of
// another form ended in byte 13, whether the run goes on, and whether it came to the end of the input with
// all that it answered written.
#[derive(Clone, Copy)]
pub struct TraceProgress {
    pub pending: usize,
    pub at: usize,
    pub waiting: usize,
    pub written: u64,
    pub returned: bool,
    pub goes: bool,
    pub complete: bool,
}

// The answer to a line: 17, or what the call answers that it asks for.
fn answer(store: &mut Store, line: &[u8], reader: &mut [u8]) -> Outcome
    ensures { Answers line.now reader.old (machine_in store.old) result (machine_in store.new) reader.new }
{
    let Some(asked) = text_trace::parse_line(line) else {
        return Err(Refusal::BadLine);
    };
    let bytes = &line[asked.start..];
    requests::perform(
        &mut store.state,
        &mut store.files,
        &mut store.logs,
        &mut store.marks,
        &mut store.undo,
        asked.request,
        bytes,
        reader,
    )
}

// True if a malformed line ends in CR: the input probably has CRLF line ends.
fn is_returned(line: &[u8], o: Outcome) -> bool {
    matches!(o, Err(Refusal::BadLine))
        && line.len() <= text_trace::TRACE_LINE_BYTES
        && matches!(line, [.., b'\r'])
}

// Answers a line, and prints what was answered after the pending output.
fn answer_line(
    mut progress: TraceProgress,
    store: &mut Store,
    line: &[u8],
    reader: &mut [u8],
    out: &mut [u8],
) -> TraceProgress
    requires { (progress.waiting ≤ 57000) × TraceRoom reader.old out.old }
    ensures { Answered store_trace (line.now ∷ [])
        (record { machine = machine_in store.old; reader = reader.old })
        (take progress.waiting out.old)
        (record { machine = machine_in store.new; reader = reader.new })
        (take result.waiting out.new)
        × ((result.waiting ≤ length out.new)
        × ((result.pending ≡ progress.pending) × (result.at ≡ progress.at))) }
{
    let o = answer(store, line, reader);
    let waiting = text_answers::print_answer(out, progress.waiting, o, reader);
    progress.waiting = waiting;
    progress.returned = progress.returned | is_returned(line, o);
    progress
}

// Answers the line that ends next in the piece, or buffers the rest of the piece.
fn step(
    mut progress: TraceProgress,
    store: &mut Store,
    line: &mut [u8],
    reader: &mut [u8],
    piece: &[u8],
    out: &mut [u8],
) -> TraceProgress
    requires { TraceProgressIn progress (length piece.now)
        × (TraceRoom reader.old out.old × (length line.old ≡ 129)) }
    ensures { Passes store_trace
        (under (machine_in store.old) reader.old
        (take progress.pending line.old) (drop progress.at piece.now))
        (take progress.waiting out.old)
        (under (machine_in store.new) reader.new (take result.pending line.new) (drop result.at piece.now))
        (take result.waiting out.new)
        × TraceOnward progress result (length piece.now) (length out.new) }
{
    let scan = text_lines::next_line(line, progress.pending, piece, progress.at);
    let n = scan.pending;
    progress.pending = n;
    progress.at = scan.at;
    if !scan.complete {
        return progress;
    }
    progress.pending = 0;
    answer_line(progress, store, part(line, 0, n), reader, out)
}

// Answers lines of the piece until much output is pending, or nothing of the piece is left.
pub fn fill(
    mut progress: TraceProgress,
    store: &mut Store,
    line: &mut [u8],
    reader: &mut [u8],
    piece: &[u8],
    out: &mut [u8],
) -> TraceProgress
    requires { TraceResting progress × ((progress.at < length piece.now)
        × (TraceRoom reader.old out.old × (length line.old ≡ 129))) }
    ensures { Passes store_trace
        (under (machine_in store.old) reader.old
        (take progress.pending line.old) (drop progress.at piece.now))
        []
        (under (machine_in store.new) reader.new (take result.pending line.new) (drop result.at piece.now))
        (take result.waiting out.new)
        × TraceOnward progress result (length piece.now) (length out.new) }
{
    // A while: a step goes on to the end of a line.
    while progress.at < piece.len() {
        if MOST < progress.waiting {
            return progress;
        }
        progress = step(progress, store, line, reader, piece, out);
    }
    progress
}

// Answers the line that the end of the input ends, if there is one.
pub fn answer_last_line(
    progress: TraceProgress,
    store: &mut Store,
    line: &[u8],
    reader: &mut [u8],
    out: &mut [u8],
) -> TraceProgress
    requires { TraceResting progress × (TraceRoom reader.old out.old × (length line.now ≡ 129)) }
    ensures { Answered store_trace (last_line (take progress.pending line.now))
        (record { machine = machine_in store.old; reader = reader.old })
        []
        (record { machine = machine_in store.new; reader = reader.new })
        (take result.waiting out.new)
        × ((result.waiting ≤ length out.new) × (result.pending ≡ progress.pending)) }
{
    let n = progress.pending;
    if !text_lines::is_line(part(line, 0, n)) {
        return progress;
    }
    answer_line(progress, store, part(line, 0, n), reader, out)
}
