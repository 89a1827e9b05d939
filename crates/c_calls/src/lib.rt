// The calls for programs in other languages. Each is lent the parts of a store that lies in the caller's
// memory, and answers one number: the result, or a refusal's number negated. The arrays cross as plain
// pointers, `bytes`, `reader` and their like as a pointer and a length.
#![tactic(auto)]

mod readers;

ghost use Rattle.spec.specs.Promises.{lent_mut, lent_shared};
ghost use Rattle.std.specs.Prelude.{[], ◌≡◌, ◌+◌};
ghost use Rattle.limits.specs.Limits.{buffer_bytes, file_bytes};
ghost use Rattle.buffers.specs.Parts.{cut};
ghost use Rattle.spec.specs.Messages.{Call, Op};
ghost use Rattle.spec.specs.Calls.{call, fresh as fresh_rule};
ghost use Rattle.c_codes.specs.Codes.{AnswersAsCode, Orders};
ghost use Rattle.c_calls.specs.Buffers.{AnswersInBlock};

use buffers::parts::part;
use c_codes::{code, gap_in, tried_of};
use call_order::best_order;
use limits::{BUFFER_BYTES, FILE_BYTES, TRANSACTIONS};
use state::layout::State;
use store::{Buffer, UndoLog};

// Where logs, marks and undo log start in the four buffers.
const LOGS_AT: usize = BUFFER_BYTES;

const MARKS_AT: usize = LOGS_AT + BUFFER_BYTES;

const UNDO_AT: usize = MARKS_AT + BUFFER_BYTES;

// Files, logs, marks and undo log as they lie in a store's block.
pub type Buffers = [u8; UNDO_AT + FILE_BYTES];

// The four buffers of a store's block.
#[derive(Clone, Copy)]
struct Block<'a> {
    files: &'a [u8],
    logs: &'a [u8],
    marks: &'a [u8],
    undo: &'a [u8],
}

impl<'a> Block<'a> {
    fn of(buffers: &'a Buffers) -> Block<'a>
        ensures { (result.files.now ≡ cut buffers.now 0 buffer_bytes)
            × (result.logs.now ≡ cut buffers.now buffer_bytes buffer_bytes)
            × (result.marks.now ≡ cut buffers.now (buffer_bytes + buffer_bytes) buffer_bytes)
            × (result.undo.now ≡ cut buffers.now (buffer_bytes + buffer_bytes + buffer_bytes) file_bytes) }
    {
        Block {
            files: part(buffers, 0, BUFFER_BYTES),
            logs: part(buffers, LOGS_AT, BUFFER_BYTES),
            marks: part(buffers, MARKS_AT, BUFFER_BYTES),
            undo: part(buffers, UNDO_AT, FILE_BYTES),
        }
    }
}

// Fresh.
#[unsafe(no_mangle)]
pub extern "C" fn luzhanem_parts_fresh(
    state: &mut State,
    files: &mut Buffer,
    logs: &Buffer,
    marks: &mut Buffer,
    undo: &UndoLog,
    numbers: &[u8],
) -> i32
    ensures { AnswersAsCode (fresh_rule numbers.now) (lent_mut state.old state.new) (lent_mut files.old files.new) (lent_shared logs.now) (lent_mut marks.old marks.new) (lent_shared undo.now) result [] }
{
    code(store::fresh(state, files, logs, marks, undo, numbers))
}

// Begin.
#[unsafe(no_mangle)]
pub extern "C" fn luzhanem_parts_begin(
    state: &mut State,
    files: &Buffer,
    logs: &Buffer,
    marks: &mut Buffer,
    undo: &UndoLog,
    t: usize,
) -> i32
    ensures { AnswersAsCode (call (Call.begin t)) (lent_mut state.old state.new) (lent_shared files.now) (lent_shared logs.now) (lent_mut marks.old marks.new) (lent_shared undo.now) result [] }
{
    code(store::begin(state, files, logs, marks, undo, t))
}

// Seek. It is lent the four buffers as one array, and takes its numbers where a caller in C has them: that
// caller jumps here.
#[unsafe(no_mangle)]
pub extern "C" fn luzhanem_parts_seek(
    state: &mut State,
    t: usize,
    d: usize,
    v: usize,
    buffers: &Buffers,
) -> i32
    ensures { AnswersInBlock (call (Call.on t (Op.seek d v))) (lent_mut state.old state.new) (lent_shared buffers.now) result }
{
    let Block {
        files,
        logs,
        marks,
        undo,
    } = Block::of(buffers);
    code(store::seek(state, files, logs, marks, undo, t, d, v))
}

// Write.
#[unsafe(no_mangle)]
pub extern "C" fn luzhanem_parts_write(
    state: &mut State,
    files: &Buffer,
    logs: &mut Buffer,
    marks: &Buffer,
    undo: &UndoLog,
    t: usize,
    d: usize,
    bytes: &[u8],
) -> i32
    ensures { AnswersAsCode (call (Call.on t (Op.write d bytes.now)))
        (lent_mut state.old state.new) (lent_shared files.now) (lent_mut logs.old logs.new) (lent_shared marks.now) (lent_shared undo.now) result [] }
{
    code(store::write(state, files, logs, marks, undo, t, d, bytes))
}

// GetFilePointer, lent the four buffers as one array.
#[unsafe(no_mangle)]
pub extern "C" fn luzhanem_parts_get_file_pointer(
    state: &mut State,
    t: usize,
    d: usize,
    buffers: &Buffers,
) -> i32
    ensures { AnswersInBlock (call (Call.on t (Op.get_file_pointer d))) (lent_mut state.old state.new) (lent_shared buffers.now) result }
{
    let Block {
        files,
        logs,
        marks,
        undo,
    } = Block::of(buffers);
    code(store::get_file_pointer(state, files, logs, marks, undo, t, d))
}

// Read.
#[unsafe(no_mangle)]
pub extern "C" fn luzhanem_parts_read<'a>(
    state: &mut State,
    files: &'a Buffer,
    logs: &'a Buffer,
    marks: &mut Buffer,
    undo: &UndoLog,
    t: usize,
    d: usize,
    n: usize,
    reader: &mut [u8],
) -> i32
    ensures { AnswersAsCode (call (Call.on t (Op.read d n reader.old)))
        (lent_mut state.old state.new) (lent_shared files.now) (lent_shared logs.now) (lent_mut marks.old marks.new) (lent_shared undo.now) result reader.new }
{
    code(store::read(state, files, logs, marks, undo, t, d, n, reader))
}

// Places.
#[unsafe(no_mangle)]
pub extern "C" fn luzhanem_parts_places(
    state: &State,
    files: &Buffer,
    logs: &Buffer,
    marks: &Buffer,
    undo: &UndoLog,
    t: usize,
    f: usize,
    out: &mut [u8],
) -> i32
    ensures { AnswersAsCode (call (Call.places t f out.old))
        (lent_shared state.now) (lent_shared files.now) (lent_shared logs.now) (lent_shared marks.now) (lent_shared undo.now) result out.new }
{
    code(store::places(state, files, logs, marks, undo, t, f, out))
}

// Commit.
#[unsafe(no_mangle)]
pub extern "C" fn luzhanem_parts_commit(
    state: &mut State,
    files: &mut Buffer,
    logs: &Buffer,
    marks: &mut Buffer,
    undo: &mut UndoLog,
    t: usize,
    minute: usize,
) -> i32
    ensures { AnswersAsCode (call (Call.commit t minute)) (lent_mut state.old state.new) (lent_mut files.old files.new) (lent_shared logs.now) (lent_mut marks.old marks.new) (lent_mut undo.old undo.new) result [] }
{
    code(store::commit(state, files, logs, marks, undo, t, minute))
}

// Abort.
#[unsafe(no_mangle)]
pub extern "C" fn luzhanem_parts_abort(
    state: &mut State,
    files: &Buffer,
    logs: &Buffer,
    marks: &mut Buffer,
    undo: &UndoLog,
    t: usize,
) -> i32
    ensures { AnswersAsCode (call (Call.abort t)) (lent_mut state.old state.new) (lent_shared files.now) (lent_shared logs.now) (lent_mut marks.old marks.new) (lent_shared undo.now) result [] }
{
    code(store::abort(state, files, logs, marks, undo, t))
}

// The setting of a window.
#[unsafe(no_mangle)]
pub extern "C" fn luzhanem_parts_set_window(
    state: &mut State,
    files: &Buffer,
    logs: &Buffer,
    marks: &Buffer,
    undo: &UndoLog,
    f: usize,
    start: usize,
    end: usize,
) -> i32
    ensures { AnswersAsCode (call (Call.set_window f start end)) (lent_mut state.old state.new) (lent_shared files.now) (lent_shared logs.now) (lent_shared marks.now) (lent_shared undo.now) result [] }
{
    code(store::set_window(state, files, logs, marks, undo, f, start, end))
}

// Undo of the last grant.
#[unsafe(no_mangle)]
pub extern "C" fn luzhanem_parts_undo(
    state: &mut State,
    files: &mut Buffer,
    logs: &Buffer,
    marks: &Buffer,
    undo: &UndoLog,
) -> i32
    ensures { AnswersAsCode (call Call.undo_commit) (lent_mut state.old state.new) (lent_mut files.old files.new) (lent_shared logs.now) (lent_shared marks.now) (lent_shared undo.now) result [] }
{
    code(store::undo_commit(state, files, logs, marks, undo))
}

// The best order: the grants. The order goes to `order`, zeros after it, the gap and the number of orders
// tried to `numbers`; with a refusal all are zeros.
#[unsafe(no_mangle)]
pub extern "C" fn luzhanem_parts_best_order<'a>(
    state: &'a State,
    files: &'a Buffer,
    logs: &'a Buffer,
    marks: &'a Buffer,
    undo: &'a UndoLog,
    list: &'a [u8],
    minute: usize,
    budget: usize,
    order: &mut [u8; TRANSACTIONS],
    numbers: &mut [u16; 2],
) -> i32
    ensures { Orders (call (Call.best_order list.now minute budget))
        (lent_shared state.now) (lent_shared files.now) (lent_shared logs.now) (lent_shared marks.now) (lent_shared undo.now) result order.new numbers.new }
{
    let best = best_order(state, files, logs, marks, undo, list, minute, budget);
    let found = best.order;
    *order = found;
    *numbers = [gap_in(best.outcome), tried_of(best.outcome)];
    code(best.outcome)
}
