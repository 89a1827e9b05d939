// Calls as data, and how one is performed on the store.
#![tactic(auto)]

ghost use Rattle.spec.specs.Promises.{lent_mut};
ghost use Rattle.requests.specs.Performing.{Performed};

use state::layout::State;
use state::outcomes::Outcome;

// A call: its kind with its numbers. Each but the last two names its transaction, then its descriptor (Places
// its file); last stands Seek's offset, Read's count or Commit's minute. SetWindow names its file, then start
// and end. A Write's bytes and the buffer for an answer are lent beside it.
#[derive(Clone, Copy)]
pub enum Request {
    Begin(usize),
    Seek(usize, usize, usize),
    Write(usize, usize),
    GetFilePointer(usize, usize),
    Read(usize, usize, usize),
    Places(usize, usize),
    Commit(usize, usize),
    Abort(usize),
    SetWindow(usize, usize, usize),
    UndoCommit,
}

// Performs the call of the request. A Write takes its bytes from `bytes`, Read and Places answer in `reader`;
// the others use neither. Commit, the one call that is not inlined here, answers into a local of its own: the
// other outcomes then stay in registers, and none is written by octets and read back whole.
pub fn perform(
    state: &mut State,
    files: &mut [u8],
    logs: &mut [u8],
    marks: &mut [u8],
    undo: &mut [u8],
    request: Request,
    bytes: &[u8],
    reader: &mut [u8],
) -> Outcome
    ensures { Performed request bytes.now (lent_mut state.old state.new) (lent_mut files.old files.new) (lent_mut logs.old logs.new) (lent_mut marks.old marks.new) (lent_mut undo.old undo.new) result (lent_mut reader.old reader.new) }
{
    match request {
        Request::Begin(t) => store::begin(state, files, logs, marks, undo, t),
        Request::Seek(t, d, v) => store::seek(state, files, logs, marks, undo, t, d, v),
        Request::Write(t, d) => store::write(state, files, logs, marks, undo, t, d, bytes),
        Request::GetFilePointer(t, d) => store::get_file_pointer(
            state, files, logs, marks, undo, t, d,
        ),
        Request::Read(t, d, n) => store::read(state, files, logs, marks, undo, t, d, n, reader),
        Request::Places(t, f) => store::places(state, files, logs, marks, undo, t, f, reader),
        Request::Commit(t, minute) => {
            let outcome = store::commit(state, files, logs, marks, undo, t, minute);
            outcome
        }
        Request::Abort(t) => store::abort(state, files, logs, marks, undo, t),
        Request::SetWindow(f, start, end) => store::set_window(
            state, files, logs, marks, undo, f, start, end,
        ),
        Request::UndoCommit => store::undo_commit(state, files, logs, marks, undo),
    }
}
