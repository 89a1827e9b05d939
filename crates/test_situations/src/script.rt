// Calls as lines of a trace, compared with the lines that they have to be answered.
ghost use Rattle.std.specs.Prelude.{◌≤◌, length};

use buffers::parts;
use limits::{BUFFER_BYTES, DESCRIPTORS, FILE_BYTES};
use requests::Request;
use state::layout::{offset_at, standing_at};
use state::outcomes::{Answer, Outcome};
use store::Store;

fn is_line_end(byte: &u8) -> bool {
    *byte == b'\n'
}

// The outcome is Done: no number, no refusal.
fn is_done(o: Outcome) -> bool {
    matches!(o, Ok(Answer::Done))
}

// Behind the n bytes of a granted commit's line: the number of those that its octet names, at most 8. Answers
// how many bytes the line has then; of another outcome it stays as it is.
fn with_number(out: &mut [u8], n: usize, o: Outcome) -> usize
    requires { n ≤ length out.old }
    ensures { result ≤ length out.new }
{
    let Ok(Answer::Granted(octet)) = o else {
        return n;
    };
    let number = store::made_stale(octet);
    if n == 0 {
        return 0;
    }
    if out.len() < n + 2 {
        return 0;
    }
    if 8 < number {
        return 0;
    }
    let end = [b' ', b'0' + number as u8, b'\n'];
    parts::copy_to(out, n - 1, &end);
    n + 2
}

// Performs a request on the store.
fn perform(store: &mut Store, request: Request, bytes: &[u8], reader: &mut [u8]) -> Outcome {
    requests::perform(
        &mut store.state,
        &mut store.files,
        &mut store.logs,
        &mut store.marks,
        &mut store.undo,
        request,
        bytes,
        reader,
    )
}

// The call of a line answers as the reply says, which has its line end. Where a commit is granted, the reply
// has the octet and beside it the number of those that it names.
fn answers(store: &mut Store, line: &[u8], reply: &[u8]) -> bool {
    let mut reader = [0u8; 8];
    let mut out = [0u8; 32];
    let Some(asked) = text_trace::parse_line(line) else {
        return false;
    };
    let o = perform(store, asked.request, &line[asked.start..], &mut reader);
    let n = text_answers::print_answer(&mut out, 0, o, &reader);
    let n = with_number(&mut out, n, o);
    check::same(parts::part(&out, 0, n), reply)
}

// Every call of the lines answers as the line says that stands in its place among the replies.
pub fn run_lines(store: &mut Store, calls: &[u8], replies: &[u8]) -> bool {
    let mut ok = true;
    let mut replies = replies.split_inclusive(is_line_end);
    for call in calls.split_inclusive(is_line_end) {
        let (Some(line), Some(reply)) = (call.strip_suffix(b"\n"), replies.next()) else {
            return false;
        };
        ok &= answers(store, line, reply);
    }
    ok
}

// "Each situation starts at its own Fresh; T0 to T2 are begun." [R-20.1] Descriptor d belongs to file d mod
// 8.
pub fn start(store: &mut Store) -> bool {
    let list = [0u8, 1, 2, 3, 4, 5, 6, 7, 0, 1, 2, 3, 4, 5, 6, 7];
    let made = is_done(store.fresh(&list));
    made & run_lines(store, b"B0\nB1\nB2\n", b"ok\nok\nok\n")
}

// A start with "a first commit that fills the file with zeros" [R-20.1]: T7's, through descriptor 0.
pub fn start_filled(store: &mut Store) -> bool {
    let begun = start(store) & run_lines(store, b"B7\n", b"ok\n");
    let write = Request::Write(7, 0);
    let written = is_done(perform(store, write, &[0u8; FILE_BYTES], &mut []));
    begun & written & run_lines(store, b"C7\n", b"ok 0 0\n")
}

// File 0 begins with these bytes, and the committed offset of descriptor 0 is n.
pub fn stands(store: &Store, front: &[u8], n: u16) -> bool {
    let size = front.len();
    if store.files.len() < size {
        return false;
    }
    check::same(parts::part(&store.files, 0, size), front) & (offset_at(&store.state, 0) == n)
}

// Nobody has sighted a byte, and T0 has sighted the offset of descriptor d and no other.
pub fn sighted_alone(store: &Store, d: usize) -> bool {
    let mut ok = check::same(&store.marks, &[0u8; BUFFER_BYTES]);
    for i in 0..DESCRIPTORS {
        ok &= standing_at(&store.state, 0, i).is_known() == (i == d);
    }
    ok
}
