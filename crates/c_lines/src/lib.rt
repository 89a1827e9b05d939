// Lines of a log of calls for programs in other languages, rendered into a buffer of the caller. Each
// function answers how many bytes it put, the line's end with them.
#![tactic(auto, unfolding(text_log::specs::Replay::event_line, text_log::specs::Replay::logged_part, text_log::specs::Replay::logged_op, text_log::specs::Recorded::recorded_line, text_log::specs::Recorded::request_line, requests::specs::Requests::call_of))]

mod answers;

ghost use Rattle.spec.specs.Promises.{lent_mut};
ghost use Rattle.std.specs.Prelude.{replicate};
ghost use Rattle.spec.specs.Messages.{Call, Op};
ghost use Rattle.text_log.specs.Replay.{Event};
ghost use Rattle.c_lines.specs.Lines.{PutsLine};

use requests::Request;
use text_log::{put_call, put_fresh, put_order};

// Room for every line.
pub type Text = [u8; 8238];

#[unsafe(no_mangle)]
pub extern "C" fn luzhanem_parts_line_fresh(out: &mut Text, files: &[u8]) -> usize
    ensures { PutsLine (Event.starts files.now) (lent_mut out.old out.new) result }
{
    put_fresh(out, files)
}

#[unsafe(no_mangle)]
pub extern "C" fn luzhanem_parts_line_begin(out: &mut Text, t: usize) -> usize
    ensures { PutsLine (Event.makes (Call.begin t)) (lent_mut out.old out.new) result }
{
    put_call(out, Request::Begin(t), b"", 0)
}

#[unsafe(no_mangle)]
pub extern "C" fn luzhanem_parts_line_seek(out: &mut Text, t: usize, d: usize, v: usize) -> usize
    ensures { PutsLine (Event.makes (Call.on t (Op.seek d v))) (lent_mut out.old out.new) result }
{
    put_call(out, Request::Seek(t, d, v), b"", 0)
}

#[unsafe(no_mangle)]
pub extern "C" fn luzhanem_parts_line_write(
    out: &mut Text,
    t: usize,
    d: usize,
    bytes: &[u8],
) -> usize
    ensures { PutsLine (Event.makes (Call.on t (Op.write d bytes.now))) (lent_mut out.old out.new) result }
{
    put_call(out, Request::Write(t, d), bytes, 0)
}

#[unsafe(no_mangle)]
pub extern "C" fn luzhanem_parts_line_get_file_pointer(out: &mut Text, t: usize, d: usize) -> usize
    ensures { PutsLine (Event.makes (Call.on t (Op.get_file_pointer d))) (lent_mut out.old out.new) result }
{
    put_call(out, Request::GetFilePointer(t, d), b"", 0)
}

#[unsafe(no_mangle)]
pub extern "C" fn luzhanem_parts_line_read(
    out: &mut Text,
    t: usize,
    d: usize,
    n: usize,
    room: usize,
) -> usize
    ensures { PutsLine (Event.makes (Call.on t (Op.read d n (replicate room 0)))) (lent_mut out.old out.new) result }
{
    put_call(out, Request::Read(t, d, n), b"", room)
}

#[unsafe(no_mangle)]
pub extern "C" fn luzhanem_parts_line_places(
    out: &mut Text,
    t: usize,
    f: usize,
    room: usize,
) -> usize
    ensures { PutsLine (Event.makes (Call.places t f (replicate room 0))) (lent_mut out.old out.new) result }
{
    put_call(out, Request::Places(t, f), b"", room)
}

#[unsafe(no_mangle)]
pub extern "C" fn luzhanem_parts_line_commit(out: &mut Text, t: usize, minute: usize) -> usize
    ensures { PutsLine (Event.makes (Call.commit t minute)) (lent_mut out.old out.new) result }
{
    put_call(out, Request::Commit(t, minute), b"", 0)
}

#[unsafe(no_mangle)]
pub extern "C" fn luzhanem_parts_line_abort(out: &mut Text, t: usize) -> usize
    ensures { PutsLine (Event.makes (Call.abort t)) (lent_mut out.old out.new) result }
{
    put_call(out, Request::Abort(t), b"", 0)
}

#[unsafe(no_mangle)]
pub extern "C" fn luzhanem_parts_line_set_window(
    out: &mut Text,
    f: usize,
    start: usize,
    end: usize,
) -> usize
    ensures { PutsLine (Event.makes (Call.set_window f start end)) (lent_mut out.old out.new) result }
{
    put_call(out, Request::SetWindow(f, start, end), b"", 0)
}

#[unsafe(no_mangle)]
pub extern "C" fn luzhanem_parts_line_undo(out: &mut Text) -> usize
    ensures { PutsLine (Event.makes Call.undo_commit) (lent_mut out.old out.new) result }
{
    put_call(out, Request::UndoCommit, b"", 0)
}

#[unsafe(no_mangle)]
pub extern "C" fn luzhanem_parts_line_best_order(
    out: &mut Text,
    list: &[u8],
    minute: usize,
    budget: usize,
) -> usize
    ensures { PutsLine (Event.makes (Call.best_order list.now minute budget)) (lent_mut out.old out.new) result }
{
    put_order(out, list, minute, budget)
}
