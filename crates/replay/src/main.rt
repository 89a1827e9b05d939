// Replays a call log: reads its lines from standard input, performs the calls on a fresh store, or on a saved
// block that the argument names, and prints a line for each to standard output. Differences from the log,
// lines of another form and failures are reported on standard error. The memory is the same for an input of
// any size.
#![tactic(auto)]

mod blocks;
mod stdio;

ghost use Rattle.std.specs.Prelude.{◌≡◌, true, false, [], ℕ, ◌≤◌, ◌<◌, length, take};
ghost use Rattle.text_log.specs.Replay.{replaying, first_state};
ghost use Rattle.text_lines.specs.Programs.{at_end, within};
ghost use Rattle.text_lines.specs.WholeRun.{LinesLead};
ghost use Rattle.text_replay.specs.Bounds.{Rooms};
ghost use Rattle.text_replay.specs.Turns.{replay_state_in};
ghost use Rattle.store.specs.Kept.{machine_in};
ghost use Rattle.text_replay_pieces.specs.Bounds.{PiecesResting};
ghost use Rattle.replay.specs.Bounds.{Flushed};
ghost use Rattle.replay.specs.WholeRun.{ReachedFrom, RunEnds};

use std::rt::{Env, Files};
use store::Store;
use text_log::LOG_LINE_BYTES;
use text_replay::answering::{OUTPUT, ReplayProgress, Tally, WRITTEN};
use text_replay_pieces::{replay_last_line, replay_piece};
use text_stdio::{Streams, has_argument, lines_more, read_piece, write_out};

// The bytes of a piece of input, and those that a path may have.
const PIECE_BYTES: usize = 65536;

const PATH_BYTES: usize = 4096;

// Writes the pending output, and counts its lines. A write that fails is reported, and ends the run. No
// contract can say what is written: the theorem of a whole run binds what is handed over here.
fn flush(streams: Streams, mut p: ReplayProgress, out: &[u8]) -> ReplayProgress
    requires { p.waiting ≤ length out.now }
    ensures { Flushed p result }
{
    let (done, wrote) = write_out(streams, &out[..p.waiting]);
    p.written = lines_more(&out[..done], p.written);
    p.waiting = 0;
    if let Err(e) = wrote {
        p.goes = false;
        stdio::say_log_unwritten(streams, p.written, e);
    }
    p
}

// Performs the lines that end in the piece, and buffers the rest.
fn take_piece(
    streams: Streams,
    mut p: ReplayProgress,
    store: &mut Store,
    line: &mut [u8],
    bytes: &mut [u8],
    reader: &mut [u8],
    piece: &[u8],
    out: &mut [u8],
) -> ReplayProgress
    requires { PiecesResting p × ((length line.old ≡ 8238) × Rooms bytes.old reader.old out.old) }
    ensures { PiecesResting result × (result.goes ≡ true
        → at_end replaying
        (within (replay_state_in p (machine_in store.old) out.old) (take p.pending line.old) piece.now)
        ≡ within (replay_state_in result (machine_in store.new) out.new) (take result.pending line.new) []) }
{
    p.at = 0;
    // A while: the step is the bytes of the lines that were performed.
    while p.at < piece.len() {
        let q = replay_piece(p, store, line, bytes, reader, piece, out);
        p = flush(streams, q, out);
        if !p.goes {
            return p;
        }
    }
    p
}

// Reads a piece and performs its lines; at the end of the input the last one. Another version ends the run as
// the end of the input does.
fn turn(
    streams: Streams,
    mut p: ReplayProgress,
    store: &mut Store,
    line: &mut [u8],
    bytes: &mut [u8],
    reader: &mut [u8],
    input: &mut [u8],
    out: &mut [u8],
) -> ReplayProgress
    requires { PiecesResting p × ((length line.old ≡ 8238) × (Rooms bytes.old reader.old out.old
        × ReachedFrom
        (within (replay_state_in p (machine_in store.old) out.old) (take p.pending line.old) []))) }
    ensures { PiecesResting result × (result.goes ≡ true → (n : ℕ)
        × (at_end replaying (within (replay_state_in p (machine_in store.old) out.old)
        (take p.pending line.old) (take n input.new))
        ≡ within (replay_state_in result (machine_in store.new) out.new) (take result.pending line.new) []))
        × (result.complete ≡ true → (n : ℕ)
        × RunEnds (within (replay_state_in p (machine_in store.old) out.old)
        (take p.pending line.old) (take n input.new))
        (replay_state_in result (machine_in store.new) out.new)) }
{
    p.complete = false;
    match read_piece(streams, input) {
        Ok(0) => {
            let q = replay_last_line(p, store, line, bytes, reader, out);
            p = flush(streams, q, out);
            p.complete = p.goes;
            p.goes = false;
        }
        Ok(n) => {
            p = take_piece(streams, p, store, line, bytes, reader, &input[..n], out);
            let ended = p.ended.is_some();
            p.complete = p.goes & ended;
            p.goes &= !ended;
        }
        Err(e) => {
            p.goes = false;
            stdio::say_log_unread(streams, p.written, e);
        }
    }
    p
}

// Says what the run came to, where that is worth a sentence.
fn tell(streams: Streams, p: ReplayProgress) {
    if let Some(version) = p.ended {
        stdio::say_version(streams, version as u64, p.lines);
    }
    if 0 < p.malformed.count {
        stdio::say_malformed(streams, p.malformed);
    }
    if p.returned {
        stdio::say_log_returned(streams);
    }
    if 0 < p.differing.count {
        stdio::say_differing(streams, p.differing);
    }
}

// Performs the whole input. Nothing says that it ends, so the turns are as many as no run uses up.
fn run(
    streams: Streams,
    store: &mut Store,
    line: &mut [u8],
    bytes: &mut [u8],
    reader: &mut [u8],
    input: &mut [u8],
    out: &mut [u8],
) -> ReplayProgress
    requires { (length line.old ≡ 8238) × Rooms bytes.old reader.old out.old }
    ensures { result.complete ≡ true → LinesLead replaying
        (first_state (machine_in store.old))
        (replay_state_in result (machine_in store.new) out.new) }
{
    let none = Tally { count: 0, first: 0 };
    let mut p = ReplayProgress {
        pending: 0,
        at: 0,
        waiting: 0,
        from: 0,
        end: 0,
        written: 0,
        lines: 0,
        malformed: none,
        differing: none,
        returned: false,
        ended: None,
        goes: true,
        complete: false,
    };
    for _ in 0..u64::MAX {
        p = turn(streams, p, store, line, bytes, reader, input, out);
        if !p.goes {
            return p;
        }
    }
    p
}

// Makes the store fresh, descriptor d in file d mod 8: whether it is.
fn start(store: &mut Store) -> bool {
    let list = [0u8, 1, 2, 3, 4, 5, 6, 7, 0, 1, 2, 3, 4, 5, 6, 7];
    store.fresh(&list).is_ok()
}

// Makes the store fresh, or reads the block that the argument names: whether there is a store.
fn prepare(rt: &(impl Env + Files), streams: Streams, store: &mut Store) -> bool {
    if !has_argument(rt, 1) {
        return start(store);
    }
    let mut path = [0u8; PATH_BYTES];
    let n = rt.arg(1, &mut path).unwrap_or(0);
    blocks::load_block(rt, streams, &path[..n], store)
}

// Replays the log, and with more than one argument only says how it is used.
fn main(rt: HostRuntime) {
    let streams = Streams {
        input: rt.stdin(),
        output: rt.stdout(),
        error: rt.stderr(),
    };
    if has_argument(&rt, 2) {
        stdio::say_replay_use(streams);
        return;
    }
    let mut store = Store::new();
    if !prepare(&rt, streams, &mut store) {
        return;
    }
    let mut line = [0u8; LOG_LINE_BYTES];
    let mut bytes = [0u8; WRITTEN];
    let mut reader = [0u8; WRITTEN];
    let mut out = [0u8; OUTPUT];
    let mut input = [0u8; PIECE_BYTES];
    let p = run(
        streams,
        &mut store,
        &mut line,
        &mut bytes,
        &mut reader,
        &mut input,
        &mut out,
    );
    tell(streams, p);
}
