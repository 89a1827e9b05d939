// The lines of a piece of a log are performed, and what is answered waits in the output buffer.
#![tactic(auto)]

ghost use Rattle.std.specs.Prelude.{◌≡◌, [], ◌<◌, length, take, drop};
ghost use Rattle.text_log.specs.Replay.{replaying};
ghost use Rattle.text_lines.specs.Lines.{last_line};
ghost use Rattle.text_lines.specs.Programs.{Answered, Passes, within};
ghost use Rattle.text_replay.specs.Bounds.{LineTaken, Rooms};
ghost use Rattle.text_replay.specs.Turns.{replay_state_in};
ghost use Rattle.store.specs.Kept.{machine_in};
ghost use Rattle.text_replay_pieces.specs.Bounds.{ProgressIn, Onward, PiecesResting};

use store::Store;
use text_replay::answering::{ReplayProgress, take_line};

// When more output waits than this it is written, so that the longest answer still fits in after what waits.
const MOST: usize = 40000;

// Performs the line that ends next in the piece, or holds the rest of the piece.
fn step(
    mut p: ReplayProgress,
    store: &mut Store,
    line: &mut [u8],
    bytes: &mut [u8],
    reader: &mut [u8],
    piece: &[u8],
    out: &mut [u8],
) -> ReplayProgress
    requires { ProgressIn p (length piece.now) × ((length line.old ≡ 8238)
        × Rooms bytes.old reader.old out.old) }
    ensures { Passes replaying
        (within (replay_state_in p (machine_in store.old) out.old)
        (take p.pending line.old) (drop p.at piece.now))
        (take p.waiting out.old)
        (within (replay_state_in result (machine_in store.new) out.new)
        (take result.pending line.new) (drop result.at piece.now))
        (take result.waiting out.new)
        × Onward p result (length piece.now) }
{
    let scan = text_lines::next_line(line, p.pending, piece, p.at);
    p.at = scan.at;
    if !scan.complete {
        p.pending = scan.pending;
        return p;
    }
    p.pending = 0;
    take_line(p, store, &line[..scan.pending], bytes, reader, out)
}

// Performs lines of the piece until much output waits, or nothing of the piece is left.
pub fn replay_piece(
    mut p: ReplayProgress,
    store: &mut Store,
    line: &mut [u8],
    bytes: &mut [u8],
    reader: &mut [u8],
    piece: &[u8],
    out: &mut [u8],
) -> ReplayProgress
    requires { PiecesResting p × ((p.at < length piece.now) × ((length line.old ≡ 8238)
        × Rooms bytes.old reader.old out.old)) }
    ensures { Passes replaying
        (within (replay_state_in p (machine_in store.old) out.old)
        (take p.pending line.old) (drop p.at piece.now))
        []
        (within (replay_state_in result (machine_in store.new) out.new)
        (take result.pending line.new) (drop result.at piece.now))
        (take result.waiting out.new)
        × Onward p result (length piece.now) }
{
    // A while: the step is the line's length.
    while p.at < piece.len() {
        if MOST < p.waiting {
            return p;
        }
        p = step(p, store, line, bytes, reader, piece, out);
    }
    p
}

// Performs the line that the end of the input ends, if there is one.
pub fn replay_last_line(
    p: ReplayProgress,
    store: &mut Store,
    line: &[u8],
    bytes: &mut [u8],
    reader: &mut [u8],
    out: &mut [u8],
) -> ReplayProgress
    requires { PiecesResting p × ((length line.now ≡ 8238) × Rooms bytes.old reader.old out.old) }
    ensures { Answered replaying (last_line (take p.pending line.now))
        (replay_state_in p (machine_in store.old) out.old)
        []
        (replay_state_in result (machine_in store.new) out.new)
        (take result.waiting out.new)
        × LineTaken p result }
{
    let rest = &line[..p.pending];
    if !text_lines::is_line(rest) {
        return p;
    }
    take_line(p, store, rest, bytes, reader, out)
}
