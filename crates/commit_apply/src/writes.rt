// The bytes that a commit lands, and those that they land on.
ghost use Rattle.std.specs.Prelude.{◌≡◌, ◌+◌, ◌≤◌, length};
ghost use Rattle.limits.specs.Limits.{buffer_bytes, undo_bytes};
ghost use Rattle.buffers.specs.Parts.{pasted};
ghost use Rattle.spec.specs.Commits.{lands_at};
ghost use Rattle.spec.specs.Calls.{land_files};
ghost use Rattle.commit_apply.specs.Apply.{CanLandIn, LandsAs, bytes_set_in};
ghost use Rattle.commit_apply.specs.SaveUndo.{old_bytes_in};

use buffers::parts;
use counters::Used;
use limits::LOG_BYTES;
use standings::Place;
use state::journal::record_at;
use state::layout::{State, file_at, offset_at};

// Where a write record lands: in which file, from which place of it on, and how many bytes.
#[derive(Clone, Copy)]
pub struct LandedWrite {
    pub file: usize,
    pub place: usize,
    pub length: usize,
}

// Where a write lands in its file: at its place or, while it has none, from the committed offset c on.
pub fn lands_at(place: Place, c: usize) -> usize
    requires { c ≤ 65535 }
    ensures { result ≡ lands_at c place }
{
    match place {
        Place::At(p) => usize::from(p),
        Place::After(a) => c + usize::from(a),
    }
}

// Where write record k of transaction t lands.
pub fn landing_at(state: &State, t: usize, k: usize) -> LandedWrite
    requires { CanLandIn state.now t (k + 1) }
    ensures { LandsAs state.now t k result }
{
    let w = record_at(state, t, k);
    let d = usize::from(w.descriptor);
    let p = w.place;
    LandedWrite {
        file: usize::from(file_at(state, d)),
        place: lands_at(p, usize::from(offset_at(state, d))),
        length: usize::from(w.length),
    }
}

// Lands transaction t's writes in call order. The bytes that each lands on go to the undo buffer first,
// directly behind those of the writes before it.
pub fn land_writes(
    state: &State,
    files: &mut [u8],
    logs: &[u8],
    undo: &mut [u8],
    t: usize,
    used: Used,
)
    requires { CanLandIn state.now t used.records
        × (length files.old ≡ buffer_bytes) × (length logs.now ≡ buffer_bytes)
        × (length undo.old ≡ undo_bytes) }
    ensures { (files.new
        ≡ land_files (bytes_set_in state.now logs.now t used.records)
        files.old)
        × (undo.new ≡ pasted undo.old 0
        (old_bytes_in state.now files.old logs.now t used.records)) }
{
    let log = LOG_BYTES * t;
    let mut done = 0;
    for k in 0..used.records {
        let w = landing_at(state, t, k);
        let f = w.file;
        let place = w.place;
        let size = w.length;
        let file = parts::file_part(files, f);
        parts::copy_to(undo, done, parts::part(file, place, size));
        parts::land(files, f, place, parts::part(logs, log + done, size));
        done += size;
    }
}
