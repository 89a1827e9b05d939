// Restores the bytes that the last grant overwrote.
ghost use Rattle.std.specs.Prelude.{true, ◌≡◌, ◌<◌, length};
ghost use Rattle.limits.specs.Limits.{buffer_bytes, descriptor_count, record_count, undo_bytes};
ghost use Rattle.state.specs.Layout.{store_of, journal_of};
ghost use Rattle.state.specs.Journal.{last_grant, write_record_at};
ghost use Rattle.admission.specs.Admission.{store_in};
ghost use Rattle.spec_undo.specs.OldBytes.{restored};
ghost use Rattle.spec.specs.Undo.{landed_on};
ghost use Rattle.call_undo.specs.LandedWrites.{landed_as};

use buffers::parts;
use commit_apply::writes::LandedWrite;
use state::journal::{LAST_GRANT, record_at};
use state::layout::{State, file_at, undo_used};

// Where write k of the last grant landed.
fn landed_at(state: &State, k: usize) -> LandedWrite
    requires { (k < record_count)
        × ((write_record_at (journal_of state.now) last_grant k).descriptor < descriptor_count) }
    ensures { result ≡ landed_as (store_of state.now)
        (write_record_at (journal_of state.now) last_grant k) }
{
    let w = record_at(state, LAST_GRANT, k);
    let p = w.place;
    LandedWrite {
        file: usize::from(file_at(state, usize::from(w.descriptor))),
        place: usize::from(p.place_number()),
        length: usize::from(w.length),
    }
}

// Puts the old bytes back into the files, from the last write to the first (R-12.2).
pub fn restore_bytes(state: &State, files: &mut [u8], undo: &[u8])
    requires { (store_in (store_of state.now) (journal_of state.now) ≡ true)
        × ((store_of state.now).undo.valid ≡ true)
        × (length files.old ≡ buffer_bytes) × (length undo.now ≡ undo_bytes) }
    ensures { files.new ≡
        restored (landed_on (store_of state.now) (journal_of state.now))
        undo.now
        files.old }
{
    let used = undo_used(state);
    let mut end = usize::from(used.bytes);
    for k in (0..used.records).rev() {
        let w = landed_at(state, k);
        let f = w.file;
        let place = w.place;
        let size = w.length;
        end -= size;
        parts::land(files, f, place, parts::part(undo, end, size));
    }
}
