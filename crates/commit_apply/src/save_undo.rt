// What the state saves of a grant so that it can be undone.
ghost use Rattle.std.specs.Prelude.{◌≡◌, ◌<◌};
ghost use Rattle.limits.specs.Limits.{transaction_count, record_count};
ghost use Rattle.state.specs.Journal.{write_record_at};
ghost use Rattle.state.specs.Layout.{store_of, journal_of};
ghost use Rattle.commit_apply.specs.Apply.{RecordLands, CanLandIn};
ghost use Rattle.commit_apply.specs.SaveUndo.{record_landed, RecordsPreserved, GrantPreserved};

use crate::writes::lands_at;
use counters::Used;
use standings::Place;
use state::journal::{LAST_GRANT, WriteRecord, put_record, record_at};
use state::layout::{State, offset_at, put_undo_used, put_undo_valid, save_found};

// Write record k of transaction t, with the place at which it lands.
fn landed_record(state: &State, t: usize, k: usize) -> WriteRecord
    requires { (t < transaction_count) × (k < record_count)
        × RecordLands (store_of state.now).offsets (journal_of state.now) t k }
    ensures { result
        ≡ record_landed (store_of state.now).offsets
        (write_record_at (journal_of state.now) t k) }
{
    let w = record_at(state, t, k);
    let p = w.place;
    let c = usize::from(offset_at(state, usize::from(w.descriptor)));
    WriteRecord {
        descriptor: w.descriptor,
        place: Place::At(lands_at(p, c) as u16),
        length: w.length,
    }
}

// Saves transaction t's write records as those of the last grant.
fn save_records(state: &mut State, t: usize, used: Used)
    requires { CanLandIn state.old t used.records }
    ensures { RecordsPreserved state.old state.new t used.records }
{
    for k in 0..used.records {
        let w = landed_record(state, t, k);
        put_record(state, LAST_GRANT, k, w);
    }
}

// Saves what a grant of transaction t lands, and the offsets and lengths that it finds.
pub fn save_undo(state: &mut State, t: usize, used: Used)
    requires { CanLandIn state.old t used.records }
    ensures { GrantPreserved state.old state.new t used }
{
    save_records(state, t, used);
    save_found(state);
    put_undo_used(state, used);
    put_undo_valid(state, true);
}
