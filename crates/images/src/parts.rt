// The numbers of an image, read from the state by name.
ghost use Rattle.std.specs.Prelude.{◌≡◌, ◌<◌, ◌≤◌};
ghost use Rattle.state.specs.Layout.{store_of, journal_of};
ghost use Rattle.images.specs.Images.{grant_record, record_code, record_number, grant_number};
ghost use Rattle.images.specs.Images.{table_number, number_of};

use standings::Place;
use state::journal::{LAST_GRANT, WriteRecord, record_at};
use state::layout::{
    State, can_undo, file_at, found_length_at, found_offset_at, length_at, offset_at, undo_used,
    window_at,
};

// Write record k of the last grant; zeros past those that it has.
#[tactic(auto, using(crate::proofs::RecordLaws::records), unfolding(crate::specs::Images::grant_record))]
fn grant_record(state: &State, k: usize) -> WriteRecord
    requires { k < 64 }
    ensures { (result.descriptor < 65520) × (result ≡
        grant_record (store_of state.now).undo.used.records
        (journal_of state.now) k) }
{
    if k >= undo_used(state).records {
        return WriteRecord {
            descriptor: 0,
            place: Place::At(0),
            length: 0,
        };
    }
    record_at(state, LAST_GRANT, k)
}

// The descriptor's number, with 16 added where the write record has no place.
fn record_code(w: WriteRecord) -> u16
    requires { w.descriptor < 65520 }
    ensures { result ≡ record_code w }
{
    match w.place {
        Place::At(_) => w.descriptor,
        Place::After(_) => w.descriptor + 16,
    }
}

// Number i, one of a write record.
#[tactic(auto, unfolding(crate::specs::Images::record_number))]
fn record_number(state: &State, i: usize) -> u16
    requires { (84 ≤ i) × (i < 276) }
    ensures { result ≡
        record_number (store_of state.now).undo.used.records
        (journal_of state.now) i }
{
    match i {
        ..148 => record_code(grant_record(state, i - 84)),
        148..212 => grant_record(state, i - 148).place.place_number(),
        _ => grant_record(state, i - 212).length,
    }
}

// Number i, one of the last grant.
#[tactic(auto, using(crate::proofs::RecordLaws::records), unfolding(crate::specs::Images::grant_number))]
fn grant_number(state: &State, i: usize) -> u16
    requires { (57 ≤ i) × (i < 276) }
    ensures { result
        ≡ grant_number (store_of state.now).undo (journal_of state.now) i }
{
    match i {
        57 => u16::from(can_undo(state)),
        58 => undo_used(state).records as u16,
        59 => undo_used(state).bytes,
        60..76 => found_offset_at(state, i - 60),
        76..84 => found_length_at(state, i - 76),
        _ => record_number(state, i),
    }
}

// Number i, the format or one of the tables.
#[tactic(auto, unfolding(crate::specs::Images::table_number))]
fn table_number(state: &State, i: usize) -> u16
    requires { i < 57 }
    ensures { result ≡ table_number (store_of state.now) i }
{
    match i {
        0 => 1,
        1..17 => file_at(state, i - 1),
        17..33 => offset_at(state, i - 17),
        33..41 => length_at(state, i - 33),
        41..49 => window_at(state, i - 41).start,
        _ => window_at(state, i - 49).end,
    }
}

// Number i of the image.
#[tactic(auto, unfolding(crate::specs::Images::number_of))]
pub fn image_number_at(state: &State, i: usize) -> u16
    requires { i < 276 }
    ensures { result ≡ number_of (store_of state.now) (journal_of state.now) i }
{
    if i < 57 {
        return table_number(state, i);
    }
    grant_number(state, i)
}
