// A young state with what an image says, and the image's own ranges.
ghost use Rattle.std.specs.Prelude.{◌≡◌, ◌+◌, ◌<◌, min};
ghost use Rattle.windows.specs.Windows.{window};
ghost use Rattle.state.specs.Journal.{last_grant, with_records};
ghost use Rattle.images.specs.Words.{word_at};
ghost use Rattle.images.specs.Images.{record_from, canonical, blank_record};
ghost use Rattle.images.specs.Young.{with_each, put_descriptor, put_file, with_last_grant, Young};

use crate::words::{Numbers, word_at};
use counters::Used;
use standings::Place;
use state::journal::{LAST_GRANT, RECORDS, WriteRecord, put_record};
use state::layout::{
    STATE_LEN, State, put_file, put_found_length, put_found_offset, put_length, put_offset,
    put_undo_used, put_undo_valid, put_window,
};
use state::{DESCRIPTORS, FILES};
use windows::Window;

// The numbers of descriptors: files, offsets, and the offsets that the last grant found.
#[tactic(auto, unfolding(crate::specs::Young::with_each, crate::specs::Young::put_descriptor))]
fn put_descriptors(state: &mut State, image: &Numbers)
    ensures { state.new
        ≡ with_each (put_descriptor (word_at image.now)) 16 state.old }
{
    for d in 0..DESCRIPTORS {
        put_file(state, d, word_at(image, 1 + d));
        put_offset(state, d, word_at(image, 17 + d));
        put_found_offset(state, d, word_at(image, 60 + d));
    }
}

// The window of file f.
fn window_from(image: &Numbers, f: usize) -> Window
    requires { f < 8 }
    ensures { result
        ≡ window (word_at image.now (41 + f)) (word_at image.now (49 + f)) }
{
    Window {
        start: word_at(image, 41 + f),
        end: word_at(image, 49 + f),
    }
}

// The numbers of files: lengths, windows, and the lengths that the last grant found.
#[tactic(auto, unfolding(crate::specs::Young::with_each, crate::specs::Young::put_file))]
fn put_files(state: &mut State, image: &Numbers)
    ensures { state.new
        ≡ with_each (put_file (word_at image.now)) 8 state.old }
{
    for f in 0..FILES {
        put_length(state, f, word_at(image, 33 + f));
        put_window(state, f, window_from(image, f));
        put_found_length(state, f, word_at(image, 76 + f));
    }
}

// Whether the last grant can be undone, and its counters.
#[tactic(auto, unfolding(crate::specs::Young::with_last_grant))]
fn put_grant(state: &mut State, image: &Numbers)
    ensures { state.new ≡ with_last_grant (word_at image.now) state.old }
{
    put_undo_valid(state, word_at(image, 57) == 1);
    let used = Used {
        records: usize::from(word_at(image, 58)),
        bytes: word_at(image, 59),
    };
    put_undo_used(state, used);
}

// Write record k of the last grant.
#[tactic(auto, unfolding(crate::specs::Loaded::record_from, state::specs::Journal::decoded, state::specs::Journal::decoded_as))]
fn record_from(image: &Numbers, k: usize) -> WriteRecord
    requires { k < 64 }
    ensures { (result.descriptor < 65520) × (result ≡ record_from (word_at image.now) k) }
{
    let code = word_at(image, 84 + k);
    let place = word_at(image, 148 + k);
    let length = word_at(image, 212 + k);
    if code < 16 {
        return WriteRecord {
            descriptor: code,
            place: Place::At(place),
            length,
        };
    }
    WriteRecord {
        descriptor: code - 16,
        place: Place::After(place),
        length,
    }
}

// The write records of the last grant.
#[tactic(auto, unfolding(state::specs::Journal::with_records))]
fn put_records(state: &mut State, image: &Numbers)
    ensures { state.new ≡ with_records state.old last_grant
        (record_from (word_at image.now)) (min (word_at image.now 58) 64) }
{
    let records = usize::from(word_at(image, 58)).min(RECORDS);
    for k in 0..records {
        put_record(state, LAST_GRANT, k, record_from(image, k));
    }
}

// The state of a young store with what the image says.
pub fn young_record(image: &Numbers) -> State
    ensures { Young (word_at image.now) result }
{
    let mut young = [0u16; STATE_LEN];
    put_descriptors(&mut young, image);
    put_files(&mut young, image);
    put_grant(&mut young, image);
    put_records(&mut young, image);
    young
}

// No number of write record k says anything.
#[tactic(auto, unfolding(crate::specs::Loaded::blank_record))]
fn is_blank(image: &Numbers, k: usize) -> bool
    requires { k < 64 }
    ensures { result ≡ blank_record (word_at image.now) k }
{
    word_at(image, 84 + k) == 0 && word_at(image, 148 + k) == 0 && word_at(image, 212 + k) == 0
}

// The flag is 0 or 1, and nothing is said past the write records.
#[tactic(auto, unfolding(crate::specs::Loaded::canonical))]
pub fn is_canonical(image: &Numbers) -> bool
    ensures { result ≡ canonical (word_at image.now) }
{
    let records = usize::from(word_at(image, 58));
    for k in 0..RECORDS {
        if k >= records && !is_blank(image, k) {
            return false;
        }
    }
    word_at(image, 57) <= 1
}
