// Which descriptors a call settles; these take their committed offsets, all of them or none.
ghost use Rattle.std.specs.Prelude.{◌≡◌, ℕ, ◌≤◌, ◌<◌, length, get_or};
ghost use Rattle.limits.specs.Limits.{file_bytes, descriptor_count, transaction_count};
ghost use Rattle.state.specs.Layout.{transaction_of, store_of};
ghost use Rattle.read_settle.specs.Choices.{chosen_by_read, chosen_by_pointer, settling_of};

use limits::FILE_END;
use state::layout::{State, file_at, offset_at, standing_at};
use state::outcomes::Refusal;
use state::readers::read_settles_at;
use state::{DESCRIPTORS, Descriptor, Transaction};

// The descriptors that a Read through d settles in transaction t: those of its file that wait, and d where it
// is Untouched.
pub fn chosen_by_read(state: &State, t: usize, d: usize) -> [bool; DESCRIPTORS]
    requires { (t < transaction_count) × (d < descriptor_count) }
    ensures { result
        ≡ chosen_by_read (store_of state.now).filenumbers
        (transaction_of state.now t) d }
{
    let mut chosen = [false; DESCRIPTORS];
    let f = file_at(state, d);
    for e in 0..DESCRIPTORS {
        chosen[e] = read_settles_at(state, t, e, file_at(state, e) == f, false);
    }
    if read_settles_at(state, t, d, false, true) {
        chosen[d] = true;
    }
    chosen
}

// The one descriptor that a GetFilePointer on d settles in transaction t, if it does.
pub fn chosen_by_pointer(state: &State, t: usize, d: usize) -> [bool; DESCRIPTORS]
    requires { (t < transaction_count) × (d < descriptor_count) }
    ensures { result ≡ chosen_by_pointer (transaction_of state.now t) d }
{
    let mut chosen = [false; DESCRIPTORS];
    let standing = standing_at(state, t, d);
    chosen[d] = standing.pointer_settles();
    chosen
}

// The transaction with every chosen descriptor settled at its committed offset, if all of them can be.
// The descriptors alone are copied: a copy of the whole is a call of memcpy, which an archive would then need from
// outside.
pub fn settle(
    state: &State,
    x: Transaction,
    chosen: [bool; DESCRIPTORS],
) -> Result<Transaction, Refusal>
    requires sixteen { length x.descriptors ≡ descriptor_count }
    requires committed { (e : ℕ) → e < descriptor_count
        → get_or (store_of state.now).offsets e 0 ≤ file_bytes }
    ensures { result ≡ settling_of chosen (store_of state.now).offsets x }
{
    let mut descriptors = x.descriptors;
    for e in 0..DESCRIPTORS {
        if chosen[e] {
            let descriptor = x.descriptors[e];
            let standing = descriptor.standing;
            let c = offset_at(state, e);
            if FILE_END - c < standing.advance() {
                return Err(Refusal::AppendPastEnd);
            }
            descriptors[e] = Descriptor {
                standing: standing.settled(c),
                dirty: descriptor.dirty,
            };
        }
    }
    Ok(Transaction { descriptors, ..x })
}
