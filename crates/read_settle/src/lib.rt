// Settling: the descriptors that a call settles take their committed offsets, and the writes that waited for
// them get their places.
#![tactic(auto)]

mod records;
pub mod settle_call;

ghost use Rattle.std.specs.Prelude.{true, false, ◌≡◌, ℕ, ◌<◌, get_or};
ghost use Rattle.limits.specs.Limits.{descriptor_count, transaction_count};
ghost use Rattle.standings.specs.Table.{read_settles};
ghost use Rattle.state.specs.StoreMeaning.{standing_at};
ghost use Rattle.state.specs.Layout.{transaction_of, store_of};
ghost use Rattle.read_settle.specs.Choices.{chosen_by_read, chosen_by_pointer, only_one};
ghost use Rattle.read_settle.specs.Records.{Placeable};
ghost use Rattle.read_settle.specs.Outcome.{SettledIn};

use crate::records::place_records;
use crate::settle_call::{chosen_by_pointer, chosen_by_read, settle};
use limits::FILE_END;
use state::layout::{
    State, descriptor_at, offset_at, put_chosen, put_descriptor, standing_at, transaction_at,
    used_at,
};
use state::outcomes::Refusal;
use state::readers::read_settles_at;
use state::{DESCRIPTORS, Descriptor};

// Whether any of the sixteen is chosen.
fn any(chosen: [bool; DESCRIPTORS]) -> bool
    ensures { result ≡ false → (e : ℕ) → e < descriptor_count → get_or chosen e false ≡ false }
{
    chosen.iter().any(|c| *c)
}

// Settles every chosen descriptor of transaction t in the state, or none. The transaction is read whole only
// where one is chosen.
fn settle_chosen(state: &mut State, t: usize, chosen: [bool; DESCRIPTORS]) -> Result<(), Refusal>
    requires { Placeable state.old t (transaction_of state.old t).used.records }
    ensures { SettledIn chosen t (transaction_of state.old t)
        state.old state.new result }
{
    if !any(chosen) {
        return Ok(());
    }
    let x = transaction_at(state, t);
    let y = settle(state, x, chosen)?;
    place_records(state, t, x.used.records, chosen);
    put_chosen(state, t, chosen, y.descriptors);
    Ok(())
}

// Settles descriptor d of transaction t alone, if it can be.
fn settle_one(state: &mut State, t: usize, d: usize) -> Result<(), Refusal>
    requires ready { Placeable state.old t (transaction_of state.old t).used.records }
    requires few { d < descriptor_count }
    ensures { SettledIn (only_one d)
        t (transaction_of state.old t) state.old state.new result }
{
    let q = descriptor_at(state, t, d);
    let c = offset_at(state, d);
    if FILE_END - c < q.standing.advance() {
        return Err(Refusal::AppendPastEnd);
    }
    let used = used_at(state, t);
    let mut chosen = [false; DESCRIPTORS];
    chosen[d] = true;
    place_records(state, t, used.records, chosen);
    put_descriptor(
        state,
        t,
        d,
        Descriptor {
            standing: q.standing.settled(c),
            dirty: q.dirty,
        },
    );
    Ok(())
}

// Whether a descriptor of transaction t may wait for its place, of whatever file: where this says no, none
// does. It goes over all, with no branch.
fn any_waits(state: &State, t: usize) -> bool
    requires { t < transaction_count }
    ensures { result ≡ false → (e : ℕ) → e < descriptor_count
        → read_settles true false (standing_at (transaction_of state.now t) e) ≡ false }
{
    let mut found = false;
    for e in 0..DESCRIPTORS {
        found |= read_settles_at(state, t, e, true, false);
    }
    found
}

// Settles what a Read through d settles in transaction t. The choice is made only where a descriptor waits.
pub fn settle_for_read(state: &mut State, t: usize, d: usize) -> Result<(), Refusal>
    requires ready { Placeable state.old t (transaction_of state.old t).used.records }
    requires few { d < descriptor_count }
    ensures { SettledIn
        (chosen_by_read (store_of state.old).filenumbers (transaction_of state.old t) d)
        t (transaction_of state.old t) state.old state.new result }
{
    if any_waits(state, t) {
        let chosen = chosen_by_read(state, t, d);
        return settle_chosen(state, t, chosen);
    }
    if !read_settles_at(state, t, d, false, true) {
        return Ok(());
    }
    settle_one(state, t, d)
}

// Settles what a GetFilePointer on d settles in transaction t: d, where its place is unknown.
pub fn settle_for_pointer(state: &mut State, t: usize, d: usize) -> Result<(), Refusal>
    requires ready { Placeable state.old t (transaction_of state.old t).used.records }
    requires few { d < descriptor_count }
    ensures { SettledIn (chosen_by_pointer (transaction_of state.old t) d)
        t (transaction_of state.old t) state.old state.new result }
{
    let standing = standing_at(state, t, d);
    if !standing.pointer_settles() {
        return Ok(());
    }
    if standing.is_touched() {
        let chosen = chosen_by_pointer(state, t, d);
        return settle_chosen(state, t, chosen);
    }
    settle_one(state, t, d)
}
