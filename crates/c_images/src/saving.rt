// The check, and saving.
ghost use Rattle.std.specs.Prelude.{[], ◌≡◌, length};
ghost use Rattle.state.specs.Layout.{store_of, journal_of};
ghost use Rattle.admission.specs.FirstRefusal.{unless};
ghost use Rattle.admission.specs.Admission.{store_in, gate_number};
ghost use Rattle.spec.specs.Promises.{Follows, lent_mut, lent_shared, machine_of};
ghost use Rattle.c_images.specs.ImageCalls.{check_rule, SavedImage};

use admission::{Sizes, first_tests};
use buffers::parts::copy_to;
use images::{Numbers, put_numbers};
use limits::{BUFFER_BYTES, FILE_BYTES};
use state::layout::State;
use state::outcomes::{Answer, Outcome, Refusal};
use store::{Buffer, UndoLog};

// Whether the state is in range: refusal 2 where it is not.
#[tactic(auto, unfolding(admission::specs::Admission::first_tests, admission::specs::Admission::sizes_in, admission::specs::FirstRefusal::unless, admission::specs::FirstRefusal::guarded))]
pub fn range_gate(state: &State) -> Result<(), Refusal>
    ensures { gate_number result
        ≡ unless (store_in (store_of state.now) (journal_of state.now)) 2 0 }
{
    let sizes = Sizes {
        files: BUFFER_BYTES,
        logs: BUFFER_BYTES,
        marks: BUFFER_BYTES,
        undo: FILE_BYTES,
    };
    first_tests(state, sizes)
}

// Copies all of src over all of dst.
pub fn copy(dst: &mut [u8], src: &[u8])
    requires { length dst.old ≡ length src.now }
    ensures { dst.new ≡ src.now }
{
    copy_to(dst, 0, src);
}

// Refusal 2, or nothing.
pub fn check_state(
    state: &State,
    files: &Buffer,
    logs: &Buffer,
    marks: &Buffer,
    undo: &UndoLog,
) -> Outcome
    ensures { Follows check_rule (lent_shared state.now) (lent_shared files.now) (lent_shared logs.now) (lent_shared marks.now) (lent_shared undo.now) result [] }
{
    range_gate(state)?;
    Ok(Answer::Done)
}

// Refusal 2, or the image.
pub fn save_image(
    state: &State,
    files: &Buffer,
    logs: &Buffer,
    marks: &Buffer,
    undo: &UndoLog,
    numbers: &mut Numbers,
    bytes: &mut Buffer,
    old: &mut UndoLog,
) -> Outcome
    ensures { Follows check_rule (lent_shared state.now) (lent_shared files.now) (lent_shared logs.now) (lent_shared marks.now) (lent_shared undo.now) result []
        × SavedImage (machine_of state.now files.now logs.now marks.now undo.now) (lent_mut numbers.old numbers.new) (lent_mut bytes.old bytes.new) (lent_mut old.old old.new) }
{
    range_gate(state)?;
    put_numbers(state, numbers);
    copy(bytes, files);
    copy(old, undo);
    Ok(Answer::Done)
}
