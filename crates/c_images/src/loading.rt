// Loading.
ghost use Rattle.std.specs.Prelude.{[]};
ghost use Rattle.spec.specs.Promises.{Follows, lent_mut, lent_shared};
ghost use Rattle.c_images.specs.ImageCalls.{load_rule};

use crate::saving::{copy, range_gate};
use images::{Numbers, is_canonical, word_at, young_record};
use state::layout::State;
use state::outcomes::{Answer, Outcome, Refusal};
use store::{Buffer, UndoLog};

// The number of the format.
const FORMAT: u16 = 1;

// Refusals 1 (another format) and 2 (out of range), which leave the store; or the image's young store, with
// the logs that lie there. The image's state is made apart before it replaces the store's.
pub fn load_image(
    state: &mut State,
    files: &mut Buffer,
    logs: &Buffer,
    marks: &mut Buffer,
    undo: &mut UndoLog,
    numbers: &Numbers,
    bytes: &Buffer,
    old: &UndoLog,
) -> Outcome
    ensures { Follows
        (load_rule numbers.now bytes.now old.now)
        (lent_mut state.old state.new) (lent_mut files.old files.new) (lent_shared logs.now) (lent_mut marks.old marks.new) (lent_mut undo.old undo.new) result [] }
{
    if word_at(numbers, 0) != FORMAT {
        return Err(Refusal::BufferLength);
    }
    if !is_canonical(numbers) {
        return Err(Refusal::RecordRange);
    }
    let young = young_record(numbers);
    range_gate(&young)?;
    *state = young;
    copy(files, bytes);
    marks.fill(0);
    copy(undo, old);
    Ok(Answer::Done)
}
