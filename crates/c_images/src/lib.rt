// Images for programs in other languages: saving what is committed, loading it, the check alone; and the
// number of the state's layout. Arrays cross as plain pointers, the image as three: numbers, files, old
// bytes.
#![tactic(auto)]

mod loading;
mod saving;

ghost use Rattle.std.specs.Prelude.{[], ◌≡◌};
ghost use Rattle.spec.specs.Promises.{lent_mut, lent_shared, machine_of};
ghost use Rattle.c_codes.specs.Codes.{AnswersAsCode};
ghost use Rattle.c_images.specs.ImageCalls.{check_rule, load_rule, SavedImage, layout_number};

use c_codes::code;
use images::Numbers;
use state::layout::State;
use store::{Buffer, UndoLog};

// Check 2 alone.
#[unsafe(no_mangle)]
pub extern "C" fn luzhanem_parts_check(
    state: &State,
    files: &Buffer,
    logs: &Buffer,
    marks: &Buffer,
    undo: &UndoLog,
) -> i32
    ensures { AnswersAsCode check_rule (lent_shared state.now) (lent_shared files.now) (lent_shared logs.now) (lent_shared marks.now) (lent_shared undo.now) result [] }
{
    code(saving::check_state(state, files, logs, marks, undo))
}

// Saves what is committed, whatever is open.
#[unsafe(no_mangle)]
pub extern "C" fn luzhanem_parts_save(
    state: &State,
    files: &Buffer,
    logs: &Buffer,
    marks: &Buffer,
    undo: &UndoLog,
    numbers: &mut Numbers,
    bytes: &mut Buffer,
    old: &mut UndoLog,
) -> i32
    ensures { AnswersAsCode check_rule (lent_shared state.now) (lent_shared files.now) (lent_shared logs.now) (lent_shared marks.now) (lent_shared undo.now) result []
        × SavedImage (machine_of state.now files.now logs.now marks.now undo.now) (lent_mut numbers.old numbers.new) (lent_mut bytes.old bytes.new) (lent_mut old.old old.new) }
{
    code(saving::save_image(state, files, logs, marks, undo, numbers, bytes, old))
}

// Makes the store the young one of the image.
#[unsafe(no_mangle)]
pub extern "C" fn luzhanem_parts_load(
    state: &mut State,
    files: &mut Buffer,
    logs: &Buffer,
    marks: &mut Buffer,
    undo: &mut UndoLog,
    numbers: &Numbers,
    bytes: &Buffer,
    old: &UndoLog,
) -> i32
    ensures { AnswersAsCode
        (load_rule numbers.now bytes.now old.now)
        (lent_mut state.old state.new) (lent_mut files.old files.new) (lent_shared logs.now) (lent_mut marks.old marks.new) (lent_mut undo.old undo.new) result [] }
{
    code(loading::load_image(state, files, logs, marks, undo, numbers, bytes, old))
}

// The number of the state's layout. A copy of the raw parts fits one layout only.
#[unsafe(no_mangle)]
pub extern "C" fn luzhanem_parts_layout() -> i32
    ensures { result ≡ layout_number }
{
    2
}
