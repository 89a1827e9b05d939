// The dispatcher for programs in other languages, as `c_calls` has the calls. It stands in an archive of its
// own: a function that two callers share is not inlined, and the calls would be slower beside it.
#![tactic(auto)]

mod flat_scripts;

ghost use Rattle.spec_dispatch.specs.Dispatch.{dispatch as dispatch_rule};
ghost use Rattle.spec.specs.Promises.{machine_of};
ghost use Rattle.dispatcher.specs.Types.{scripts_of};
ghost use Rattle.c_scripts.specs.FlatScripts.{scripts_from, Runs};

use c_codes::code;
use dispatcher::dispatch;
use flat_scripts::{FlatScripts, ends_of, scripts_of};
use state::layout::State;
use store::{Buffer, UndoLog};

// The dispatcher. How each script ended goes to `ended`: 0 granted, 255 not run, else the refusal's number.
// The number of Commits made goes to `commits`.
#[unsafe(no_mangle)]
pub extern "C" fn luzhanem_parts_dispatch(
    state: &mut State,
    files: &mut Buffer,
    logs: &mut Buffer,
    marks: &mut Buffer,
    undo: &mut UndoLog,
    scripts: &FlatScripts,
    bytes: &[u8],
    reader: &mut [u8],
    minute: usize,
    ended: &mut [u8; 8],
    commits: &mut usize,
) -> i32
    ensures { Runs
        (dispatch_rule bytes.now minute (scripts_of (scripts_from scripts.now))
        (machine_of state.old files.old logs.old marks.old undo.old) reader.old)
        result ended.new commits.new
        (machine_of state.new files.new logs.new marks.new undo.new) reader.new
        state.old state.new }
{
    let s = scripts_of(scripts);
    let d = dispatch(state, files, logs, marks, undo, s, bytes, reader, minute);
    let o = d.outcome;
    let ends = d.ends;
    let told = ends_of(ends);
    *ended = told;
    *commits = d.commits;
    code(o)
}
