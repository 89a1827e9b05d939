// A line of a log of calls, applied to a store that lies in the memory of a program in another language.
#![tactic(auto)]

ghost use Rattle.spec.specs.Promises.{lent_mut};
ghost use Rattle.c_replay.specs.ReplayLine.{AsksNothing, ReplaysLine};

use c_codes::code;
use state::layout::State;
use text_log::{ParsedEntry, parse_entry};
use text_replay::answering::{Buffer, UndoLog, perform_line};

// The version of the format.
const VERSION: usize = 1;

// The bytes of a Write or of a Read's buffer, and the numbers of a line.
const WRITTEN: usize = 4097;

const NUMBERS_READ: usize = 18;

// Whether a line asks for nothing: a comment, an answer, the version of this format.
#[tactic(auto, unfolding(crate::specs::ReplayLine::asks_nothing, text_log::specs::Reading::log_entry_of))]
fn asks_nothing(said: ParsedEntry) -> bool
    ensures { AsksNothing said result }
{
    match said {
        ParsedEntry::Comment | ParsedEntry::Expects => true,
        ParsedEntry::Version(v) => v == VERSION,
        ParsedEntry::Another
        | ParsedEntry::Fresh(_)
        | ParsedEntry::Asks(_, _, _)
        | ParsedEntry::Order(_, _, _) => false,
    }
}

// Makes the call of a line, which comes without its end.
#[unsafe(no_mangle)]
pub extern "C" fn luzhanem_parts_replay_line(
    state: &mut State,
    files: &mut Buffer,
    logs: &mut Buffer,
    marks: &mut Buffer,
    undo: &mut UndoLog,
    line: &[u8],
) -> i32
    ensures { ReplaysLine line.now (lent_mut state.old state.new) (lent_mut files.old files.new) (lent_mut logs.old logs.new) (lent_mut marks.old marks.new) (lent_mut undo.old undo.new) result }
{
    let mut numbers = [0usize; NUMBERS_READ];
    let mut bytes = [0u8; WRITTEN];
    let said = parse_entry(line, &mut numbers, &mut bytes);
    if asks_nothing(said) {
        return 0;
    }
    let mut reader = [0u8; WRITTEN];
    let a = perform_line(state, files, logs, marks, undo, said, &bytes, &mut reader);
    code(a.outcome)
}
