// A store that a program keeps in one place: what each call is lent, and the calls as methods.
ghost use Rattle.std.specs.Prelude.{◌≡◌, [], length, replicate};
ghost use Rattle.limits.specs.Limits.{buffer_bytes, undo_bytes};
ghost use Rattle.state.specs.Layout.{state_length};
ghost use Rattle.spec.specs.Messages.{Call, Op};
ghost use Rattle.spec.specs.Calls.{call, fresh as fresh_rule};
ghost use Rattle.call_order.specs.Answer.{order_in, Padded};
ghost use Rattle.store.specs.Kept.{Runs};

use crate::{Buffer, UndoLog};
use call_commit::commit;
use call_lifecycle::{abort, begin, fresh};
use call_order::{Best, best_order};
use call_places::places;
use call_read::{get_file_pointer, read};
use call_undo::undo_commit;
use call_window::set_window;
use call_write::{seek, write};
use limits::{BUFFER_BYTES, FILE_BYTES};
use state::layout::{STATE_LEN, State};
use state::outcomes::Outcome;

// The state, the files, the logs, the marks and the undo log.
#[derive(Drop)]
pub struct Store {
    pub state: State,
    pub files: Buffer,
    pub logs: Buffer,
    pub marks: Buffer,
    pub undo: UndoLog,
}

impl Store {
    // Zeros, which `fresh` makes a store.
    pub fn new() -> Store
        ensures state { result.state ≡ replicate state_length 0 }
        ensures files { result.files ≡ replicate buffer_bytes 0 }
        ensures logs { result.logs ≡ replicate buffer_bytes 0 }
        ensures marks { result.marks ≡ replicate buffer_bytes 0 }
        ensures undo { result.undo ≡ replicate undo_bytes 0 }
    {
        Store {
            state: [0; STATE_LEN],
            files: [0; BUFFER_BYTES],
            logs: [0; BUFFER_BYTES],
            marks: [0; BUFFER_BYTES],
            undo: [0; FILE_BYTES],
        }
    }

    // Makes the store fresh: descriptor d belongs to file numbers[d].
    pub fn fresh(&mut self, numbers: &[u8]) -> Outcome
        ensures { Runs (fresh_rule numbers.now) self.old self.new result [] }
    {
        let s = self;
        fresh(
            &mut s.state,
            &mut s.files,
            &s.logs,
            &mut s.marks,
            &s.undo,
            numbers,
        )
    }

    // Opens transaction t.
    pub fn begin(&mut self, t: usize) -> Outcome
        ensures { Runs (call (Call.begin t)) self.old self.new result [] }
    {
        let s = self;
        begin(&mut s.state, &s.files, &s.logs, &mut s.marks, &s.undo, t)
    }

    // Sets the offset of descriptor d in transaction t to v.
    pub fn seek(&mut self, t: usize, d: usize, v: usize) -> Outcome
        ensures { Runs (call (Call.on t (Op.seek d v))) self.old self.new result [] }
    {
        let s = self;
        seek(&mut s.state, &s.files, &s.logs, &s.marks, &s.undo, t, d, v)
    }

    // Writes bytes through descriptor d of transaction t.
    pub fn write(&mut self, t: usize, d: usize, bytes: &[u8]) -> Outcome
        ensures { Runs (call (Call.on t (Op.write d bytes.now))) self.old self.new result [] }
    {
        let s = self;
        write(
            &mut s.state,
            &s.files,
            &mut s.logs,
            &s.marks,
            &s.undo,
            t,
            d,
            bytes,
        )
    }

    // Answers the offset of descriptor d in transaction t.
    pub fn get_file_pointer(&mut self, t: usize, d: usize) -> Outcome
        ensures { Runs (call (Call.on t (Op.get_file_pointer d))) self.old self.new result [] }
    {
        let s = self;
        get_file_pointer(&mut s.state, &s.files, &s.logs, &s.marks, &s.undo, t, d)
    }

    // Reads up to n bytes through descriptor d of transaction t to the front of the reader's buffer.
    pub fn read(&mut self, t: usize, d: usize, n: usize, reader: &mut [u8]) -> Outcome
        ensures { Runs (call (Call.on t (Op.read d n reader.old))) self.old self.new result reader.new }
    {
        let s = self;
        read(
            &mut s.state,
            &s.files,
            &s.logs,
            &mut s.marks,
            &s.undo,
            t,
            d,
            n,
            reader,
        )
    }

    // Lists the intervals of file f that the writes of transaction t cover, as pairs at the front of out.
    pub fn places(&mut self, t: usize, f: usize, out: &mut [u8]) -> Outcome
        ensures { Runs (call (Call.places t f out.old)) self.old self.new result out.new }
    {
        let s = self;
        places(&s.state, &s.files, &s.logs, &s.marks, &s.undo, t, f, out)
    }

    // Commits transaction t at a minute of the day.
    pub fn commit(&mut self, t: usize, minute: usize) -> Outcome
        ensures { Runs (call (Call.commit t minute)) self.old self.new result [] }
    {
        let s = self;
        commit(
            &mut s.state,
            &mut s.files,
            &s.logs,
            &mut s.marks,
            &mut s.undo,
            t,
            minute,
        )
    }

    // Ends transaction t without a trace.
    pub fn abort(&mut self, t: usize) -> Outcome
        ensures { Runs (call (Call.abort t)) self.old self.new result [] }
    {
        let s = self;
        abort(&mut s.state, &s.files, &s.logs, &mut s.marks, &s.undo, t)
    }

    // Sets the minutes in which file f may change: from start on, before end.
    pub fn set_window(&mut self, f: usize, start: usize, end: usize) -> Outcome
        ensures { Runs (call (Call.set_window f start end)) self.old self.new result [] }
    {
        let s = self;
        set_window(
            &mut s.state,
            &s.files,
            &s.logs,
            &s.marks,
            &s.undo,
            f,
            start,
            end,
        )
    }

    // Undoes the last commit that was granted.
    pub fn undo_commit(&mut self) -> Outcome
        ensures { Runs (call Call.undo_commit) self.old self.new result [] }
    {
        let s = self;
        undo_commit(&mut s.state, &mut s.files, &s.logs, &s.marks, &s.undo)
    }

    // Answers the best order in which to commit the listed transactions at a minute of the day, of as many orders
    // as the budget has.
    pub fn best_order(&self, list: &[u8], minute: usize, budget: usize) -> Best
        ensures { Runs (call (Call.best_order list.now minute budget)) self.now self.now
            result.outcome (order_in (length list.now) result) × Padded (length list.now) result }
    {
        let s = self;
        best_order(
            &s.state, &s.files, &s.logs, &s.marks, &s.undo, list, minute, budget,
        )
    }
}
