// Forged states, which no run from Fresh reaches.
#![tactic(auto)]

ghost use Rattle.std.specs.Prelude.{◌<◌};
ghost use Rattle.state.specs.Updates.{StandingFits};

use counters::Used;
use limits::{FILE_BYTES, FILE_END};
use standings::{Place, Standing};
use state::journal::{LAST_GRANT, WriteRecord, put_record, record_at};
use state::layout::{
    State, is_begun, put_descriptor, put_file, put_found_length, put_found_offset, put_length,
    put_lengthmarks, put_offset, put_undo_used, put_undo_valid, put_used, put_window, reset,
    undo_used, used_at, window_at,
};
use state::{Descriptor, FILES};
use test_calls::{Counter, FarStanding, Fault, Forgery, RecordFault, Waiting};

// A number above 4,096.
fn above(excess: usize) -> u16 {
    (4097 + excess % 61439) as u16
}

// A number next to n.
fn other(n: u16) -> u16 {
    if n < FILE_END {
        return n + 1;
    }
    n - 1
}

// Where a write of n bytes has to lie to end at 4,097.
fn past(n: u16) -> u16 {
    if n <= FILE_END {
        return FILE_END + 1 - n;
    }
    FILE_END + 1
}

// A window's start or end above 1,439.
fn forge_window(state: &mut State, g: Forgery) {
    let f = g.index % FILES;
    let n = (1440 + g.excess % 64096) as u16;
    let mut w = window_at(state, f);
    if matches!(g.fault, Fault::WindowStart) {
        w.start = n;
    } else {
        w.end = n;
    }
    put_window(state, f, w);
}

// A standing out of range, whose numbers have room in the state.
fn far_standing(far: FarStanding, excess: usize) -> Standing
    ensures { StandingFits result }
{
    let n = (4097 + excess % 61437) as u16;
    match far {
        FarStanding::Placed => Standing::Placed(n),
        FarStanding::Deferred => Standing::Deferred(n),
        FarStanding::MovedAdvance => Standing::Moved {
            advance: n,
            offset: 0,
        },
        FarStanding::MovedOffset => Standing::Moved {
            advance: 0,
            offset: n,
        },
        FarStanding::Known => Standing::Known(n),
    }
}

// The forgery's transaction is open: begun where it was not.
fn open(state: &mut State, g: Forgery) {
    if !is_begun(state, g.transaction) {
        reset(state, g.transaction, true);
    }
}

// The forgery's transaction is open, and has sighted any lengths, of which no range speaks.
fn sight(state: &mut State, g: Forgery) {
    open(state, g);
    put_lengthmarks(state, g.transaction, (g.excess % 65536) as u16);
}

// A standing out of range, with a descriptor that is dirty or not.
fn forge_standing(state: &mut State, g: Forgery, far: FarStanding) {
    sight(state, g);
    let q = Descriptor {
        standing: far_standing(far, g.excess),
        dirty: g.excess % 2 == 0,
    };
    put_descriptor(state, g.transaction, g.index, q);
}

// A write through descriptor 0, at place p.
fn write_at(p: u16, length: u16) -> WriteRecord
    ensures { result.descriptor < 16 }
{
    WriteRecord {
        descriptor: 0,
        place: Place::At(p),
        length,
    }
}

// A part of the journal: a transaction's, or the last grant's.
#[derive(Clone, Copy)]
struct Part {
    number: usize,
    ghost in_journal: { number < 9 },
}

impl Part {
    fn of_transaction(g: Forgery) -> Part {
        Part {
            number: g.transaction,
        }
    }

    fn of_last_grant() -> Part {
        Part { number: LAST_GRANT }
    }

    // What it has in use.
    fn used(self, state: &State) -> Used {
        if self.number == LAST_GRANT {
            return undo_used(state);
        }
        used_at(state, self.number)
    }

    // Other counters. A number of the state has sixteen bits.
    fn forge_used(self, state: &mut State, records: usize, bytes: u16) {
        let records = records.min(65535);
        if self.number == LAST_GRANT {
            put_undo_used(state, Used { records, bytes });
        } else {
            put_used(state, self.number, Used { records, bytes });
        }
    }

    // It has too many records, or another sum of their lengths.
    fn forge_counter(self, state: &mut State, counter: Counter, excess: usize) {
        let used = self.used(state);
        match counter {
            Counter::Records => self.forge_used(state, 65 + excess % 65471, used.bytes),
            Counter::Bytes => self.forge_used(state, used.records, other(used.bytes)),
        }
    }

    // It has a write record: where it had none it gets an empty one, at place 0.
    fn write_one(self, state: &mut State) {
        let used = self.used(state);
        if used.records == 0 {
            put_record(state, self.number, 0, write_at(0, 0));
            self.forge_used(state, 1, used.bytes);
        }
    }

    // It gets two records, each in range, whose data together is above 4,096 bytes.
    fn forge_two(self, state: &mut State, excess: usize) {
        let n = 1 + excess % FILE_BYTES;
        put_record(state, self.number, 0, write_at(0, FILE_END));
        put_record(state, self.number, 1, write_at(0, n as u16));
        self.forge_used(state, 2, (FILE_BYTES + n) as u16);
    }

    // Its first record's descriptor, its end, the sum of the lengths, or two records. It gets a record where
    // it has none.
    fn forge_record(self, state: &mut State, fault: RecordFault, excess: usize) {
        self.write_one(state);
        let t = self.number;
        let w = record_at(state, t, 0);
        match fault {
            RecordFault::Descriptor => {
                let far = WriteRecord {
                    descriptor: (16 + excess % 65504) as u16,
                    place: Place::After(0),
                    length: w.length,
                };
                put_record(state, t, 0, far);
            }
            RecordFault::End => put_record(state, t, 0, write_at(past(w.length), w.length)),
            RecordFault::Length => put_record(state, t, 0, write_at(0, other(w.length))),
            RecordFault::TooManyBytes => self.forge_two(state, excess),
        }
    }
}

// The standing under which a record without a place is put.
fn standing_under(waiting: Waiting) -> Standing
    ensures { StandingFits result }
{
    match waiting {
        Waiting::Placed => Standing::Placed(0),
        Waiting::Deferred => Standing::Deferred(0),
    }
}

// A record without a place under Placed, or one that ends past the advance.
fn forge_place(state: &mut State, g: Forgery, under: Waiting) {
    let t = g.transaction;
    let i = g.index;
    open(state, g);
    Part::of_transaction(g).write_one(state);
    let w = record_at(state, t, 0);
    let after = WriteRecord {
        descriptor: i as u16,
        place: Place::After(1),
        length: w.length,
    };
    put_record(state, t, 0, after);
    let q = Descriptor {
        standing: standing_under(under),
        dirty: false,
    };
    put_descriptor(state, t, i, q);
}

// The last grant's first record has no place.
fn forge_landing(state: &mut State) {
    Part::of_last_grant().write_one(state);
    let w = record_at(state, LAST_GRANT, 0);
    let after = WriteRecord {
        descriptor: 0,
        place: Place::After(0),
        length: w.length,
    };
    put_record(state, LAST_GRANT, 0, after);
}

// Puts a number out of range into the state. Of the last grant something is held then.
pub fn forge(state: &mut State, g: Forgery) {
    let i = g.index;
    let n = g.excess;
    match g.fault {
        Fault::FileNumber => put_file(state, i, (8 + n % 65528) as u16),
        Fault::Offset => put_offset(state, i, above(n)),
        Fault::Length => put_length(state, i % FILES, above(n)),
        Fault::WindowStart | Fault::WindowEnd => forge_window(state, g),
        Fault::Standing(far) => forge_standing(state, g, far),
        Fault::Counter(counter) => {
            sight(state, g);
            Part::of_transaction(g).forge_counter(state, counter, n);
        }
        Fault::Record(fault) => {
            open(state, g);
            Part::of_transaction(g).forge_record(state, fault, n);
        }
        Fault::Unplaced(under) => forge_place(state, g, under),
        Fault::FoundOffset => {
            put_undo_valid(state, true);
            put_found_offset(state, i, above(n));
        }
        Fault::FoundLength => {
            put_undo_valid(state, true);
            put_found_length(state, i % FILES, above(n));
        }
        Fault::GrantCounter(counter) => {
            put_undo_valid(state, true);
            Part::of_last_grant().forge_counter(state, counter, n);
        }
        Fault::GrantRecord(fault) => {
            put_undo_valid(state, true);
            Part::of_last_grant().forge_record(state, fault, n);
        }
        Fault::GrantUnplaced => {
            put_undo_valid(state, true);
            forge_landing(state);
        }
    }
}
