// Digests of the state and of the answers: from 0, h' = (65521 h + n + 1) mod 281474976710597 for each number
// n.
ghost use Rattle.std.specs.Prelude.{ℕ, ◌<◌};

use crate::outcomes;
use dispatcher::ends::{End, Ended};
use dispatcher::scripts::SCRIPTS;
use standings::{Place, Standing};
use state::journal::{LAST_GRANT, RECORDS, WriteRecord, record_at};
use state::layout::{
    State, can_undo, file_at, found_length_at, found_offset_at, length_at, offset_at,
    transaction_at, undo_used, window_at,
};
use state::outcomes::{Answer, Outcome};
use state::{DESCRIPTORS, FILES, TRANSACTIONS, Transaction};

// A digest is a remainder by 2^48 - 59, so that its next step stays within 64 bits.
#[derive(Clone, Copy)]
pub struct Digest {
    pub value: usize,
    ghost in_range: { value < 281474976710597 },
}

impl Digest {
    // The digest of nothing.
    pub fn new() -> Digest {
        Digest { value: 0 }
    }

    // The digest of a state: what it says, however it is arranged, then the store buffers.
    pub fn of_state(state: &State, files: &[u8], logs: &[u8], marks: &[u8], undo: &[u8]) -> Digest {
        Digest::new()
            .committed_taken(state)
            .transactions_taken(state)
            .undo_taken(state)
            .octets_taken(files)
            .octets_taken(logs)
            .octets_taken(marks)
            .octets_taken(undo)
    }

    // Takes in that a dispatcher ran: its Commits, the ends of its scripts, and the reader's buffer after it.
    pub fn ran_taken(
        self,
        commits: usize,
        ends: [Ended; SCRIPTS],
        scripts: usize,
        buffer: &[u8],
    ) -> Digest {
        self.taken(5)
            .taken(commits.min(65535) as u16)
            .ends_taken(ends, scripts)
            .octets_taken(buffer)
    }

    // Takes in a best order's answer: its grants, the gap, how many orders were tried, and the order of n
    // transactions, at most eight.
    pub fn ordered_taken(self, outcome: Outcome, order: [u8; 8], n: usize) -> Digest {
        let Ok(Answer::Ordered(grants, gap, tried)) = outcome else {
            return self.reply_taken(outcome, &[]);
        };
        self.taken(6)
            .octet_taken(grants)
            .octet_taken(gap)
            .taken(tried)
            .octets_taken(&order[..n.min(8)])
    }

    // Takes in an outcome, and the buffer lent for the answer, after the call.
    pub fn reply_taken(self, outcome: Outcome, buffer: &[u8]) -> Digest {
        self.taken(outcomes::outcome_code(outcome))
            .taken(outcomes::outcome_number(outcome))
            .octets_taken(buffer)
    }

    fn taken(self, n: u16) -> Digest {
        Digest {
            value: (65521 * self.value + usize::from(n) + 1) % 281474976710597,
        }
    }

    fn octet_taken(self, n: u8) -> Digest {
        self.taken(u16::from(n))
    }

    fn flag_taken(self, flag: bool) -> Digest {
        self.taken(u16::from(flag))
    }

    fn octets_taken(self, octets: &[u8]) -> Digest {
        let mut out = self;
        for octet in octets {
            out = out.octet_taken(*octet);
        }
        out
    }

    // Takes in f(0) and so on, n numbers.
    fn numbers_taken<F: Fn(usize) -> u16>(self, n: usize, f: F) -> Digest
        requires { (i : ℕ) → i < n → F.pre f i }
    {
        let mut out = self;
        for i in 0..n {
            out = out.taken(f(i));
        }
        out
    }

    fn three_taken(self, which: u16, advance: u16, offset: u16) -> Digest {
        self.taken(which).taken(advance).taken(offset)
    }

    fn standing_taken(self, standing: Standing) -> Digest {
        match standing {
            Standing::Untouched => self.three_taken(0, 0, 0),
            Standing::Placed(offset) => self.three_taken(1, 0, offset),
            Standing::Deferred(advance) => self.three_taken(2, advance, 0),
            Standing::Moved { advance, offset } => self.three_taken(3, advance, offset),
            Standing::Known(offset) => self.three_taken(4, 0, offset),
        }
    }

    fn descriptors_taken(self, x: Transaction) -> Digest {
        let mut out = self;
        for descriptor in &x.descriptors {
            out = out
                .standing_taken(descriptor.standing)
                .flag_taken(descriptor.dirty);
        }
        out
    }

    fn write_taken(self, w: WriteRecord) -> Digest {
        let place = w.place;
        let out = self.taken(w.descriptor);
        match place {
            Place::At(p) => out.three_taken(1, p, w.length),
            Place::After(a) => out.three_taken(0, a, w.length),
        }
    }

    // The first n write records of transaction t, at most 64.
    fn writes_taken(self, state: &State, t: usize, n: usize) -> Digest
        requires { t < 8 }
    {
        let records = n.min(RECORDS);
        let mut out = self;
        for k in 0..records {
            out = out.write_taken(record_at(state, t, k));
        }
        out
    }

    // A number of the record has sixteen bits; so has that of the records used.
    fn transaction_taken(self, state: &State, t: usize) -> Digest
        requires { t < 8 }
    {
        let x = transaction_at(state, t);
        let used = x.used;
        let records = used.records.min(65535);
        self.flag_taken(x.begun)
            .flag_taken(x.stale)
            .taken(records as u16)
            .taken(used.bytes)
            .taken(x.lengthmarks)
            .descriptors_taken(x)
            .writes_taken(state, t, records)
    }

    fn transactions_taken(self, state: &State) -> Digest {
        let mut out = self;
        for t in 0..TRANSACTIONS {
            out = out.transaction_taken(state, t);
        }
        out
    }

    // Takes in start and end of each window.
    fn windows_taken(self, state: &State) -> Digest {
        let mut out = self;
        for f in 0..FILES {
            let window = window_at(state, f);
            out = out.taken(window.start).taken(window.end);
        }
        out
    }

    // Takes in what is committed: the files of the descriptors, their offsets, the lengths of the files, and
    // the windows of the files.
    fn committed_taken(self, state: &State) -> Digest {
        self.numbers_taken(DESCRIPTORS, |d| file_at(state, d))
            .numbers_taken(DESCRIPTORS, |d| offset_at(state, d))
            .numbers_taken(FILES, |f| length_at(state, f))
            .windows_taken(state)
    }

    // The write records of the last grant, at most 64: descriptor, place and length of each.
    fn landed_taken(self, state: &State, n: usize) -> Digest {
        let records = n.min(RECORDS);
        let mut out = self;
        for k in 0..records {
            let w = record_at(state, LAST_GRANT, k);
            out = out.three_taken(w.descriptor, w.place.place_number(), w.length);
        }
        out
    }

    // Takes in what the last grant found: the offsets of the descriptors, and the lengths of the files.
    fn found_taken(self, state: &State) -> Digest {
        self.numbers_taken(DESCRIPTORS, |d| found_offset_at(state, d))
            .numbers_taken(FILES, |f| found_length_at(state, f))
    }

    // What is held of the last grant: whether anything is and, where it is, its counters, its records and
    // what it found.
    fn undo_taken(self, state: &State) -> Digest {
        if !can_undo(state) {
            return self.taken(0);
        }
        let used = undo_used(state);
        let records = used.records.min(65535);
        self.taken(1)
            .taken(records as u16)
            .taken(used.bytes)
            .landed_taken(state, records)
            .found_taken(state)
    }

    // The ends of the first n scripts, at most eight.
    fn ends_taken(self, ends: [Ended; SCRIPTS], n: usize) -> Digest {
        let mut out = self;
        for end in ends.iter().take(n) {
            out = out.taken(end_number(*end));
        }
        out
    }
}

// How a script ended: 0 where it was granted, otherwise the refusal's number.
fn end_number(e: Ended) -> u16 {
    match e.end {
        End::Unfinished | End::Granted => 0,
        End::Failed(r) => u16::from(r.number()),
    }
}
