// The state: what a caller keeps between calls, beside the four lent buffers. It is one lent array of
// numbers: `layout` reads and writes what they mean, in the forms below, `journal` the write records among
// them, `readers` tests it, and `dirty` says which offsets a Commit sets.
#![tactic(auto)]

pub mod dirty;
pub mod journal;
pub mod layout;
pub mod outcomes;
mod positions;
pub mod readers;

ghost use Rattle.std.specs.Prelude.{◌&&◌, ◌≡◌};
ghost use Rattle.standings.specs.Table.{is_touched};

use counters::Used;
pub use limits::{DESCRIPTORS, FILES, TRANSACTIONS};
pub use positions::OFFSETS_AT;
use standings::Standing;
use windows::Window;

// Transactions, descriptors and files are named by plain numbers, here and in all crates above. A type for each
// would be no plainer: loops count eight or sixteen of them, the scope's rules and the theorems speak of numbers,
// and every clause would name a field of the type; so `requires` says the range.

// The standing of a descriptor, and whether the transaction made an accepted Seek, Read or Write on it: then
// it is dirty, and Commit sets its offset.
#[derive(Clone, Copy)]
pub struct Descriptor {
    pub standing: Standing,
    pub dirty: bool,
}

// begun and stale are flags, no enum: each is a number of the state and is set by itself. lengthmarks has bit f (worth 2 to the power f) set where the transaction has sighted the length of file f.
#[derive(Clone, Copy)]
pub struct Transaction {
    pub begun: bool,
    pub stale: bool,
    pub lengthmarks: u16,
    pub used: Used,
    pub descriptors: [Descriptor; DESCRIPTORS],
}

// What the state holds of the last grant, beside its write records: whether it can be undone, how many
// records and bytes it had, and the committed offsets and lengths that it found. `valid` is no Option around the
// rest: these are the state's numbers, and they stay when an undo sets the flag back. Only specs/ speaks of it, as
// of the store below.
#[derive(Clone, Copy)]
pub struct Undo {
    pub valid: bool,
    pub used: Used,
    pub offsets: [u16; DESCRIPTORS],
    pub lengths: [u16; FILES],
}

// What the state means, beside its journal: the file number and the committed offset of each descriptor, the
// committed length and the window of each file, what is held of the last grant, and the transactions. Only
// specs/ speaks of it; no code makes one.
#[derive(Clone, Copy)]
pub struct StoreMeaning {
    pub filenumbers: [u16; DESCRIPTORS],
    pub offsets: [u16; DESCRIPTORS],
    pub lengths: [u16; FILES],
    pub windows: [Window; FILES],
    pub undo: Undo,
    pub transactions: [Transaction; TRANSACTIONS],
}

impl Descriptor {
    // Whether Commit sets its offset: it is dirty, and not Untouched.
    pub fn sets_offset(self) -> bool
        ensures { result ≡ (self.dirty && is_touched self.standing) }
    {
        self.dirty && self.standing.is_touched()
    }
}
