// Where each number of the state stands: the journal, eight transactions, file numbers, committed offsets,
// committed lengths, windows, and what is held of the last grant (specs/Layout.antt). This module is private:
// in this crate `layout`, `readers` and `journal` use it, and every other crate reads and writes by name. One
// place is named to the outside, for whoever tests what a call must leave alone: the committed offsets.
ghost use Rattle.std.specs.Prelude.{◌≡◌, ◌+◌, ◌<◌, get_or};
ghost use Rattle.limits.specs.Limits.{descriptor_count, transaction_count};
ghost use Rattle.state.specs.Layout.{number_at, second_slot};

use crate::layout::State;
use crate::{DESCRIPTORS, FILES, TRANSACTIONS};
use limits::RECORDS;

// How many numbers a transaction has, and where the first one of transaction 0 stands: number k of the eight
// transactions stands in a row.
pub const TRANSACTION: usize = BYTES_USED + 1;

pub const TRANSACTIONS_AT: usize = 3 * RECORDS * (TRANSACTIONS + 1);

// Where each stands among a transaction's numbers, behind the first numbers of its standings.
pub const SECOND: usize = DESCRIPTORS;

const BEGUN: usize = SECOND + DESCRIPTORS;

const BYTES_USED: usize = BEGUN + 5;

// Those of transaction 0.
pub const BEGUN_AT: usize = TRANSACTIONS_AT + TRANSACTIONS * BEGUN;

pub const STALE_AT: usize = BEGUN_AT + TRANSACTIONS;

pub const LENGTHMARKS_AT: usize = STALE_AT + TRANSACTIONS;

pub const DIRTY_AT: usize = LENGTHMARKS_AT + TRANSACTIONS;

pub const RECORDS_AT: usize = DIRTY_AT + TRANSACTIONS;

pub const BYTES_AT: usize = RECORDS_AT + TRANSACTIONS;

pub const FILE_NUMBERS_AT: usize = BYTES_AT + TRANSACTIONS;

pub const OFFSETS_AT: usize = FILE_NUMBERS_AT + DESCRIPTORS;

pub const LENGTHS_AT: usize = OFFSETS_AT + DESCRIPTORS;

// The starts of the windows, and behind them their ends.
pub const STARTS_AT: usize = LENGTHS_AT + FILES;

pub const ENDS_AT: usize = STARTS_AT + FILES;

// The offsets that the last grant found, and behind them the lengths.
pub const FOUND_AT: usize = ENDS_AT + FILES;

pub const FOUND_LENGTHS_AT: usize = FOUND_AT + DESCRIPTORS;

pub const UNDO_VALID_AT: usize = FOUND_LENGTHS_AT + FILES;

// The second number of a standing that is Known; what is added to the offset that a standing carries, and to
// its advance.
pub const KNOWN: u16 = 1;

pub const OFFSET_BIAS: u16 = 1;

pub const ADVANCE_BIAS: u16 = 2;

// The two numbers of a standing.
pub fn first_at(state: &State, t: usize, d: usize) -> u16
    requires { (t < transaction_count) × (d < descriptor_count) }
    ensures { result ≡ get_or state.now (number_at t d) 0 }
{
    state[TRANSACTIONS_AT + TRANSACTIONS * d + t]
}

pub fn second_at(state: &State, t: usize, d: usize) -> u16
    requires { (t < transaction_count) × (d < descriptor_count) }
    ensures { result ≡ get_or state.now (number_at t (second_slot + d)) 0 }
{
    state[TRANSACTIONS_AT + TRANSACTIONS * (SECOND + d) + t]
}
