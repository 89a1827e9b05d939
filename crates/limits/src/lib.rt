// The limits of the papers, each in one line (specs/Limits.antt has the same for contracts).
#![tactic(auto)]

pub const FILES: usize = 8;

pub const LAST_FILE: usize = FILES - 1;

// The bytes of a file; as an offset, the end of a file.
pub const FILE_BYTES: usize = 4096;

pub const FILE_END: u16 = 4096;

// The bytes of each store buffer: files, logs, marks.
pub const BUFFER_BYTES: usize = FILES * FILE_BYTES;

pub const DESCRIPTORS: usize = 16;

pub const LAST_DESCRIPTOR: usize = DESCRIPTORS - 1;

pub const TRANSACTIONS: usize = 8;

pub const LAST_TRANSACTION: usize = TRANSACTIONS - 1;

// The write records and the data bytes of a transaction's log.
pub const RECORDS: usize = 64;

pub const LOG_BYTES: usize = 4096;

// The octets of a transaction's marks.
pub const MARK_OCTETS: usize = 4096;

// The scripts of a dispatcher, and the calls of a script.
pub const SCRIPTS: usize = 8;

pub const SCRIPT_CALLS: usize = 16;

// The last minute of a day.
pub const LAST_MINUTE: u16 = 1439;

// The bytes of the undo log.
pub const UNDO_BYTES: usize = 4096;

// The largest budget of orders.
pub const MOST_ORDERS: usize = 40320;
