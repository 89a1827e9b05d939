// Which files are closed at a minute, and whether a transaction has a byte for one of them.
#![tactic(auto)]

ghost use Rattle.std.specs.Prelude.{List, ◌≡◌, ℕ, length};
ghost use Rattle.limits.specs.Limits.{buffer_bytes};
ghost use Rattle.commit_windows.specs.WindowCheck.{OpenIn, closed_files, has_byte_for, has_byte_for_closed};

use buffers::transaction_sets::{contains, those};
use state::journal::record_at;
use state::layout::{State, file_at, used_at, window_at};
use windows::is_open;

// The files that are closed at the minute, as an octet.
fn closed_files(state: &State, minute: u16) -> u8
    ensures { result ≡ closed_files state.now minute }
{
    those(|f| !is_open(window_at(state, f), minute))
}

// A write of transaction t, with a place or without, has a byte for a file of the octet.
fn has_byte_for(state: &State, t: usize, octet: u8) -> bool
    requires { OpenIn state.now t }
    ensures { result ≡ has_byte_for state.now t octet }
{
    for k in 0..used_at(state, t).records {
        let write = record_at(state, t, k);
        let f = usize::from(file_at(state, usize::from(write.descriptor)));
        if (0 < write.length) & contains(octet, f) {
            return true;
        }
    }
    false
}

// Transaction t has a byte for a file that is closed at the minute (R-9.3). If no file is closed, no write
// record is read.
pub fn has_byte_for_closed(state: &State, t: usize, minute: u16) -> bool
    requires { OpenIn state.now t }
    ensures { (logs : List ℕ) → length logs ≡ buffer_bytes
        → result ≡ has_byte_for_closed state.now logs t minute }
{
    let closed = closed_files(state, minute);
    if closed == 0 {
        return false;
    }
    has_byte_for(state, t, closed)
}
