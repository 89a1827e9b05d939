// Saves a store while transactions are open, and loads it. State, files and undo log are all that is
// committed: the state has file numbers, offsets, lengths, windows and the write records of the last grant.
// Open transactions end as at Abort; after a load logs and marks are new.
ghost use Rattle.std.specs.Prelude.{◌≡◌};
ghost use Rattle.spec.specs.Recovery.{EndsAll};

use store::{BUFFER_BYTES, Buffer, FILE_BYTES, STATE_LEN, State, UndoLog, end_all};

#[derive(Drop)]
pub struct Saved {
    pub state: [u16; STATE_LEN],
    pub files: [u8; BUFFER_BYTES],
    pub undo: [u8; FILE_BYTES],
}

// What a later run needs. Every transaction is ended in the copy; in the store itself what is open stays
// open.
pub fn save_committed(state: &State, files: &Buffer, undo: &UndoLog) -> Saved
    ensures { EndsAll state.now result.state × (result.files ≡ files.now)
        × (result.undo ≡ undo.now) }
{
    let mut at_rest = *state;
    end_all(&mut at_rest);
    Saved {
        state: at_rest,
        files: *files,
        undo: *undo,
    }
}

// Puts back what was saved.
pub fn load_saved(saved: Saved, state: &mut State, files: &mut Buffer, undo: &mut UndoLog)
    ensures { (state.new ≡ saved.state) × (files.new ≡ saved.files)
        × (undo.new ≡ saved.undo) }
{
    let k = saved.state;
    *state = k;
    let f = saved.files;
    *files = f;
    let u = saved.undo;
    *undo = u;
}
