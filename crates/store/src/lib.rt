// The store, as a program sees it: a program names this crate alone, and `dispatcher` for scripts.
//
// The twelve calls. Each is lent the state and the four buffers, has no precondition, and answers its
// outcome; its promise stands at the function. A program that keeps them together has a `Store` (`kept`),
// whose methods are the calls. `made_stale` counts the transactions that a commit's octet names, `end_all`
// ends every transaction in a copy of the state that is to be saved.
#![tactic(auto)]

mod kept;

pub use call_commit::{commit, made_stale};
pub use call_lifecycle::{abort, begin, end_all, fresh};
pub use call_order::{Best, best_order};
pub use call_places::places;
pub use call_read::{get_file_pointer, read};
pub use call_undo::undo_commit;
pub use call_window::set_window;
pub use call_write::{seek, write};
pub use kept::Store;
pub use limits::{BUFFER_BYTES, FILE_BYTES, LAST_MINUTE};
pub use state::layout::{
    STATE_LEN, State, can_undo, is_begun, is_stale, length_at, offset_at, window_at,
};
pub use state::outcomes::{Answer, Outcome, Refusal};
pub use state::{DESCRIPTORS, FILES, TRANSACTIONS};
pub use windows::Window;

// Files, logs or marks: 4,096 bytes for each file or transaction.
pub type Buffer = [u8; BUFFER_BYTES];

// The undo log: the bytes that the last grant overwrote.
pub type UndoLog = [u8; FILE_BYTES];
