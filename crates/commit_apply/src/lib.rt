// What a commit lands: the bytes of its writes (`writes`), the committed lengths (`lengths`), the committed
// offsets (`offsets`); and what the state saves of it for an undo (`save_undo`).
#![tactic(auto)]

pub mod lengths;
pub mod offsets;
pub mod save_undo;
pub mod writes;
