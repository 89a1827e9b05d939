// Images: what is committed, as numbers in the order of docs/IMAGE.md, whatever the state's layout is.
#![tactic(auto)]

mod parts;
pub mod saving;
pub mod words;
pub mod young;

pub use saving::put_numbers;
pub use words::{Numbers, word_at};
pub use young::{is_canonical, young_record};
