// What is committed, looked at from outside every transaction: it makes no sighting.
ghost use Rattle.std.specs.Prelude.{◌≡◌, ◌<◌, get_or};
ghost use Rattle.limits.specs.Limits.{file_count, descriptor_count, transaction_count};
ghost use Rattle.state.specs.Layout.{store_of, transaction_of};
ghost use Rattle.c_codes.specs.Codes.{code_of, looked, state_of};

use c_codes::code;
use state::layout::{State, file_at, is_begun, is_stale, length_at, offset_at};
use state::outcomes::{Answer, Refusal};
use state::{DESCRIPTORS, FILES, TRANSACTIONS};

// The committed offset of descriptor d; refusal 6.
#[tactic(auto, unfolding(c_codes::specs::Codes::looked, state::specs::Outcomes::said))]
#[unsafe(no_mangle)]
pub extern "C" fn luzhanem_parts_offset(state: &State, d: usize) -> i32
    ensures { result
        ≡ code_of (looked descriptor_count d 6 (get_or (store_of state.now).offsets d 0)) }
{
    if d >= DESCRIPTORS {
        return code(Err(Refusal::NoSuchTarget));
    }
    code(Ok(Answer::Offset(offset_at(state, d))))
}

// The committed length of file f; refusal 6.
#[tactic(auto, unfolding(c_codes::specs::Codes::looked, state::specs::Outcomes::said))]
#[unsafe(no_mangle)]
pub extern "C" fn luzhanem_parts_length(state: &State, f: usize) -> i32
    ensures { result ≡ code_of (looked file_count f 6 (get_or (store_of state.now).lengths f 0)) }
{
    if f >= FILES {
        return code(Err(Refusal::NoSuchTarget));
    }
    code(Ok(Answer::Offset(length_at(state, f))))
}

// The file of descriptor d; refusal 6.
#[tactic(auto, unfolding(c_codes::specs::Codes::looked, state::specs::Outcomes::said))]
#[unsafe(no_mangle)]
pub extern "C" fn luzhanem_parts_file_of(state: &State, d: usize) -> i32
    ensures { result
        ≡ code_of (looked descriptor_count d 6 (get_or (store_of state.now).filenumbers d 0)) }
{
    if d >= DESCRIPTORS {
        return code(Err(Refusal::NoSuchTarget));
    }
    code(Ok(Answer::Offset(file_at(state, d))))
}

#[tactic(auto, unfolding(c_codes::specs::Codes::state_of))]
fn state_of(state: &State, t: usize) -> u16
    requires { t < transaction_count }
    ensures { result ≡ state_of (transaction_of state.now t) }
{
    if !is_begun(state, t) {
        0
    } else if is_stale(state, t) {
        2
    } else {
        1
    }
}

// Transaction t: 0 closed, 1 open, 2 open and stale; refusal 3.
#[tactic(auto, unfolding(c_codes::specs::Codes::looked, state::specs::Outcomes::said))]
#[unsafe(no_mangle)]
pub extern "C" fn luzhanem_parts_state(state: &State, t: usize) -> i32
    ensures { result
        ≡ code_of (looked transaction_count t 3 (state_of (transaction_of state.now t))) }
{
    if t >= TRANSACTIONS {
        return code(Err(Refusal::NoSuchTransaction));
    }
    code(Ok(Answer::Offset(state_of(state, t))))
}
