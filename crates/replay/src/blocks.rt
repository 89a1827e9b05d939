// A saved block: the state as little-endian numbers of 16 bits, then the files, the logs, the marks and a
// grant's old bytes, as a caller holds them.
ghost use Rattle.std.specs.Prelude.{◌≡◌, ◌+◌, ◌*◌, length};
ghost use Rattle.state.specs.Layout.{state_length};
ghost use Rattle.replay.specs.Blocks.{state_of_block};

use limits::{BUFFER_BYTES, FILE_BYTES};
use state::layout::{STATE_LEN, State};
use std::fs::File;
use std::io::Read;
use std::rt::Files;
use std::str;
use store::Store;
use text_stdio::Streams;

// The bytes of the state in a block, and those of a whole block.
const RECORD_BYTES: usize = 2 * STATE_LEN;

pub const BLOCK_BYTES: usize = RECORD_BYTES + 3 * BUFFER_BYTES + FILE_BYTES;

// A number of 16 bits, its low byte first.
fn word(low: u8, high: u8) -> u16
    ensures { result ≡ low + high * 256 }
{
    u16::from_le_bytes([low, high])
}

// Puts the numbers of a block into the state.
#[tactic(auto, using(crate::proofs::BlockLaws::word_more, crate::proofs::BlockLaws::words_all), unfolding(crate::specs::Blocks::block_word_at, buffers::specs::Parts::tabulate))]
fn put_numbers(state: &mut State, bytes: &[u8])
    requires { length bytes.now ≡ 2 * state_length }
    ensures { state.new ≡ state_of_block bytes.now }
{
    for i in 0..STATE_LEN {
        state[i] = word(bytes[2 * i], bytes[2 * i + 1]);
    }
}

// Reads a block from an open file: whether it has just the bytes of one.
fn read_block(file: &mut impl Read, store: &mut Store) -> bool {
    let mut bytes = [0u8; RECORD_BYTES];
    let mut more = [0u8; 1];
    let numbers = file.read_exact(&mut bytes).is_ok();
    put_numbers(&mut store.state, &bytes);
    let files = numbers && file.read_exact(&mut store.files).is_ok();
    let logs = files && file.read_exact(&mut store.logs).is_ok();
    let marks = logs && file.read_exact(&mut store.marks).is_ok();
    let whole = marks && file.read_exact(&mut store.undo).is_ok();
    whole && file.read(&mut more).unwrap_or(0) == 0
}

// Reads the block that the path names, which is UTF-8 text. Otherwise says so.
pub fn load_block(rt: &impl Files, streams: Streams, path: &[u8], store: &mut Store) -> bool {
    let opened = File::open(rt, str::from_utf8(path).unwrap_or(""));
    let whole = match opened {
        Ok(mut file) => read_block(&mut file, store),
        Err(_) => false,
    };
    if !whole {
        crate::stdio::say_no_block(streams, path);
    }
    whole
}
