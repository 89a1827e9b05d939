// The numbers of an image: 16 bits each, the low byte first.
ghost use Rattle.std.specs.Prelude.{◌≡◌, ◌<◌};
ghost use Rattle.images.specs.Words.{word_at, with_word_at};

// How many numbers an image has, its format's among them.
pub const WORDS: usize = 276;

pub type Numbers = [u8; 2 * WORDS];

// Number i.
#[tactic(auto, unfolding(crate::specs::Words::word_at))]
pub fn word_at(bytes: &Numbers, i: usize) -> u16
    requires { i < 276 }
    ensures { result ≡ word_at bytes.now i }
{
    u16::from_le_bytes([bytes[2 * i], bytes[2 * i + 1]])
}

// Puts n as number i.
#[tactic(auto, unfolding(crate::specs::Words::with_word_at))]
pub fn put_word(bytes: &mut Numbers, i: usize, n: u16)
    requires { i < 276 }
    ensures { bytes.new ≡ with_word_at bytes.old i n }
{
    let [low, high] = n.to_le_bytes();
    bytes[2 * i] = low;
    bytes[2 * i + 1] = high;
}
