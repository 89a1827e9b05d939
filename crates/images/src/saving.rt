// The numbers of an image, put into it.
ghost use Rattle.std.specs.Prelude.{◌≡◌};
ghost use Rattle.state.specs.Layout.{store_of, journal_of};
ghost use Rattle.images.specs.Words.{low_first};
ghost use Rattle.images.specs.Images.{number_of};

use crate::parts::image_number_at;
use crate::words::{Numbers, WORDS, put_word};
use state::layout::State;

// Puts the numbers of the state's image.
#[tactic(auto, using(crate::proofs::WordLaws::starts))]
pub fn put_numbers(state: &State, image: &mut Numbers)
    ensures { image.new
        ≡ low_first (number_of (store_of state.now) (journal_of state.now)) 276 }
{
    for i in 0..WORDS {
        put_word(image, i, image_number_at(state, i));
    }
}
