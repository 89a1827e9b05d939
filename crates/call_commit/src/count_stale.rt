// How many transactions the octet of a granted commit names.
ghost use Rattle.std.specs.Prelude.{◌≡◌, ℕ};
ghost use Rattle.limits.specs.Limits.{transaction_count};
ghost use Rattle.buffers.specs.Bits.{count_of};
ghost use Rattle.buffers.specs.Marks.{contains};
ghost use Rattle.state.specs.Outcomes.{granted};
ghost use Rattle.spec.specs.Messages.{Call};
ghost use Rattle.spec.specs.Machine.{Machine};
ghost use Rattle.spec.specs.Calls.{call, former_number};

// The count of ones in an octet: for one that a commit answered, how many transactions it made stale.
pub fn made_stale(octet: u8) -> u32
    ensures { (result ≡ count_of (contains octet) transaction_count) × ((t minute : ℕ) (m : Machine)
        → (call (Call.commit t minute) m).reply.answer ≡ granted octet → result ≡ former_number t m) }
{
    u8::count_ones(octet)
}
