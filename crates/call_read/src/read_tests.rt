// The tests that GetFilePointer and Read have in common.
ghost use Rattle.std.specs.Prelude.{not, ◌≡◌, leb};
ghost use Rattle.limits.specs.Limits.{last_descriptor};
ghost use Rattle.admission.specs.Admission.{gate_number};
ghost use Rattle.admission.specs.FirstRefusal.{unless};

use limits::LAST_DESCRIPTOR;
use state::outcomes::Refusal;

// Refusals 6, 18 and 7 of a call that looks through descriptor d at n bytes, the reader's buffer having room
// for so many. GetFilePointer looks at none.
pub fn admit_read(stale: bool, d: usize, n: usize, room: usize) -> Result<(), Refusal>
    ensures { gate_number result
        ≡ unless (leb d last_descriptor) 6 (unless (not stale) 18 (unless (leb n room) 7 0)) }
{
    if LAST_DESCRIPTOR < d {
        return Err(Refusal::NoSuchTarget);
    }
    if stale {
        return Err(Refusal::StaleReader);
    }
    if room < n {
        return Err(Refusal::ReaderTooShort);
    }
    Ok(())
}
