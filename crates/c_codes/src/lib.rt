// Outcomes as numbers of C.
#![tactic(auto)]

ghost use Rattle.std.specs.Prelude.{◌≡◌};
ghost use Rattle.state.specs.Outcomes.{said};
ghost use Rattle.c_codes.specs.Codes.{code_of, gap_in, tried_in};

use state::outcomes::{Answer, Outcome};

#[tactic(auto, unfolding(crate::specs::Codes::code_of, state::specs::Outcomes::said))]
pub fn code(o: Outcome) -> i32
    ensures { result ≡ code_of (said o) }
{
    match o {
        Ok(Answer::Done) => 0,
        Ok(Answer::Offset(n) | Answer::Given(n) | Answer::Pairs(n)) => i32::from(n),
        Ok(Answer::Granted(octet) | Answer::Ordered(octet, _, _)) => i32::from(octet),
        Err(r) => -i32::from(r.number()),
    }
}

// The gap of an order; 0 of any other outcome.
#[tactic(auto, unfolding(crate::specs::Codes::gap_in, state::specs::Outcomes::said))]
pub fn gap_in(o: Outcome) -> u16
    ensures { result ≡ gap_in (said o) }
{
    match o {
        Ok(Answer::Ordered(_, gap, _)) => u16::from(gap),
        _ => 0,
    }
}

// The number of orders tried; 0 of any other outcome.
#[tactic(auto, unfolding(crate::specs::Codes::tried_in, state::specs::Outcomes::said))]
pub fn tried_of(o: Outcome) -> u16
    ensures { result ≡ tried_in (said o) }
{
    match o {
        Ok(Answer::Ordered(_, _, tried)) => tried,
        _ => 0,
    }
}
