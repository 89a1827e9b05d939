// The call that answers the best order to commit in.
ghost use Rattle.std.specs.Prelude.{true, ◌≡◌, length, MatchResult};
ghost use Rattle.limits.specs.Limits.{buffer_bytes};
ghost use Rattle.state.specs.Layout.{store_of, journal_of};
ghost use Rattle.state.specs.Outcomes.{number};
ghost use Rattle.admission.specs.Admission.{first_tests, store_in};
ghost use Rattle.spec.specs.Messages.{Call};
ghost use Rattle.spec.specs.Calls.{call};
ghost use Rattle.spec.specs.Promises.{Follows, lent_shared};
ghost use Rattle.call_order.specs.Answer.{order_in, Padded};
ghost use Rattle.call_order.specs.OrderTable.{list_refusal, AnswersOrder};

use crate::admit_list::admit_list;
use crate::best::OrderTable;
use crate::members::Members;
use crate::permutation::factorial;
use crate::table::{closed_of, none_waits, octets_of};
use admission::{Sizes, first_tests};
use state::TRANSACTIONS;
use state::layout::State;
use state::outcomes::{Answer, Outcome, Refusal};

// An order's grants, the gap and how many orders were tried, or a refusal; and the order: as many numbers as
// the list has, and zeros after them; with a refusal, zeros. So it is no Result: C is answered the zeros too, and
// the example `refused` of specs/Examples.antt says them.
#[derive(Clone, Copy)]
pub struct Best {
    pub outcome: Outcome,
    pub order: [u8; TRANSACTIONS],
}

// Refusals 1 and 2, then those of the list.
fn admitted<'a>(
    state: &State,
    sizes: Sizes,
    list: &'a [u8],
    minute: usize,
    budget: usize,
) -> Result<Members<'a>, Refusal>
    ensures { MatchResult result
        (λ members. (members.numbers.now ≡ list.now) × (first_tests sizes (store_of state.now)
        (journal_of state.now) (list_refusal state.now list.now minute budget) ≡ 0))
        (λ r. number r ≡ first_tests sizes (store_of state.now)
        (journal_of state.now) (list_refusal state.now list.now minute budget)) }
{
    first_tests(state, sizes)?;
    admit_list(state, list, minute, budget)
}

// The answer, once no test refuses.
fn best_by_table(state: &State, marks: &[u8], list: Members, minute: u16, budget: usize) -> Best
    requires { (store_in (store_of state.now) (journal_of state.now) ≡ true)
        × (length marks.now ≡ buffer_bytes)
        × (list_refusal state.now list.numbers.now minute budget ≡ 0) }
    ensures { AnswersOrder state.now marks.now list.entry.numbers.now
        minute budget result
        × Padded (length list.entry.numbers.now) result }
{
    let table = octets_of(state, marks, list);
    let closed = closed_of(state, minute);
    let placed = none_waits(state, list);
    let known = OrderTable {
        table,
        closed,
        placed,
    };
    let all = factorial(list.numbers.len());
    let tried = budget.min(all);
    let b = known.best_of(state, list, tried);
    let gap = known.gap_of(tried == all, list, b.grants);
    let order = b.order;
    Best {
        outcome: Ok(Answer::Ordered(b.grants, gap, tried as u16)),
        order,
    }
}

// Given up to 8 different open transactions, a minute and a budget of 1 to 40,320 orders: refusals 1, 2, 26,
// 3, 4, 22, 25 and 27, then the earliest of the orders tried with the most grants. The store is unchanged.
pub fn best_order<'a>(
    state: &'a State,
    files: &'a [u8],
    logs: &'a [u8],
    marks: &'a [u8],
    undo: &'a [u8],
    list: &'a [u8],
    minute: usize,
    budget: usize,
) -> Best
    ensures { Follows (call (Call.best_order list.now minute budget))
        (lent_shared state.now) (lent_shared files.now) (lent_shared logs.now) (lent_shared marks.now) (lent_shared undo.now)
        result.outcome (order_in (length list.now) result) × Padded (length list.now) result }
{
    let sizes = Sizes::of(files, logs, marks, undo);
    match admitted(state, sizes, list, minute, budget) {
        Ok(members) => best_by_table(state, marks, members, minute as u16, budget),
        Err(r) => Best {
            outcome: Err(r),
            order: [0u8; TRANSACTIONS],
        },
    }
}
