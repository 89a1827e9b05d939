// The list that is given: refusals 26, 3, 4, 22, 25 and 27.
ghost use Rattle.std.specs.Prelude.{true, ◌&&◌, ◌≡◌, suc, ◌<◌, leb, length, get_or, drop, MatchResult};
ghost use Rattle.limits.specs.Limits.{last_transaction, most_orders};
ghost use Rattle.state.specs.Layout.{store_of, journal_of, transaction_of};
ghost use Rattle.state.specs.Outcomes.{number};
ghost use Rattle.admission.specs.Admission.{store_in};
ghost use Rattle.spec_orders.specs.Orders.{is_in, is_list, all_in};
ghost use Rattle.commit_windows.specs.WindowCheck.{OpenIn};
ghost use Rattle.call_order.specs.OrderTable.{unplaced_in, is_ready, AllOpen, list_refusal};

use crate::members::Members;
use limits::{LAST_TRANSACTION, MOST_ORDERS};
use standings::Place;
use state::TRANSACTIONS;
use state::journal::record_at;
use state::layout::{State, is_begun, is_stale, used_at};
use state::outcomes::Refusal;
use windows::minute_in;

// The last transaction's number, as a list holds it.
const LAST_LISTED: u8 = LAST_TRANSACTION as u8;

// Member k of the list occurs again after it.
fn occurs_again(list: &[u8], k: usize) -> bool
    requires { k < length list.now }
    ensures { result ≡ is_in (get_or list.now k 0) (drop (suc k) list.now) }
{
    let t = list[k];
    list[k + 1..].contains(&t)
}

// One to eight, and no repeat.
#[tactic(auto, using(crate::proofs::ListLaws::repeats), unfolding(spec_orders::specs::Orders::is_list))]
fn is_list(list: &[u8]) -> bool
    ensures { result ≡ is_list list.now }
{
    if list.is_empty() || list.len() > TRANSACTIONS {
        return false;
    }
    for k in 0..list.len() {
        if occurs_again(list, k) {
            return false;
        }
    }
    true
}

// Every member is at most 7.
fn all_small(list: &[u8]) -> bool
    ensures { result ≡ all_in (λ t. leb t last_transaction) list.now }
{
    list.iter().all(|t| *t <= LAST_LISTED)
}

// Every member is open.
fn all_open(state: &State, list: Members) -> bool
    ensures { result ≡ all_in (λ t. (transaction_of state.now t).begun) list.entry.numbers.now }
{
    list.numbers
        .iter()
        .all(|t| is_begun(state, usize::from(*t)))
}

// Transaction t has a write without a place.
#[tactic(auto, using(crate::proofs::ListLaws::searches), unfolding(crate::specs::OrderTable::unplaced_in))]
fn has_unplaced(state: &State, t: usize) -> bool
    requires { OpenIn state.now t }
    ensures { result ≡ unplaced_in state.now t }
{
    let used = used_at(state, t);
    for k in 0..used.records {
        let w = record_at(state, t, k);
        if let Place::After(_) = w.place {
            return true;
        }
    }
    false
}

// Transaction t is not stale, and each of its writes has a place.
#[tactic(auto, unfolding(crate::specs::OrderTable::is_ready))]
fn is_ready(state: &State, t: usize) -> bool
    requires { OpenIn state.now t }
    ensures { result ≡ is_ready state.now t }
{
    !(is_stale(state, t) || has_unplaced(state, t))
}

// Every member is ready.
fn all_ready(state: &State, list: Members) -> bool
    requires { AllOpen state.now list.numbers.now }
    ensures { result ≡ all_in (is_ready state.now) list.entry.numbers.now }
{
    list.numbers
        .iter()
        .all(|t| is_ready(state, usize::from(*t)))
}

// The budget is in its range.
fn is_budget(n: usize) -> bool
    ensures { result ≡ (leb 1 n && leb n most_orders) }
{
    (1..=MOST_ORDERS).contains(&n)
}

// Refusals 26, 3, 4, 22, 25 and 27, on a valid state (01's check 2); or the list's members.
#[tactic(auto, unfolding(crate::specs::OrderTable::list_refusal, admission::specs::FirstRefusal::unless))]
pub fn admit_list<'a>(
    state: &State,
    list: &'a [u8],
    minute: usize,
    budget: usize,
) -> Result<Members<'a>, Refusal>
    requires { store_in (store_of state.now) (journal_of state.now) ≡ true }
    ensures { MatchResult result
        (λ members. (members.numbers.now ≡ list.now) × (list_refusal state.now list.now minute budget ≡ 0))
        (λ r. number r ≡ list_refusal state.now list.now minute budget) }
{
    if !is_list(list) {
        return Err(Refusal::BadList);
    }
    if !all_small(list) {
        return Err(Refusal::NoSuchTransaction);
    }
    let members = Members { numbers: list };
    if !all_open(state, members) {
        return Err(Refusal::NotOpen);
    }
    if !minute_in(minute) {
        return Err(Refusal::NoSuchMinute);
    }
    if !all_ready(state, members) {
        return Err(Refusal::NotReady);
    }
    if !is_budget(budget) {
        return Err(Refusal::BadBudget);
    }
    Ok(members)
}
