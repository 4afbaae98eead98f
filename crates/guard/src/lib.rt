// The guard on running numbers: one test of the problem alone.
#![tactic(auto)]

ghost use Rattle.std.specs.Prelude.{◌≡◌, ◌≤◌, ◌<◌, nat_abs, length};
ghost use Rattle.std.specs.List.{list_all};
ghost use Rattle.meaning.specs.Plan.{steps_of};
ghost use Rattle.meaning.specs.Problem.{step_count, among, share_of};
ghost use Rattle.meaning.specs.Running.{greatest_size};
ghost use Rattle.guard.specs.Size.{LastStep, GreatestSize, size_in, fits, guard_in, guard_told};

use problem::{Problem, STEPS, Terms};
use refusal::Refusal;

// The greatest size of a running number.
const LIMIT: u64 = 2_000_000;

// The distance of z from 0.
pub fn size_of(z: i32) -> u64
    ensures { (result ≡ nat_abs z) × (result ≤ 2147483648) }
{
    u64::from(z.unsigned_abs())
}

// The last step of a slot's set; 0 where it has none.
fn last_step(set: u16) -> u64
    ensures { LastStep set result }
{
    let mut last: u64 = 0;
    for v in 0..STEPS {
        if problem::allows(set, v) {
            last = v as u64;
        }
    }
    last
}

// 1 where an among rule counts a step of the slot's set, else 0.
fn counted(values: u16, slots: u32, i: usize, set: u16) -> u64
    requires { i < 24 }
    ensures { result ≡ greatest_size (share_of (among values slots) i) (steps_of step_count set) }
{
    for v in 0..STEPS {
        if problem::allows(set, v) && problem::counts(values, slots, i, v) {
            return 1;
        }
    }
    0
}

// The greatest size of a rule's share over the steps of the slot's set.
fn greatest_size(terms: &Terms, i: usize, set: u16) -> u64
    requires { i < 24 }
    ensures { GreatestSize terms.now i set result }
{
    match terms {
        Terms::Among { values, slots } => counted(*values, *slots, i, set),
        Terms::Sum { coefs } => size_of(coefs[i]) * last_step(set),
        Terms::Neither => 0,
    }
}

// The sum over the slots.
fn slot_sizes(terms: &Terms, sets: &[u16]) -> u64
    requires { length sets.now ≤ 24 }
    ensures { result ≡ size_in sets.now terms.now }
{
    let mut sum: u64 = 0;
    for (i, &set) in sets.iter().enumerate() {
        sum += greatest_size(terms, i, set);
    }
    sum
}

fn fits(terms: &Terms, sets: &[u16]) -> bool
    requires { length sets.now ≤ 24 }
    ensures { result ≡ fits sets.now terms.now }
{
    slot_sizes(terms, sets) <= LIMIT
}

fn all_fit(terms: &[Terms], sets: &[u16]) -> bool
    requires { length sets.now ≤ 24 }
    ensures { result ≡ list_all (fits sets.now) terms.now }
{
    terms.iter().all(|terms| fits(terms, sets))
}

// The sums over the slots of the greatest size of a cost, and for each rule of a share, are at most 2,000,000, or n or m is outside its range.
pub fn guard_of(problem: &Problem) -> Result<(), Refusal>
    ensures { guard_told result ≡ guard_in problem.now }
{
    if !problem::head_is_right(problem.slots, problem.rules) {
        return Ok(());
    }
    let sets = &problem.sets[..problem.slots];
    let terms: &[Terms] = &problem.terms;
    // a price is the share of a sum rule whose coefficients are the weights
    let price = Terms::Sum {
        coefs: problem.weights,
    };
    if !fits(&price, sets) || !all_fit(&terms[..problem.rules], sets) {
        return Err(Refusal::BeyondLimit);
    }
    Ok(())
}
