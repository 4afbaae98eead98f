// The judge of one plan of a problem without fault, and the better of two.
#![tactic(auto)]

ghost use Rattle.std.specs.Prelude.{◌≡◌, ℕ, ◌<◌, length, zip};
ghost use Rattle.std.specs.List.{list_all};
ghost use Rattle.laws.specs.Lists.{every};
ghost use Rattle.laws.specs.Z.{Within};
ghost use Rattle.laws.proofs.Each.{Each};
ghost use Rattle.meaning.specs.Plan.{allows, allowed, summed, keeps_rule};
ghost use Rattle.meaning.specs.Problem.{step_count, version1, share_of, rule_of, weighed};
ghost use Rattle.meaning.specs.Calls.{judged, better_of};
ghost use Rattle.problem.specs.Held.{said_terms, rule_said, campaign_of, fault_in, IsSmallAt};
ghost use Rattle.judge.specs.Answers.{Steps, judged_as, choice_of};

use problem::{Bounds, Problem, Sound, Terms};

// Which of two plans is handed back.
#[derive(Clone, Copy, Debug, PartialEq, Eq)]
pub enum Which {
    EmptyStart,
    Standing,
    New,
}

// Each step is from its slot's own set.
fn are_allowed(sets: &[u16], plan: &[u8]) -> bool
    ensures { result ≡ list_all (λ p. allows step_count p.0 p.1) (zip sets.now plan.now) }
{
    sets.iter()
        .zip(plan)
        .all(|(&set, &step)| problem::allows(set, usize::from(step)))
}

// The plan has a step for each slot, from its own set.
fn is_allowed(sets: &[u16], plan: &[u8]) -> bool
    ensures { result ≡ allowed step_count sets.now plan.now }
{
    plan.len() == sets.len() && are_allowed(sets, plan)
}

// What the plan adds to a rule's total.
fn total_of(terms: &Terms, plan: &[u8]) -> i32
    requires steps { Steps plan.now }
    requires coefs { (i : ℕ) → i < length plan.now → IsSmallAt terms.now i }
    ensures { (result ≡ summed (share_of (said_terms (length plan.now) terms.now)) 0 plan.now) × Within 168000 result }
{
    let mut total: i32 = 0;
    for (i, &step) in plan.iter().enumerate() {
        total += terms.share(i, usize::from(step));
    }
    total
}

// The total lies within the bounds.
fn keeps_rule(terms: &Terms, bounds: Bounds, plan: &[u8]) -> bool
    requires steps { Steps plan.now }
    requires coefs { (i : ℕ) → i < length plan.now → IsSmallAt terms.now i }
    ensures { result ≡ keeps_rule plan.now (rule_of (rule_said (length plan.now) terms.now bounds)) }
{
    let total = total_of(terms, plan);
    bounds.lb <= total && total <= bounds.ub
}

fn keeps_rules(problem: &Problem, plan: &[u8]) -> bool
    requires sound { fault_in version1 problem.now ≡ 0 }
    requires slots { length plan.now ≡ problem.now.slots }
    requires steps { Steps plan.now }
    ensures { result ≡ every (keeps_rule plan.now) (campaign_of problem.now).rules }
{
    for k in 0..problem.rules {
        if !keeps_rule(&problem.terms[k], problem.bounds[k], plan) {
            return false;
        }
    }
    true
}

// What the plan costs.
fn cost_of(weights: &[i32], plan: &[u8]) -> i32
    requires steps { Steps plan.now }
    requires count { length weights.now ≡ length plan.now }
    requires weights { Each (Within 10000) weights.now }
    ensures { (result ≡ summed (weighed weights.now) 0 plan.now) × Within 1680000 result }
{
    let mut cost: i32 = 0;
    for (i, &step) in plan.iter().enumerate() {
        cost += problem::price(weights[i], usize::from(step));
    }
    cost
}

// What the plan costs; none where it is not lawful: its length is n, each step is allowed and every rule holds.
pub fn judge_plan(problem: &Sound, plan: &[u8]) -> Option<i32>
    ensures { judged_as result ≡ judged (campaign_of problem.now.problem) plan.now }
{
    let slots = problem.problem.slots;
    let sets: &[u16] = &problem.problem.sets;
    let weights: &[i32] = &problem.problem.weights;
    if !is_allowed(&sets[..slots], plan) || !keeps_rules(&problem.problem, plan) {
        return None;
    }
    Some(cost_of(&weights[..slots], plan))
}

// A lawful one before an unlawful one, then the lower cost, then the standing one; the empty start if neither is lawful.
pub fn better_of(problem: &Sound, standing: &[u8], new: &[u8]) -> Which
    ensures { choice_of result ≡ better_of (campaign_of problem.now.problem) standing.now new.now }
{
    match (judge_plan(problem, standing), judge_plan(problem, new)) {
        (None, None) => Which::EmptyStart,
        (Some(_), None) => Which::Standing,
        (None, Some(_)) => Which::New,
        (Some(old), Some(cost)) => {
            if cost < old {
                Which::New
            } else {
                Which::Standing
            }
        }
    }
}
