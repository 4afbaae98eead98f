// What the rules count in each slot, gathered once for a problem; one slot's shares and prices, reckoned once for a layer.
#![tactic(auto)]

ghost use Rattle.std.specs.Prelude.{◌≡◌, ◌*◌, ◌<◌, ◌≤◌, pos, length, get_or, take, drop, replicate};
ghost use Rattle.laws.specs.Z.{Within};
ghost use Rattle.laws.proofs.Each.{Each};
ghost use Rattle.meaning.specs.Problem.{most_slots, most_rules, step_count};
ghost use Rattle.slot.specs.Rows.{coef_part, value_part, coef_parts, value_parts, lane_of, lanes_of, slot_lanes};
ghost use Rattle.slot.specs.Tables.{coefs_in, weights_in, Tabled};

use problem::{Problem, RULES, SLOTS, STEPS, Terms};

// Where the weights begin behind the coefficients of every slot and rule.
pub const WEIGHTS: usize = SLOTS * RULES;

// Where the least totals begin.
pub const LEASTS: usize = WEIGHTS + SLOTS;

// Where the greatest totals begin.
pub const MOSTS: usize = LEASTS + RULES;

// Where the step sets begin behind the values.
pub const SETS: usize = SLOTS * RULES;

// The shares and prices of a slot: of each step a share for every rule, and then a price for each step.
pub const SHARES: usize = STEPS * RULES + STEPS;

// What a rule's coefficient of the slot counts: only a sum rule has one.
fn coef_part(terms: &Terms, i: usize) -> i32
    requires { i < most_slots }
    ensures { result ≡ coef_part i terms.now }
{
    match terms {
        Terms::Sum { coefs } => coefs[i],
        Terms::Among { .. } | Terms::Neither => 0,
    }
}

// Which steps of the slot an among rule counts: those in S, if it names the slot.
fn value_part(terms: &Terms, i: usize) -> u16
    requires { i < most_slots }
    ensures { result ≡ value_part i terms.now }
{
    match terms {
        Terms::Among { values, slots } => { if (*slots >> i) % 2 == 1 { *values } else { 0 } }
        Terms::Sum { .. } | Terms::Neither => 0,
    }
}

// What the rules count in a slot: of each a coefficient and a set of values; zero past the rules.
#[derive(Clone, Copy, Debug)]
pub struct Parts {
    pub coefs: [i32; RULES],
    pub values: [u16; RULES],
}

// The parts of every rule in slot i.
pub fn parts_of(problem: &Problem, i: usize) -> Parts
    requires { (problem.now.rules ≤ most_rules) × (i < most_slots) }
    ensures coefs { result.coefs ≡ coef_parts problem.now.rules i problem.now.terms }
    ensures values { result.values ≡ value_parts problem.now.rules i problem.now.terms }
{
    let mut parts = Parts {
        coefs: [0; RULES],
        values: [0; RULES],
    };
    for r in 0..problem.rules {
        parts.coefs[r] = coef_part(&problem.terms[r], i);
        parts.values[r] = value_part(&problem.terms[r], i);
    }
    parts
}

// A rule's share of step v by its parts.
pub fn lane(coef: i32, value: u16, v: usize) -> i32
    requires { (v < step_count) × Within 1000 coef }
    ensures { (result ≡ lane_of coef value v) × Within 7001 result }
{
    coef * (v as i32) + (((value >> v) % 2) as i32)
}

// The parts of slot i, from the tables of a problem.
pub fn parts_at(coefs: &[i32; 232], values: &[u16; 216], i: usize) -> Parts
    requires { (i < most_slots) × (length coefs.now ≡ 232) × (length values.now ≡ 216) }
    ensures coefs { result.coefs ≡ take 8 (drop (i * 8) coefs.now) }
    ensures values { result.values ≡ take 8 (drop (i * 8) values.now) }
{
    let mut parts = Parts {
        coefs: [0; RULES],
        values: [0; RULES],
    };
    let at = i * RULES;
    parts.coefs.copy_from_slice(&coefs[at..at + RULES]);
    parts.values.copy_from_slice(&values[at..at + RULES]);
    parts
}

// The shares of step v into their part of the row.
fn step_shares(parts: Parts, v: usize, row: &mut [i32])
    requires { (v < step_count) × Each (Within 1000) parts.coefs × (length row.old ≡ 8) }
    ensures { row.new ≡ lanes_of parts.coefs parts.values v }
{
    for r in 0..RULES {
        row[r] = lane(parts.coefs[r], parts.values[r], v);
    }
}

// The row of slot i by the tables of a problem: eight shares for each step, then the prices.
pub fn slot_row(coefs: &[i32; 232], values: &[u16; 216], i: usize, row: &mut [i32])
    requires { (i < most_slots) × Each (Within 1000) (coefs_in coefs.now) × Within 10000 (get_or (weights_in coefs.now) i (pos 0)) × (length coefs.now ≡ 232) × (length values.now ≡ 216) × (length row.old ≡ 72) }
    ensures { row.new ≡ slot_lanes (take 8 (drop (i * 8) coefs.now)) (take 8 (drop (i * 8) values.now)) (get_or (weights_in coefs.now) i (pos 0)) }
{
    let parts = parts_at(coefs, values, i);
    let weight = coefs[WEIGHTS + i];
    for v in 0..STEPS {
        step_shares(parts, v, &mut row[v * RULES..v * RULES + RULES]);
        row[STEPS * RULES + v] = problem::price(weight, v);
    }
}

// What the passes and the walk read of a problem, into two tables that are zero: of every slot what each rule counts there, eight to a
// slot; behind it the weights and bounds, and the step sets.
pub fn put_parts(p: Problem, coefs: &mut [i32; 232], values: &mut [u16; 216])
    requires { (p.slots ≤ most_slots) × (p.rules ≤ most_rules) × (coefs.old ≡ replicate 232 (pos 0)) × (values.old ≡ replicate 216 0) }
    ensures { Tabled p coefs.new values.new }
{
    for i in 0..p.slots {
        let parts = parts_of(&p, i);
        let at = i * RULES;
        coefs[at..at + RULES].copy_from_slice(&parts.coefs);
        values[at..at + RULES].copy_from_slice(&parts.values);
    }
    coefs[WEIGHTS..WEIGHTS + SLOTS].copy_from_slice(&p.weights);
    values[SETS..SETS + SLOTS].copy_from_slice(&p.sets);
    for r in 0..RULES {
        coefs[LEASTS + r] = p.bounds[r].lb;
        coefs[MOSTS + r] = p.bounds[r].ub;
    }
}
