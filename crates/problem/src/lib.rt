// The problem by value: its ranges and faults, its steps, shares and prices.
#![tactic(auto)]

mod sound;

ghost use Rattle.std.specs.Prelude.{◌≡◌, ◌&&◌, ◌/◌, ◌^◌, ◌≤◌, ◌<◌, eqb, pos, ◌*ℤ◌, zip};
ghost use Rattle.std.specs.List.{list_all};
ghost use Rattle.std.specs.Int.Signed.{le_z};
ghost use Rattle.laws.specs.Lists.{every};
ghost use Rattle.laws.specs.Z.{Within};
ghost use Rattle.meaning.specs.Plan.{bit, allows};
ghost use Rattle.meaning.specs.Problem.{step_count, version1, size, right_head, right_set, right_terms};
ghost use Rattle.problem.specs.Held.{said_terms, between, right_kind, right_one, fault_in, fault_told, IsSmallAt, Shares};

use refusal::Refusal;
pub use sound::Sound;

// A problem has 1 to 24 slots and at most 8 rules; a step is 0 to 7; a layer has at most 16 nodes.
pub const SLOTS: usize = 24;

pub const RULES: usize = 8;

pub const STEPS: usize = 8;

pub const WIDTH: usize = 16;

// The greatest sizes.
const WEIGHT: i32 = 10_000;

const COEFFICIENT: i32 = 1_000;

const BOUND: i32 = 200_000;

// What a rule counts.
#[derive(Clone, Copy, Debug, PartialEq, Eq)]
pub enum Terms {
    // The slots of a set whose step lies in `values`: bit i of `slots`, bit v of `values`.
    Among { values: u16, slots: u32 },
    // A coefficient for each slot, times its step.
    Sum { coefs: [i32; SLOTS] },
    // Another kind: a fault.
    Neither,
}

// A rule's total lies from `lb` to `ub`.
#[derive(Clone, Copy, Debug, PartialEq, Eq)]
pub struct Bounds {
    pub lb: i32,
    pub ub: i32,
}

// Places at `slots` and at `rules` and above say nothing.
#[derive(Clone, Copy, Debug)]
pub struct Problem {
    pub slots: usize,
    pub rules: usize,
    pub sets: [u16; SLOTS],
    pub weights: [i32; SLOTS],
    pub terms: [Terms; RULES],
    pub bounds: [Bounds; RULES],
}

// ---- the ranges
// n is 1 to 24, m is 0 to 8.
pub fn head_is_right(n: usize, m: usize) -> bool
    ensures { result ≡ right_head n m }
{
    1 <= n && n <= SLOTS && m <= RULES
}

// No set is zero.
pub fn sets_are_right(sets: &[u16]) -> bool
    ensures { result ≡ every right_set sets.now }
{
    sets.iter().all(|&set| set != 0)
}

fn is_within(low: i32, z: i32, high: i32) -> bool
    ensures { result ≡ between low high z }
{
    low <= z && z <= high
}

fn are_within(low: i32, numbers: &[i32], high: i32) -> bool
    ensures { result ≡ every (between low high) numbers.now }
{
    numbers.iter().all(|&z| is_within(low, z, high))
}

pub fn weights_are_right(weights: &[i32]) -> bool
    ensures { result ≡ every (size 10000) weights.now }
{
    are_within(-WEIGHT, weights, WEIGHT)
}

pub fn coefs_are_right(coefs: &[i32]) -> bool
    ensures { result ≡ every (size 1000) coefs.now }
{
    are_within(-COEFFICIENT, coefs, COEFFICIENT)
}

// No bit at n or above.
pub fn slots_are_right(slots: u32, n: usize) -> bool
    requires { n ≤ 24 }
    ensures { result ≡ eqb (slots / 2 ^ n) 0 }
{
    slots >> n == 0
}

impl Bounds {
    // Both within 200,000, and lb not above ub.
    pub fn are_right(self) -> bool
        ensures { result ≡ (size 200000 self.lb && size 200000 self.ub && le_z self.lb self.ub) }
    {
        is_within(-BOUND, self.lb, BOUND) && is_within(-BOUND, self.ub, BOUND) && self.lb <= self.ub
    }
}

// The terms are of one of the two kinds, and their fields are right.
fn terms_are_right(n: usize, terms: &Terms) -> bool
    requires { n ≤ 24 }
    ensures { result ≡ right_kind terms.now && right_terms version1 n (said_terms n terms.now) }
{
    match terms {
        Terms::Among { slots, .. } => slots_are_right(*slots, n),
        Terms::Sum { coefs } => coefs_are_right(&coefs[..n]),
        Terms::Neither => false,
    }
}

// The terms are right, and the bounds.
fn rule_is_right(n: usize, terms: &Terms, bounds: Bounds) -> bool
    requires { n ≤ 24 }
    ensures { result ≡ right_one version1 n terms.now bounds }
{
    terms_are_right(n, terms) && bounds.are_right()
}

fn rules_are_right(n: usize, terms: &[Terms], bounds: &[Bounds]) -> bool
    requires { n ≤ 24 }
    ensures { result ≡ list_all (λ p. right_one version1 n p.0 p.1) (zip terms.now bounds.now) }
{
    terms
        .iter()
        .zip(bounds)
        .all(|(terms, bounds)| rule_is_right(n, terms, *bounds))
}

impl Problem {
    // The first fault that stands.
    pub fn fault(&self) -> Option<Refusal>
        ensures { fault_told result ≡ fault_in version1 self.now }
    {
        if !head_is_right(self.slots, self.rules) {
            return Some(Refusal::WrongSize);
        }
        if !sets_are_right(&self.sets[..self.slots])
            || !weights_are_right(&self.weights[..self.slots])
        {
            return Some(Refusal::WrongSlot);
        }
        if !rules_are_right(
            self.slots,
            &self.terms[..self.rules],
            &self.bounds[..self.rules],
        ) {
            return Some(Refusal::WrongRule);
        }
        None
    }
}

// ---- steps, shares, prices
// The slot's set has the step.
pub fn allows(set: u16, v: usize) -> bool
    ensures { result ≡ allows step_count set v }
{
    v < STEPS && (set >> v) % 2 == 1
}

// An among rule counts the slot: it is named, and its step is in S.
pub fn counts(values: u16, slots: u32, i: usize, v: usize) -> bool
    requires { (i < 24) × (v < step_count) }
    ensures { result ≡ (bit values v && bit slots i) }
{
    (values >> v) % 2 == 1 && (slots >> i) % 2 == 1
}

// A coefficient times a step.
fn times(coef: i32, v: usize) -> i32
    requires { (v < step_count) × Within 1000 coef }
    ensures { (result ≡ coef *ℤ pos v) × Within 7000 result }
{
    coef * (v as i32)
}

impl Terms {
    // The share of slot i and step v.
    pub fn share(&self, i: usize, v: usize) -> i32
        requires slot { i < 24 }
        requires step { v < step_count }
        requires coef { IsSmallAt self.now i }
        ensures { Shares self.now i v result }
    {
        match self {
            Terms::Among { values, slots } => i32::from(counts(*values, *slots, i, v)),
            Terms::Sum { coefs } => times(coefs[i], v),
            Terms::Neither => 0,
        }
    }
}

// What step v costs in a slot of that weight.
pub fn price(weight: i32, v: usize) -> i32
    requires { (v < step_count) × Within 10000 weight }
    ensures { (result ≡ weight *ℤ pos v) × Within 70000 result }
{
    weight * (v as i32)
}
