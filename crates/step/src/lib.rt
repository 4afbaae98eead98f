// One step of the walk along any arcs, and the page that its plans are laid on.
#![tactic(auto)]

ghost use Rattle.std.specs.Prelude.{◌≡◌, [], ◌∷◌, ◌++◌, ◌&&◌, ◌+ℤ◌, not, cond, suc, ◌+◌, ◌*◌, ◌-◌, ◌≤◌, ◌<◌, eqb, ltb, length, get_or, take, replicate, pos};
ghost use Rattle.std.proofs.Math.Seq.{paste};
ghost use Rattle.std.specs.Int.Signed.{le_z};
ghost use Rattle.laws.specs.Z.{Within};
ghost use Rattle.laws.proofs.Each.{Each};
ghost use Rattle.slot.specs.Tables.{coefs_in, weights_in, leasts_in, mosts_in};
ghost use Rattle.step.specs.Steps.{laying, may_keep, totals_at, budget_at, here_at, goes_on, trod};

use problem::{RULES, SLOTS};
use slot::{LEASTS, MOSTS, SETS, WEIGHTS};

// ---- one step
// A level of the trail: a total for each rule, and what is left of the ceiling.
pub const LEVEL: usize = RULES + 1;

// The trail has a level for each slot, and one behind the last.
pub const TRAIL: usize = (SLOTS + 1) * LEVEL;

// A byte that leads to a node.
pub fn is_arc(b: usize) -> bool
    ensures { result ≡ not (eqb b 0) }
{
    b != 0
}

// The totals behind step v of slot i.
fn with_shares<'a>(
    coefs: &'a [i32; 232],
    values: &'a [u16; 216],
    i: usize,
    v: usize,
    trail: &[i32; TRAIL],
) -> [i32; RULES]
    requires { (i < 24) × (v < 8) × Each (Within 1000) (coefs_in coefs.now) × Each (Within 1000000) (totals_at i trail.now) × (length coefs.now ≡ 232) × (length values.now ≡ 216) × (length trail.now ≡ 225) }
    ensures { result ≡ here_at coefs.now values.now i v trail.now }
{
    let mut totals = [0i32; RULES];
    for r in 0..RULES {
        let share = slot::lane(coefs[i * RULES + r], values[i * RULES + r], v);
        totals[r] = trail[i * LEVEL + r] + share;
    }
    totals
}

// Whether a rule's total may yet end within its bounds, where the node can add from `low` to `high`.
fn may_keep_rule(total: i32, low: i32, high: i32, least: i32, most: i32) -> bool
    requires { Within 1000000 total × Within 4000000 low × Within 4000000 high }
    ensures { result ≡ (le_z (total +ℤ low) most && le_z least (total +ℤ high)) }
{
    total + low <= most && least <= total + high
}

// Whether what the node whose cells begin at `at` can still add leaves every rule kept.
fn may_keep<'a>(
    m: usize,
    coefs: &'a [i32; 232],
    cells: &[i32],
    at: usize,
    totals: [i32; RULES],
) -> bool
    requires { (m ≤ 8) × (at + 4 * m + 3 ≤ length cells.now) × Each (Within 4000000) cells.now × Each (Within 1000000) totals × (length coefs.now ≡ 232) }
    ensures { result ≡ may_keep m (leasts_in coefs.now) (mosts_in coefs.now) cells.now at totals }
{
    let mut kept = true;
    for r in 0..m {
        let low = cells[at + 4 * r + 3];
        let high = cells[at + 4 * r + 4];
        if !may_keep_rule(totals[r], low, high, coefs[LEASTS + r], coefs[MOSTS + r]) {
            // eight, a count that the compiler knows, are tested quicker without a way out
            if m < RULES {
                return false;
            }
            kept = false;
        }
    }
    kept
}

// The same; the most rules are a count that the compiler knows.
fn may_keep_all<'a>(
    m: usize,
    coefs: &'a [i32; 232],
    cells: &[i32],
    at: usize,
    totals: [i32; RULES],
) -> bool
    requires { (m ≤ 8) × (at + 4 * m + 3 ≤ length cells.now) × Each (Within 4000000) cells.now × Each (Within 1000000) totals × (length coefs.now ≡ 232) }
    ensures { result ≡ may_keep m (leasts_in coefs.now) (mosts_in coefs.now) cells.now at totals }
{
    // kept: the branch gives eight rules a count that the compiler knows, which saves 13 % of the time
    if m == RULES {
        may_keep(RULES, coefs, cells, at, totals)
    } else {
        may_keep(m, coefs, cells, at, totals)
    }
}

// A level of the trail.
fn put_level(trail: &mut [i32; TRAIL], at: usize, totals: [i32; RULES], rest: i32)
    requires { (at + 9 ≤ 225) × (length trail.old ≡ 225) }
    ensures { trail.new ≡ paste trail.old at (totals ++ (rest ∷ [])) 9 }
{
    trail[at..at + RULES].copy_from_slice(&totals);
    trail[at + RULES] = rest;
}

// Whether the walk goes on by step v of slot i to the node whose cells begin at `at`: the slot allows it, the sink is within what is
// left of the ceiling, and every rule may still be kept. If so, the trail gets the level behind the step.
pub fn goes<'a>(
    m: usize,
    coefs: &'a [i32; 232],
    values: &'a [u16; 216],
    i: usize,
    v: usize,
    cells: &[i32],
    at: usize,
    trail: &mut [i32; TRAIL],
) -> bool
    requires { (m ≤ 8) × (i < 24) × (v < 8) × (at + 4 * m + 3 ≤ length cells.now) × Each (Within 4000000) cells.now × Within 10000 (get_or (weights_in coefs.now) i (pos 0)) × Each (Within 1000) (coefs_in coefs.now) × Each (Within 200000) (totals_at i trail.old) × Within 4000000 (budget_at i trail.old) × (length coefs.now ≡ 232) × (length values.now ≡ 216) × (length trail.old ≡ 225) }
    ensures value { result ≡ goes_on m coefs.now values.now i v cells.now at trail.old }
    ensures trail { trail.new ≡ cond (goes_on m coefs.now values.now i v cells.now at trail.old) (trod coefs.now values.now i v trail.old) trail.old }
{
    let set = values[SETS + i];
    if !problem::allows(set, v) {
        return false;
    }
    let weight = coefs[WEIGHTS + i];
    let rest = trail[i * LEVEL + RULES] - problem::price(weight, v);
    if rest < cells[at + 4 * m + 2] {
        return false;
    }
    let totals = with_shares(coefs, values, i, v, trail);
    if !may_keep_all(m, coefs, cells, at, totals) {
        return false;
    }
    put_level(trail, (i + 1) * LEVEL, totals, rest);
    true
}

// ---- the page
// Steps copied to their place. By a loop: with `copy_from_slice` the archive asks C for `memmove`.
fn copy(from: &[u8], to: &mut [u8])
    requires { length from.now ≡ length to.old }
    ensures { to.new ≡ from.now }
{
    for (k, place) in to.iter_mut().enumerate() {
        *place = from[k];
    }
}

// A plan comes by, after `seen` others: laid on the page where there is room.
pub fn put(plan: &[u8; SLOTS], n: usize, cap: usize, page: &mut [u8], seen: usize) -> usize
    requires { (n ≤ 24) × (seen ≤ cap) × (cap * n ≤ length page.old) × (cap ≤ length page.old) × (n ≤ length plan.now) }
    ensures laid { record { page = page.exit.now; seen = result } ≡ laying n cap (record { page = page.entry.now; seen = seen }) (take n plan.now) }
    ensures one { result ≡ suc seen }
{
    if seen < cap {
        let at = seen * n;
        copy(&plan[..n], &mut page[at..at + n]);
    }
    seen + 1
}

// The start, before the walk overwrites it step by step.
pub fn begun(start: &[u8]) -> [u8; SLOTS]
    requires { length start.now ≤ 24 }
    ensures { result ≡ start.now ++ replicate (24 - length start.now) 0 }
{
    let mut plan = [0u8; SLOTS];
    plan[..start.len()].copy_from_slice(start);
    plan
}

// How many plans stand on the page, and whether a further one exists.
#[derive(Clone, Copy)]
pub struct Listed {
    pub count: usize,
    pub more: bool,
}

// The page in the end, when `seen` plans came by: as many of them as it has room for, the rest zero.
pub fn closed(n: usize, cap: usize, seen: usize, page: &mut [u8]) -> Listed
    requires { cap * n ≤ length page.old }
    ensures value { result ≡ record { count = cond (ltb cap seen) cap seen; more = ltb cap seen } }
    ensures page { page.new ≡ take (cond (ltb cap seen) cap seen * n) page.old ++ replicate (length page.old - cond (ltb cap seen) cap seen * n) 0 }
{
    let more = cap < seen;
    let count = if more { cap } else { seen };
    page[count * n..].fill(0);
    Listed { count, more }
}
