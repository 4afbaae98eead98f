// The walk: recursion over the slots along any arcs, pruned by the up numbers of these arcs; the page of the plans that it finds.
#![tactic(auto)]

ghost use Rattle.std.specs.Prelude.{◌≡◌, true, ◌⊎◌, suc, ◌+◌, ◌*◌, ◌-◌, ◌/◌, ◌≤◌, ◌<◌, length, get_or, take};
ghost use Rattle.laws.specs.Z.{Within};
ghost use Rattle.laws.proofs.Each.{Each};
ghost use Rattle.meaning.specs.Plan.{Campaign, slots};
ghost use Rattle.meaning.specs.Filter.{down_numbers, up_numbers, swept};
ghost use Rattle.meaning.specs.Buffers.{node_need, cells_need, arcs_in, all_cells};
ghost use Rattle.meaning.specs.Page.{walked, page_of, page_bytes};
ghost use Rattle.problem.specs.Held.{campaign_of};
ghost use Rattle.lent.specs.Wide.{laid};
ghost use Rattle.numbers.specs.Whole.{Ready, Formed};
ghost use Rattle.step.specs.Answers.{listed_as};
ghost use Rattle.slot.specs.Tables.{coefs_in, weights_in, leasts_in, mosts_in, values_in, sets_in, Tabled};
ghost use Rattle.step.specs.Steps.{totals_at, budget_at};
ghost use Rattle.walk.specs.Beginnings.{Walkable, Finds};

use problem::{Problem, RULES, SLOTS, STEPS};
use step::{Listed, TRAIL};

// ---- the recursion
// The sizes of a walk: slots, rules, nodes of a layer, and how many plans the page has room for.
#[derive(Clone, Copy)]
struct Sizes {
    slots: usize,
    rules: usize,
    width: usize,
    room: usize,
}

// The byte of step v at node j of slot i.
fn byte_at(arcs: &[u8], w: usize, i: usize, j: usize, v: usize) -> usize
    requires { (i * w + j ≤ 400) × (v < 8) × ((i * w + j) * 8 + v < length arcs.now) }
    ensures { result ≡ get_or arcs.now ((i * w + j) * 8 + v) 0 }
{
    arcs[(i * w + j) * STEPS + v] as usize
}

// Where the cells of the node begin that a byte of slot i leads to.
fn child_at(m: usize, w: usize, i: usize, b: usize) -> usize
    requires { (m ≤ 8) × (0 < b) × ((i + 1) * w + b ≤ 400) }
    ensures { result ≡ ((i + 1) * w + b - 1) * (4 * m + 3) }
{
    (i * w + w + b - 1) * (4 * m + 3)
}

// Lays on the page every plan that begins with the first n - left steps of `plan` and goes on from node j, as far as it is lawful and
// within the ceiling: the trail has their totals and what they leave of the ceiling. If they are the start's own, what follows in
// `plan` is the start's rest, and only plans after it count: first those along its own step, then those behind. Says how many plans
// came by, at most one more than the page has room for.
fn node<'a>(
    sizes: &'a Sizes,
    coefs: &'a [i32; 232],
    values: &'a [u16; 216],
    arcs: &[u8],
    cells: &[i32],
    own: bool,
    left: usize,
    j: usize,
    trail: &mut [i32; TRAIL],
    plan: &mut [u8; SLOTS],
    page: &mut [u8],
    seen: usize,
) -> usize
    requires { Walkable sizes.now.slots sizes.now.rules sizes.now.width (weights_in coefs.now) (coefs_in coefs.now) arcs.now cells.now × (1 ≤ left) × (left ≤ sizes.now.slots) × (j < sizes.now.width)
        × Each (Within (7001 * (sizes.now.slots - left))) (totals_at (sizes.now.slots - left) trail.old) × Within (2000000 + 70000 * (sizes.now.slots - left)) (budget_at (sizes.now.slots - left) trail.old)
        × (sizes.now.room * sizes.now.slots ≤ length page.old) × (sizes.now.room ≤ length page.old) × (seen ≤ suc sizes.now.room)
        × (length coefs.now ≡ 232) × (length values.now ≡ 216) × (length trail.old ≡ 225) × (length plan.old ≡ 24) }
    ensures found { Finds sizes.now.slots sizes.now.rules sizes.now.width (sets_in values.now) (weights_in coefs.now) (leasts_in coefs.now) (mosts_in coefs.now) (coefs_in coefs.now) (values_in values.now) arcs.now cells.now
        own (sizes.now.slots - left) j (totals_at (sizes.now.slots - left) trail.old) (budget_at (sizes.now.slots - left) trail.old) plan.old sizes.now.room page.old seen page.new result }
    ensures begins { take (sizes.now.slots - left) plan.new ≡ take (sizes.now.slots - left) plan.old }
    ensures trodden { take ((sizes.now.slots - left + 1) * 9) trail.new ≡ take ((sizes.now.slots - left + 1) * 9) trail.old }
    ensures long { (length plan.new ≡ 24) × (length trail.new ≡ 225) }
    ensures few { result ≤ suc sizes.now.room }
{
    let Sizes {
        slots,
        rules,
        width,
        room,
    } = *sizes;
    let i = slots - left;
    let mut count = seen;
    let mut first = 0;
    if own {
        let v = plan[i] as usize;
        if STEPS <= v {
            return count;
        }
        let b = byte_at(arcs, width, i, j, v);
        if step::is_arc(b) {
            let child = child_at(rules, width, i, b);
            if step::goes(rules, coefs, values, i, v, cells, child, trail) {
                if left != 1 {
                    count = node(
                        sizes,
                        coefs,
                        values,
                        arcs,
                        cells,
                        true,
                        left - 1,
                        b - 1,
                        trail,
                        plan,
                        page,
                        count,
                    );
                }
            }
        }
        first = v + 1;
    }
    for v in first..STEPS {
        let b = byte_at(arcs, width, i, j, v);
        if step::is_arc(b) {
            if room < count {
                return count;
            }
            let child = child_at(rules, width, i, b);
            if step::goes(rules, coefs, values, i, v, cells, child, trail) {
                plan[i] = v as u8;
                if left == 1 {
                    count = step::put(plan, slots, room, page, count);
                } else {
                    count = node(
                        sizes,
                        coefs,
                        values,
                        arcs,
                        cells,
                        false,
                        left - 1,
                        b - 1,
                        trail,
                        plan,
                        page,
                        count,
                    );
                }
            }
        }
    }
    count
}

// Of the lawful plans within the ceiling after the start those that are paths of these arcs, as many as fit whole on the page,
// the rest of it zero. The cells hold the numbers of the arcs.
pub fn list<'a>(
    p: Problem,
    coefs: &'a [i32; 232],
    values: &'a [u16; 216],
    w: usize,
    ceiling: i32,
    start: &[u8],
    arcs: &[u8],
    cells: &[i32],
    page: &mut [u8],
) -> Listed
    requires { Ready p w × Tabled p coefs.now values.now × Within 2000000 ceiling × ((length start.now ≡ 0) ⊎ (length start.now ≡ p.slots)) × Formed (campaign_of p) w arcs.now × (cells.now ≡ all_cells (node_need (campaign_of p)) w (down_numbers (campaign_of p) (arcs_in (campaign_of p) w arcs.now)) (up_numbers (campaign_of p) (arcs_in (campaign_of p) w arcs.now))) × (p.slots ≤ length page.old) }
    ensures value { result ≡ listed_as (page_of (length page.old / slots (campaign_of p)) (walked (arcs_in (campaign_of p) w arcs.now) (campaign_of p) ceiling start.now)) }
    ensures page { page.new ≡ page_bytes (length page.old) (page_of (length page.old / slots (campaign_of p)) (walked (arcs_in (campaign_of p) w arcs.now) (campaign_of p) ceiling start.now)) }
{
    let room = page.len() / p.slots;
    let sizes = Sizes {
        slots: p.slots,
        rules: p.rules,
        width: w,
        room,
    };
    let mut trail = [0i32; TRAIL];
    trail[RULES] = ceiling;
    let mut plan = step::begun(start);
    // kept: with `!start.is_empty()` the goal `returns` did not close
    let own = start.len() != 0;
    let seen = node(
        &sizes, coefs, values, arcs, cells, own, p.slots, 0, &mut trail, &mut plan, page, 0,
    );
    step::closed(p.slots, room, seen, page)
}

// The walk over any arcs: those on no path fall, the numbers of the others are reckoned into the cells, and the walk goes along them.
pub fn walk(
    p: Problem,
    w: usize,
    ceiling: i32,
    start: &[u8],
    arcs: &mut [u8],
    cells: &mut [i32],
    page: &mut [u8],
) -> Listed
    requires { Ready p w × Within 2000000 ceiling × ((length start.now ≡ 0) ⊎ (length start.now ≡ p.slots)) × Formed (campaign_of p) w arcs.old × (length cells.old ≡ cells_need (campaign_of p) w) × (p.slots ≤ length page.old) }
    ensures value { result ≡ listed_as (page_of (length page.old / slots (campaign_of p)) (walked (arcs_in (campaign_of p) w arcs.old) (campaign_of p) ceiling start.now)) }
    ensures page { page.new ≡ page_bytes (length page.old) (page_of (length page.old / slots (campaign_of p)) (walked (arcs_in (campaign_of p) w arcs.old) (campaign_of p) ceiling start.now)) }
    ensures arcs { arcs.new ≡ laid 8 w (swept (campaign_of p) (arcs_in (campaign_of p) w arcs.old)) }
    ensures cells { cells.new ≡ all_cells (node_need (campaign_of p)) w (down_numbers (campaign_of p) (arcs_in (campaign_of p) w arcs.old)) (up_numbers (campaign_of p) (arcs_in (campaign_of p) w arcs.old)) }
{
    let mut coefs = [0i32; 232];
    let mut values = [0u16; 216];
    slot::put_parts(p, &mut coefs, &mut values);
    numbers::sweep(p, &coefs, &values, w, 0, arcs, cells);
    list(p, &coefs, &values, w, ceiling, start, arcs, cells, page)
}

// ---- the form of bytes that no builder need have made
// No byte is above `most`.
fn are_at_most(bytes: &[u8], most: usize) -> bool
    ensures { result ≡ true → Each (λ b. b ≤ most) bytes.now }
{
    bytes.iter().all(|&b| usize::from(b) <= most)
}

// They are as many as the arcs of n slots need, each 0 to w, in the last slot 0 or 1.
pub fn is_formed(n: usize, w: usize, arcs: &[u8]) -> bool
    requires { (1 ≤ n) × (n ≤ 24) × (w ≤ 16) }
    ensures { result ≡ true → (q : Campaign) → q.steps ≡ 8 → slots q ≡ n → Formed q w arcs.now }
{
    arcs.len() == STEPS * n * w
        && are_at_most(arcs, w)
        && are_at_most(&arcs[STEPS * (n - 1) * w..], 1)
}
