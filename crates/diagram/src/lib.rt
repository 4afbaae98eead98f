// The relaxed and the restricted diagram of a problem: refusals, both buffers, the bound, the plan shown.
#![tactic(auto)]

ghost use Rattle.std.specs.Prelude.{◌≡◌, [], ◌++◌, true, false, not, ◌+◌, ◌*◌, ◌≤◌, length, get_or, drop, pos, IfOk, IfErr, OnOk, OnErr};
ghost use Rattle.laws.specs.Z.{Within};
ghost use Rattle.meaning.specs.Problem.{version1};
ghost use Rattle.meaning.specs.Diagram.{relaxed, built};
ghost use Rattle.meaning.specs.Filter.{down_numbers, relaxed_arcs, restricted_arcs};
ghost use Rattle.meaning.specs.Buffers.{cells_need, number_cells};
ghost use Rattle.meaning.specs.Calls.{wrong_width, wrong_numbers, short_diagram, short_plan, relaxed_done, restricted_done, relaxed_of, restricted_of};
ghost use Rattle.refusal.specs.declared.Refusal as Refusal;
ghost use Rattle.problem.specs.Held.{fault_in, campaign_of};
ghost use Rattle.lent.specs.Wide.{wide, laid};
ghost use Rattle.lent.specs.Led.{led};
ghost use Rattle.numbers.specs.Whole.{Ready, half_cells};
ghost use Rattle.slot.specs.Tables.{weights_in, Tabled};
ghost use Rattle.diagram.specs.Answers.{bound_as, bound_said, bounded_as, lent_of};
ghost use Rattle.diagram.specs.Open.{Open};
ghost use Rattle.diagram.specs.Leading.{Led, first_cell, Leads};

use building::Builder;
use problem::{Problem, STEPS, Sound, WIDTH};
use refusal::Refusal;
use slot::WEIGHTS;

// The greatest number of rounds, and distance of a ceiling from 0.
const ROUNDS: u32 = 64;

const LIMIT: i32 = 2_000_000;

// The least cost that the diagram has, if it has a plan; is it exact.
#[derive(Clone, Copy, Debug, PartialEq, Eq)]
pub struct Bound {
    pub value: Option<i32>,
    pub exact: bool,
}

// The width is 1 to 16.
pub fn width_is_right(w: u32) -> bool
    ensures { result ≡ not (wrong_width w) }
{
    1 <= w && w <= WIDTH as u32
}

// The width is 1 to 16, there are at most 64 rounds, and the ceiling is within 2,000,000.
pub fn numbers_are_right(w: u32, rounds: u32, ceiling: i32) -> bool
    ensures { result ≡ not (wrong_numbers w rounds ceiling) }
{
    width_is_right(w) && rounds <= ROUNDS && -LIMIT <= ceiling && ceiling <= LIMIT
}

// The bytes that the arcs need.
pub fn arcs_need(n: usize, w: usize) -> usize
    requires { (n ≤ 24) × (w ≤ 16) }
    ensures { result ≡ 8 * n * w }
{
    STEPS * n * w
}

// The cells that the numbers need.
pub fn cells_need(n: usize, m: usize, w: usize) -> usize
    requires { (n ≤ 24) × (m ≤ 8) × (w ≤ 16) }
    ensures { result ≡ (n + 1) * w * (4 * m + 3) }
{
    (n + 1) * w * (4 * m + 3)
}

// ---- refusals
// The numbers of a call of the relaxed diagram.
pub fn check_numbers(w: u32, rounds: u32, ceiling: i32) -> Result<(), Refusal>
    ensures ok { IfOk result (λ u. (wrong_numbers w rounds ceiling ≡ false) × (1 ≤ w) × (w ≤ 16) × Within 2000000 ceiling) }
    ensures err { IfErr result (λ e. (e ≡ Refusal.WrongArguments) × (wrong_numbers w rounds ceiling ≡ true)) }
{
    if !numbers_are_right(w, rounds, ceiling) {
        return Err(Refusal::WrongArguments);
    }
    Ok(())
}

// The width, which is all that a call of the restricted diagram has.
fn check_width(w: u32) -> Result<(), Refusal>
    ensures ok { IfOk result (λ u. (wrong_width w ≡ false) × (1 ≤ w) × (w ≤ 16)) }
    ensures err { IfErr result (λ e. (e ≡ Refusal.WrongArguments) × (wrong_width w ≡ true)) }
{
    if !width_is_right(w) {
        return Err(Refusal::WrongArguments);
    }
    Ok(())
}

// Both buffers have room for the diagram.
fn check_room(p: Problem, w: usize, arcs: &[u8], cells: &[i32]) -> Result<(), Refusal>
    requires { Ready p w }
    ensures ok { IfOk result (λ u. (short_diagram (campaign_of p) w (lent_of arcs.now cells.now []) ≡ false) × Open p w arcs.now cells.now) }
    ensures err { IfErr result (λ e. (e ≡ Refusal.ShortBuffer) × (short_diagram (campaign_of p) w (lent_of arcs.now cells.now []) ≡ true)) }
{
    let bytes = arcs_need(p.slots, w);
    let numbers = cells_need(p.slots, p.rules, w);
    if arcs.len() < bytes || cells.len() < numbers {
        return Err(Refusal::ShortBuffer);
    }
    Ok(())
}

// A buffer has room for a plan.
pub fn check_plan(p: Problem, plan: &[u8]) -> Result<(), Refusal>
    requires { fault_in version1 p ≡ 0 }
    ensures ok { IfOk result (λ u. (short_plan (campaign_of p) (lent_of [] [] plan.now) ≡ false) × (p.slots ≤ length plan.now)) }
    ensures err { IfErr result (λ e. (e ≡ Refusal.ShortBuffer) × (short_plan (campaign_of p) (lent_of [] [] plan.now) ≡ true)) }
{
    if plan.len() < p.slots {
        return Err(Refusal::ShortBuffer);
    }
    Ok(())
}

// The asked number of rounds and the closing sweep. Behind a round that drops nothing neither would change anything.
fn filter(
    p: &Problem,
    coefs: &[i32; 232],
    values: &[u16; 216],
    w: usize,
    rounds: u32,
    ceiling: i32,
    arcs: &mut [u8],
    cells: &mut [i32],
)
    requires { Ready p.now w × Within 2000000 ceiling × (arcs.old ≡ laid 8 w (built relaxed (campaign_of p.now) w)) × (cells.old ≡ half_cells (campaign_of p.now) w (down_numbers (campaign_of p.now) (wide 8 w (built relaxed (campaign_of p.now) w)))) × Tabled p.now coefs.now values.now }
    ensures arcs { arcs.new ≡ laid 8 w (relaxed_arcs (campaign_of p.now) w rounds ceiling) }
    ensures cells { cells.new ≡ number_cells (campaign_of p.now) w (cells_need (campaign_of p.now) w) (relaxed_arcs (campaign_of p.now) w rounds ceiling) }
{
    let n = p.slots;
    let mut from = n;
    for _round in 0..rounds {
        from = numbers::round(*p, coefs, values, w, from, ceiling, arcs, cells);
        if from == n {
            return;
        }
    }
    numbers::sweep(*p, coefs, values, w, from, arcs, cells);
}

// The bound that stands in the cells: the sink's cost down, none if the source is absent.
fn bound_of(n: usize, m: usize, w: usize, cells: &[i32], exact: bool) -> Bound
    requires { (n ≤ 24) × (m ≤ 8) × (1 ≤ w) × (w ≤ 16) × ((n + 1) * w * (4 * m + 3) ≤ length cells.now) }
    ensures { bound_as result.value result.exact ≡ bound_said (get_or cells.now 0 (pos 0)) (get_or cells.now (n * w * (4 * m + 3) + 4 * m + 1) (pos 0)) exact }
{
    let at = n * w * (4 * m + 3) + 4 * m + 1;
    let bound = cells[at];
    let value = if cells[0] == 0 { None } else { Some(bound) };
    Bound { value, exact }
}

// The relaxed diagram, by the tables of the problem, in buffers that have room.
fn relax(
    p: &Problem,
    coefs: &[i32; 232],
    values: &[u16; 216],
    w: usize,
    rounds: u32,
    ceiling: i32,
    arcs: &mut [u8],
    cells: &mut [i32],
) -> Bound
    requires open { Open p.now w arcs.old cells.old }
    requires small { Within 2000000 ceiling }
    requires tables { Tabled p.now coefs.now values.now }
    ensures value { bound_as result.value result.exact ≡ (relaxed_done (campaign_of p.now) w rounds ceiling (lent_of arcs.old cells.old [])).answer }
    ensures arcs { arcs.new ≡ (relaxed_done (campaign_of p.now) w rounds ceiling (lent_of arcs.old cells.old [])).lent.arcs }
    ensures cells { cells.new ≡ (relaxed_done (campaign_of p.now) w rounds ceiling (lent_of arcs.old cells.old [])).lent.cells }
{
    let bytes = arcs_need(p.slots, w);
    let numbers = cells_need(p.slots, p.rules, w);
    let exact = building::build(
        *p,
        coefs,
        values,
        Builder::Relaxed,
        w,
        arcs,
        &mut cells[..numbers],
    );
    rows::zero_cells(&mut cells[numbers..]);
    filter(
        p,
        coefs,
        values,
        w,
        rounds,
        ceiling,
        &mut arcs[..bytes],
        &mut cells[..numbers],
    );
    bound_of(p.slots, p.rules, w, cells, exact)
}

// The relaxed diagram by the tables of a problem without fault: refusals 8, 11, 9.
pub fn relaxed_by(
    problem: &Sound,
    coefs: &[i32; 232],
    values: &[u16; 216],
    width: u32,
    rounds: u32,
    ceiling: i32,
    arcs: &mut [u8],
    cells: &mut [i32],
) -> Result<Bound, Refusal>
    requires { Tabled problem.now.problem coefs.now values.now }
    ensures answer { bounded_as result ≡ (relaxed_of (campaign_of problem.now.problem) width rounds ceiling (lent_of arcs.old cells.old [])).answer }
    ensures arcs { arcs.new ≡ (relaxed_of (campaign_of problem.now.problem) width rounds ceiling (lent_of arcs.old cells.old [])).lent.arcs }
    ensures cells { cells.new ≡ (relaxed_of (campaign_of problem.now.problem) width rounds ceiling (lent_of arcs.old cells.old [])).lent.cells }
    ensures room { OnOk result (Open problem.now.problem width arcs.old cells.old) }
    ensures unchanged { OnErr result ((arcs.new ≡ arcs.old) × (cells.new ≡ cells.old)) }
{
    check_numbers(width, rounds, ceiling)?;
    let w = width as usize;
    check_room(problem.problem, w, arcs, cells)?;
    guard::guard_of(&problem.problem)?;
    Ok(relax(
        &problem.problem,
        coefs,
        values,
        w,
        rounds,
        ceiling,
        arcs,
        cells,
    ))
}

// The relaxed diagram of a problem without fault: refusals 8, 11, 9.
pub fn relaxed(
    problem: &Sound,
    width: u32,
    rounds: u32,
    ceiling: i32,
    arcs: &mut [u8],
    cells: &mut [i32],
) -> Result<Bound, Refusal>
    ensures answer { bounded_as result ≡ (relaxed_of (campaign_of problem.now.problem) width rounds ceiling (lent_of arcs.old cells.old [])).answer }
    ensures arcs { arcs.new ≡ (relaxed_of (campaign_of problem.now.problem) width rounds ceiling (lent_of arcs.old cells.old [])).lent.arcs }
    ensures cells { cells.new ≡ (relaxed_of (campaign_of problem.now.problem) width rounds ceiling (lent_of arcs.old cells.old [])).lent.cells }
    ensures unchanged { OnErr result ((arcs.new ≡ arcs.old) × (cells.new ≡ cells.old)) }
{
    let mut coefs = [0i32; 232];
    let mut values = [0u16; 216];
    slot::put_parts(problem.problem, &mut coefs, &mut values);
    relaxed_by(
        problem, &coefs, &values, width, rounds, ceiling, arcs, cells,
    )
}

// The first step of a node along which its cost up is reached, 8 where there is none: its arcs, and the cells of the next layer.
// kept: an `Option` would be no plainer, since the one caller knows that there is such a step.
fn first_step(weight: i32, m: usize, arcs: &[u8], cells: &[i32], cost: i32) -> usize
    requires { Led m weight arcs.now cells.now }
    ensures { (result ≡ first_cell m weight cells.now cost 0 arcs.now) × (result ≤ 8) }
{
    for v in 0..STEPS {
        let b = arcs[v] as usize;
        if b != 0 {
            let c = cells[(b - 1) * (4 * m + 3) + 4 * m + 2];
            if c + problem::price(weight, v) == cost {
                return v;
            }
        }
    }
    STEPS
}

// The cheapest path, of equal ones the first in dictionary order, along the costs up.
fn lead(p: Problem, coefs: &[i32; 232], w: usize, arcs: &[u8], cells: &[i32], plan: &mut [u8])
    requires { Leads p w arcs.now cells.now × (weights_in coefs.now ≡ p.weights) × (length coefs.now ≡ 232) × (p.slots ≤ length plan.old) }
    ensures { plan.new ≡ led (campaign_of p) 0 (restricted_arcs (campaign_of p) w) 0 ++ drop p.slots plan.old }
{
    let m = p.rules;
    let size = w * (4 * m + 3);
    let mut j: usize = 0;
    for i in 0..p.slots {
        let at = (i * w + j) * STEPS;
        let cost = cells[(i * w + j) * (4 * m + 3) + 4 * m + 2];
        let weight = coefs[WEIGHTS + i];
        let v = first_step(
            weight,
            m,
            &arcs[at..at + STEPS],
            &cells[(i + 1) * size..(i + 1) * size + size],
            cost,
        );
        plan[i] = v as u8;
        j = arcs[at + v] as usize - 1;
    }
}

// The restricted diagram and the plan shown, in buffers that have room.
fn restrict(p: Problem, w: usize, arcs: &mut [u8], cells: &mut [i32], plan: &mut [u8]) -> Bound
    requires open { Open p w arcs.old cells.old }
    requires plan { p.slots ≤ length plan.old }
    ensures value { bound_as result.value result.exact ≡ (restricted_done (campaign_of p) w (lent_of arcs.old cells.old plan.old)).answer }
    ensures arcs { arcs.new ≡ (restricted_done (campaign_of p) w (lent_of arcs.old cells.old plan.old)).lent.arcs }
    ensures cells { cells.new ≡ (restricted_done (campaign_of p) w (lent_of arcs.old cells.old plan.old)).lent.cells }
    ensures plan { plan.new ≡ (restricted_done (campaign_of p) w (lent_of arcs.old cells.old plan.old)).lent.plan }
{
    let bytes = arcs_need(p.slots, w);
    let numbers = cells_need(p.slots, p.rules, w);
    let mut coefs = [0i32; 232];
    let mut values = [0u16; 216];
    slot::put_parts(p, &mut coefs, &mut values);
    let exact = building::build(
        p,
        &coefs,
        &values,
        Builder::Restricted,
        w,
        arcs,
        &mut cells[..numbers],
    );
    rows::zero_cells(&mut cells[numbers..]);
    numbers::sweep(
        p,
        &coefs,
        &values,
        w,
        p.slots,
        &mut arcs[..bytes],
        &mut cells[..numbers],
    );
    plan.fill(0);
    if cells[0] != 0 {
        lead(p, &coefs, w, &arcs[..bytes], &cells[..numbers], plan);
    }
    bound_of(p.slots, p.rules, w, cells, exact)
}

// The restricted diagram of a problem without fault: refusals 8, 11, 9.
pub fn restricted(
    problem: &Sound,
    width: u32,
    arcs: &mut [u8],
    cells: &mut [i32],
    plan: &mut [u8],
) -> Result<Bound, Refusal>
    ensures answer { bounded_as result ≡ (restricted_of (campaign_of problem.now.problem) width (lent_of arcs.old cells.old plan.old)).answer }
    ensures arcs { arcs.new ≡ (restricted_of (campaign_of problem.now.problem) width (lent_of arcs.old cells.old plan.old)).lent.arcs }
    ensures cells { cells.new ≡ (restricted_of (campaign_of problem.now.problem) width (lent_of arcs.old cells.old plan.old)).lent.cells }
    ensures plan { plan.new ≡ (restricted_of (campaign_of problem.now.problem) width (lent_of arcs.old cells.old plan.old)).lent.plan }
    ensures unchanged { OnErr result ((arcs.new ≡ arcs.old) × (cells.new ≡ cells.old) × (plan.new ≡ plan.old)) }
{
    check_width(width)?;
    let p = problem.problem;
    let w = width as usize;
    check_room(p, w, arcs, cells)?;
    check_plan(p, plan)?;
    guard::guard_of(&p)?;
    Ok(restrict(p, w, arcs, cells, plan))
}
