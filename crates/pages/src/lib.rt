// A page of lawful plans of a problem: refusals, the relaxed diagram that it builds in the lent buffers, the walk along it.
#![tactic(auto)]

ghost use Rattle.std.specs.Prelude.{◌≡◌, [], true, false, length, ◌⊎◌, IfOk, IfErr, OnErr};
ghost use Rattle.meaning.specs.Problem.{version1};
ghost use Rattle.meaning.specs.Calls.{wrong_start, page_on};
ghost use Rattle.refusal.specs.declared.Refusal as Refusal;
ghost use Rattle.problem.specs.Held.{fault_in, campaign_of};
ghost use Rattle.diagram.specs.Answers.{lent_of};
ghost use Rattle.pages.specs.Answers.{counted_as};

use problem::{Problem, Sound};
use refusal::Refusal;
use step::Listed;

// The start is empty, or as long as a plan.
fn check_start(p: Problem, start: &[u8]) -> Result<(), Refusal>
    requires { fault_in version1 p ≡ 0 }
    ensures ok { IfOk result (λ u. (wrong_start (campaign_of p) start.now ≡ false) × ((length start.now ≡ 0) ⊎ (length start.now ≡ p.slots))) }
    ensures err { IfErr result (λ e. (e ≡ Refusal.WrongStart) × (wrong_start (campaign_of p) start.now ≡ true)) }
{
    if start.len() != 0 && start.len() != p.slots {
        return Err(Refusal::WrongStart);
    }
    Ok(())
}

// The first lawful plans within the ceiling after the start, of a problem without fault: refusals 8, 10, 11, 9.
pub fn page(
    problem: &Sound,
    width: u32,
    rounds: u32,
    ceiling: i32,
    start: &[u8],
    arcs: &mut [u8],
    cells: &mut [i32],
    page: &mut [u8],
) -> Result<Listed, Refusal>
    ensures answer { counted_as result ≡ (page_on (campaign_of problem.now.problem) width rounds ceiling start.now (lent_of arcs.old cells.old page.old)).answer }
    ensures arcs { arcs.new ≡ (page_on (campaign_of problem.now.problem) width rounds ceiling start.now (lent_of arcs.old cells.old page.old)).lent.arcs }
    ensures cells { cells.new ≡ (page_on (campaign_of problem.now.problem) width rounds ceiling start.now (lent_of arcs.old cells.old page.old)).lent.cells }
    ensures page { page.new ≡ (page_on (campaign_of problem.now.problem) width rounds ceiling start.now (lent_of arcs.old cells.old page.old)).lent.plan }
    ensures unchanged { OnErr result ((arcs.new ≡ arcs.old) × (cells.new ≡ cells.old) × (page.new ≡ page.old)) }
{
    diagram::check_numbers(width, rounds, ceiling)?;
    let p = problem.problem;
    check_start(p, start)?;
    diagram::check_plan(p, page)?;
    let mut coefs = [0i32; 232];
    let mut values = [0u16; 216];
    slot::put_parts(p, &mut coefs, &mut values);
    diagram::relaxed_by(
        problem, &coefs, &values, width, rounds, ceiling, arcs, cells,
    )?;
    let w = width as usize;
    let bytes = diagram::arcs_need(p.slots, w);
    let numbers = diagram::cells_need(p.slots, p.rules, w);
    let listed = walk::list(
        p,
        &coefs,
        &values,
        w,
        ceiling,
        start,
        &arcs[..bytes],
        &cells[..numbers],
        page,
    );
    Ok(listed)
}
