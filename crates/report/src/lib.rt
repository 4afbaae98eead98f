// What the planner prints for a problem or a plan file: both bounds, the lawful plans, and how many there are.
// Each line goes out by one write as soon as it is known, and a write that fails ends the report.
#![tactic(auto)]

ghost use Rattle.std.specs.Prelude.{◌≡◌, ◌++◌, ◌*◌, ◌≤◌, IfSome, OnOk, Some, codes, length, slice_index_or};
ghost use Rattle.std.specs.Fmt.{decimal};
ghost use Rattle.std.specs.Io.KnownBytes.{Appends};
ghost use Rattle.report.specs.Lines.{bound_text, steps_text, dual_line, primal_line, plan_line, count_line, refusal_line};

use arrayvec::ArrayVec;
use diagram::Bound;
use problem::{SLOTS, Sound};
use refusal::Refusal;
use std::io::Write;
use std::{fmt, io};
use step::Listed;

// The program's own arguments.
const WIDTH: u32 = 16;

const ROUNDS: u32 = 64;

const CEILING: i32 = 2_000_000;

// As many plans as are listed.
const PLANS: usize = 1000;

// The greatest needs of the buffers.
const ARCS: usize = 3072;

const CELLS: usize = 14_000;

// Room for more than the longest line, a primal of 24 slots, which has 70 bytes.
const LINE: usize = 80;

// ---- the lines, each gathered before it is written
// A bound, and whether the diagram is exact: `-3 exact`, `none open`.
#[derive(Clone, Copy)]
struct BoundText {
    bound: Bound,
}

impl fmt::Display for BoundText {
    ghost output = { λ b. Some (bound_text b.bound) };

    fn fmt<W: fmt::Write>(&self, f: &mut fmt::Formatter<W>) -> fmt::Result {
        match self.bound.value {
            Some(value) => write!(f, "{value}")?,
            None => f.write_str("none")?,
        }
        f.write_str(if self.bound.exact { " exact" } else { " open" })
    }
}

// A step behind its blank, in one piece where it is one of the eight: a piece costs more than the digit.
fn text_of(step: u8) -> Option<&'static str>
    ensures { IfSome result (λ text. text.now ≡ codes " " ++ decimal step) }
{
    match step {
        0 => Some(" 0"),
        1 => Some(" 1"),
        2 => Some(" 2"),
        3 => Some(" 3"),
        4 => Some(" 4"),
        5 => Some(" 5"),
        6 => Some(" 6"),
        7 => Some(" 7"),
        _ => None,
    }
}

// The steps of a plan: ` 0 1 1 0`.
#[derive(Clone, Copy)]
struct Steps<'a> {
    plan: &'a [u8],
}

impl fmt::Display for Steps<'_> {
    ghost output = { λ s. Some (steps_text s.plan.now) };

    fn fmt<W: fmt::Write>(&self, f: &mut fmt::Formatter<W>) -> fmt::Result {
        for step in self.plan {
            match text_of(*step) {
                Some(text) => f.write_str(text)?,
                None => write!(f, " {step}")?,
            }
        }
        Ok(())
    }
}

// `dual 1 exact`
fn print_dual<W: io::Write>(out: &mut W, bound: Bound) -> io::Result<()>
    ensures { OnOk result (Appends (W.contents out.old) (W.contents out.new) (dual_line bound)) }
{
    let mut line = ArrayVec::<u8, LINE>::new();
    writeln!(line, "dual {}", BoundText { bound })?;
    out.write_all(&line)
}

// `primal 1 exact 0 1 1 0`; no steps where there is no bound.
fn print_primal<W: io::Write>(out: &mut W, bound: Bound, plan: &[u8]) -> io::Result<()>
    ensures { OnOk result (Appends (W.contents out.old) (W.contents out.new) (primal_line bound plan.now)) }
{
    let plan = if bound.value.is_some() { plan } else { &[] };
    let mut line = ArrayVec::<u8, LINE>::new();
    writeln!(line, "primal {}{}", BoundText { bound }, Steps { plan })?;
    out.write_all(&line)
}

// `plan 10 0 0 1 1`
fn print_plan<W: io::Write>(out: &mut W, cost: i32, plan: &[u8]) -> io::Result<()>
    ensures { OnOk result (Appends (W.contents out.old) (W.contents out.new) (plan_line cost plan.now)) }
{
    let mut line = ArrayVec::<u8, LINE>::new();
    writeln!(line, "plan {cost}{}", Steps { plan })?;
    out.write_all(&line)
}

// `end 10`, or `more 1000` where a further plan exists.
fn print_count<W: io::Write>(out: &mut W, listed: Listed) -> io::Result<()>
    ensures { OnOk result (Appends (W.contents out.old) (W.contents out.new) (count_line listed.count listed.more)) }
{
    let Listed { count, more } = listed;
    let mut line = ArrayVec::<u8, LINE>::new();
    if more {
        writeln!(line, "more {count}")?;
    } else {
        writeln!(line, "end {count}")?;
    }
    out.write_all(&line)
}

// `refused 4`
fn print_refusal<W: io::Write>(out: &mut W, refusal: Refusal) -> io::Result<()>
    ensures { OnOk result (Appends (W.contents out.old) (W.contents out.new) (refusal_line refusal)) }
{
    let mut line = ArrayVec::<u8, LINE>::new();
    writeln!(line, "{refusal}")?;
    out.write_all(&line)
}

// ---- a problem: right arguments and buffers of the greatest need, so that no operation refuses
// Both bounds.
fn report_bounds<W: io::Write>(
    out: &mut W,
    problem: &Sound,
    arcs: &mut [u8],
    cells: &mut [i32],
) -> io::Result<()> {
    match diagram::relaxed(problem, WIDTH, ROUNDS, CEILING, arcs, cells) {
        Ok(bound) => print_dual(out, bound)?,
        Err(refusal) => print_refusal(out, refusal)?,
    }
    let mut plan = [0u8; SLOTS];
    match diagram::restricted(problem, WIDTH, arcs, cells, &mut plan) {
        Ok(bound) => print_primal(out, bound, &plan[..problem.problem.slots]),
        Err(refusal) => print_refusal(out, refusal),
    }
}

// A line for each plan of a page, and their count.
fn report_page<W: io::Write>(
    out: &mut W,
    problem: &Sound,
    listed: Listed,
    page: &[u8],
) -> io::Result<()> {
    for plan in page.chunks_exact(problem.problem.slots).take(listed.count) {
        let cost = judge::judge_plan(problem, plan).unwrap_or(0);
        print_plan(out, cost, plan)?;
    }
    print_count(out, listed)
}

// The first page of lawful plans.
fn report_plans<W: io::Write>(
    out: &mut W,
    problem: &Sound,
    arcs: &mut [u8],
    cells: &mut [i32],
) -> io::Result<()> {
    let mut page = [0u8; PLANS * SLOTS];
    let page = &mut page[..PLANS * problem.problem.slots];
    match pages::page(problem, WIDTH, ROUNDS, CEILING, &[], arcs, cells, page) {
        Ok(listed) => report_page(out, problem, listed, page),
        Err(refusal) => print_refusal(out, refusal),
    }
}

// Prints what the planner says of a problem. Both bounds are out before the page is asked for; after a write that fails nothing more is printed.
pub fn report<W: io::Write>(out: &mut W, problem: &Sound) -> io::Result<()> {
    let mut arcs = [0u8; ARCS];
    let mut cells = [0i32; CELLS];
    report_bounds(out, problem, &mut arcs, &mut cells)?;
    out.flush()?;
    report_plans(out, problem, &mut arcs, &mut cells)?;
    out.flush()
}

// Prints what the planner says of a plan file: `refused 4`, or the report of its problem.
pub fn report_file<W: io::Write>(out: &mut W, file: &[u8]) -> io::Result<()> {
    match brennigou::problem_of(file) {
        Ok(problem) => report(out, &problem),
        Err(refusal) => {
            print_refusal(out, refusal)?;
            out.flush()
        }
    }
}
