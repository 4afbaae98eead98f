// Which problem does a plan file say, or which fault is its first?
#![tactic(auto)]

ghost use Rattle.std.specs.Prelude.{◌≡◌, ◌*◌, ◌≤◌, replicate};
ghost use Rattle.meaning.specs.Problem.{version1};
ghost use Rattle.meaning.specs.File.{problem_next, rules_next, body_next, among_body, sum_body};
ghost use Rattle.meaning.specs.Calls.{read_answer, read};
ghost use Rattle.problem.specs.declared.TheConstants.{SLOTS};
ghost use Rattle.problem.specs.declared.Terms.TheVariants.{Neither};
ghost use Rattle.problem.specs.Held.{no_bounds};
ghost use Rattle.cursor.specs.Fields.{got_of, field_next};
ghost use Rattle.rtp.specs.Reading.{rule_next, bounds_said, onto, parts_of, all_parts, both_of, laid_of, said_nothing, read_as, reading_of, filled_of, reading_in};

use cursor::Cursor;
use problem::{Bounds, Problem, RULES, SLOTS, Terms};
use refusal::Refusal;

// The letters that a plan file begins with, and its version.
pub const MARK: [u8; 3] = *b"RTP";

const VERSION: u16 = 1;

// A problem that says nothing: all zero.
pub const NOTHING: Problem = Problem {
    slots: 0,
    rules: 0,
    sets: [0; SLOTS],
    weights: [0; SLOTS],
    terms: [Terms::Neither; RULES],
    bounds: [Bounds { lb: 0, ub: 0 }; RULES],
};

// lb and ub.
fn bounds_at(cursor: Cursor<'_>) -> Result<(Bounds, Cursor<'_>), Refusal>
    ensures { got_of (λ b. b) result ≡ field_next 8 bounds_said cursor.entry.rest.now }
{
    let (lb, next) = cursor.int()?;
    let (ub, next) = next.int()?;
    Ok((Bounds { lb, ub }, next))
}

// The body of an among rule: S, the slots, lb and ub. It is tested once all of it is there.
fn among(body: Cursor<'_>, n: usize) -> Result<(Terms, Bounds, Cursor<'_>), Refusal>
    requires { n ≤ SLOTS }
    ensures { both_of result ≡ onto parts_of (body_next version1 n 5 (among_body version1) body.entry.rest.now) }
{
    let (values, next) = body.byte()?;
    let (slots, next) = next.word()?;
    let (bounds, next) = bounds_at(next)?;
    if !problem::slots_are_right(slots, n) || !bounds.are_right() {
        return Err(Refusal::WrongRule);
    }
    let values = u16::from(values);
    Ok((Terms::Among { values, slots }, bounds, next))
}

// The body of a sum rule: n coefficients, lb and ub.
fn sum(body: Cursor<'_>, n: usize) -> Result<(Terms, Bounds, Cursor<'_>), Refusal>
    requires { n ≤ SLOTS }
    ensures { both_of result ≡ onto parts_of (body_next version1 n (n * 2) (sum_body version1 n) body.entry.rest.now) }
{
    let (coefs, next) = body.coefs(n)?;
    let (bounds, next) = bounds_at(next)?;
    if !problem::coefs_are_right(&coefs[..n]) || !bounds.are_right() {
        return Err(Refusal::WrongRule);
    }
    Ok((Terms::Sum { coefs }, bounds, next))
}

// A rule: the kind byte decides what follows.
fn rule_at(cursor: Cursor<'_>, n: usize) -> Result<(Terms, Bounds, Cursor<'_>), Refusal>
    requires { n ≤ SLOTS }
    ensures { both_of result ≡ onto parts_of (rule_next n cursor.entry.rest.now) }
{
    let (kind, next) = cursor.byte()?;
    match kind {
        1 => among(next, n),
        2 => sum(next, n),
        _ => Err(Refusal::WrongRule),
    }
}

// m rules, each where the one before ended, up to the first that is refused, into arrays in which there is none. The arrays are lent: handed back
// by value they are copied four times, and reading a file takes 1.4 times as long.
fn rules_at<'a>(
    cursor: Cursor<'a>,
    n: usize,
    m: usize,
    terms: &mut [Terms; RULES],
    bounds: &mut [Bounds; RULES],
) -> Result<Cursor<'a>, Refusal>
    requires slots { n ≤ SLOTS }
    requires rules { m ≤ RULES }
    requires none { (terms.old ≡ replicate 8 Neither) × (bounds.old ≡ replicate 8 no_bounds) }
    ensures { laid_of result terms.new bounds.new ≡ onto all_parts (rules_next version1 n m cursor.entry.rest.now) }
{
    let mut next = cursor;
    for k in 0..m {
        let (counted, within, behind) = rule_at(next, n)?;
        terms[k] = counted;
        bounds[k] = within;
        next = behind;
    }
    Ok(next)
}

// Behind the head: n step sets, n weights, m rules, and nothing after them, into a problem that says nothing yet. It is lent, since a problem is 1 KB
// and each hand-over of it by value a copy.
fn sections(cursor: Cursor<'_>, n: usize, m: usize, problem: &mut Problem) -> Result<(), Refusal>
    requires nothing { problem.old ≡ said_nothing }
    ensures { filled_of result problem.new ≡ read_as (read_answer (problem_next version1 n m cursor.entry.rest.now)) }
{
    if !problem::head_is_right(n, m) {
        return Err(Refusal::WrongSize);
    }
    let (sets, next) = cursor.sets(n)?;
    if !problem::sets_are_right(&sets[..n]) {
        return Err(Refusal::WrongSlot);
    }
    let (weights, next) = next.weights(n)?;
    if !problem::weights_are_right(&weights[..n]) {
        return Err(Refusal::WrongSlot);
    }
    problem.slots = n;
    problem.rules = m;
    problem.sets = sets;
    problem.weights = weights;
    let next = rules_at(next, n, m, &mut problem.terms, &mut problem.bounds)?;
    if !next.rest.is_empty() {
        return Err(Refusal::BytesLeft);
    }
    Ok(())
}

// The fields of a plan file, into a problem that says nothing yet. What it has after a refusal is open.
fn fill(file: &[u8], problem: &mut Problem) -> Result<(), Refusal>
    requires nothing { problem.old ≡ said_nothing }
    ensures { filled_of result problem.new ≡ read_as (read file.now) }
{
    let ([r, t, p, low, high, slots, rules], next) = Cursor { rest: file }.array::<7>()?;
    if [r, t, p] != MARK {
        return Err(Refusal::WrongMark);
    }
    if u16::from_le_bytes([low, high]) != VERSION {
        return Err(Refusal::WrongVersion);
    }
    sections(next, usize::from(slots), usize::from(rules), problem)
}

// What a plan file says, into a problem that says nothing; after a refusal it says nothing again. Not inlined, so that the archive has it once.
#[inline(never)]
pub fn read_into(file: &[u8], problem: &mut Problem) -> Result<(), Refusal>
    requires nothing { problem.old ≡ said_nothing }
    ensures { reading_in result problem.new ≡ read_as (read file.now) }
{
    let answer = fill(file, problem);
    if answer.is_err() {
        *problem = NOTHING;
    }
    answer
}

// What a plan file says.
pub fn read(file: &[u8]) -> Result<Problem, Refusal>
    ensures { reading_of result ≡ read_as (read file.now) }
{
    let mut problem = NOTHING;
    read_into(file, &mut problem)?;
    Ok(problem)
}
