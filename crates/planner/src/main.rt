// The planner: reads a plan file from standard input and prints its bounds and its lawful plans.
// Where the input is empty it runs the case that is built in.
#![tactic(auto)]

ghost use Rattle.std.specs.Prelude.{◌≡◌, ◌+◌, ◌^◌, ◌<◌};
ghost use Rattle.problem.specs.Held.{held};
ghost use Rattle.planner.specs.Sample.{case_a};

use problem::{Bounds, Problem, RULES, SLOTS, Sound, Terms};
use std::io;

// ---- the problem that is built in: five slots with the steps 0 and 1, and at most one step 1 in each of six pairs of them
const WEIGHTS: [i32; 5] = [-5, -4, -2, -6, -8];

const PAIRS: [[usize; 2]; 6] = [[0, 1], [0, 4], [1, 2], [1, 3], [2, 3], [3, 4]];

// Steps 0 and 1 in each slot.
fn sample_sets() -> [u16; SLOTS]
    ensures { result ≡ (held case_a).sets }
{
    let mut sets = [0; SLOTS];
    sets[..WEIGHTS.len()].fill(0b11);
    sets
}

fn sample_weights() -> [i32; SLOTS]
    ensures { result ≡ (held case_a).weights }
{
    let mut weights = [0; SLOTS];
    weights[..WEIGHTS.len()].copy_from_slice(&WEIGHTS);
    weights
}

// The set of two slots.
fn both(first: usize, second: usize) -> u32
    requires { (first < 5) × (second < 5) }
    ensures { result ≡ 2 ^ first + 2 ^ second }
{
    (1 << first) + (1 << second)
}

// A rule for each pair: those of its slots that have step 1.
fn sample_terms() -> [Terms; RULES]
    ensures { result ≡ (held case_a).terms }
{
    let mut terms = [Terms::Neither; RULES];
    for (k, [first, second]) in PAIRS.iter().enumerate() {
        terms[k] = Terms::Among {
            values: 0b10,
            slots: both(*first, *second),
        };
    }
    terms
}

// There is at most one of them.
fn sample_bounds() -> [Bounds; RULES]
    ensures { result ≡ (held case_a).bounds }
{
    let mut bounds = [Bounds { lb: 0, ub: 0 }; RULES];
    bounds[..PAIRS.len()].fill(Bounds { lb: 0, ub: 1 });
    bounds
}

// The problem that is built in.
fn sample() -> Sound
    ensures { result.problem ≡ held case_a }
{
    Sound {
        problem: Problem {
            slots: WEIGHTS.len(),
            rules: PAIRS.len(),
            sets: sample_sets(),
            weights: sample_weights(),
            terms: sample_terms(),
            bounds: sample_bounds(),
        },
    }
}

// No accepted file is longer than 583 bytes, so the first 4,096 decide.
fn main(rt: HostRuntime) -> io::Result<()> {
    let mut input = [0u8; input::ROOM];
    let file = input::fill(&mut rt.reader(), &mut input)?;
    let mut out = io::writer(&rt);
    if file.is_empty() {
        report::report(&mut out, &sample())
    } else {
        report::report_file(&mut out, file)
    }
}
