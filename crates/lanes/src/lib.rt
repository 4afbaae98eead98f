// A node's numbers in one direction as lanes: each rule's low, each rule's high with its sign turned, the cost. Least and sum go lane by lane.
#![tactic(auto)]

ghost use Rattle.std.specs.Prelude.{◌≡◌, ◌+◌, ◌<◌, ◌≤◌, length};
ghost use Rattle.std.proofs.Math.Seq.{paste};
ghost use Rattle.laws.specs.Z.{Within, min_z};
ghost use Rattle.laws.proofs.Each.{Each};
ghost use Rattle.lent.specs.Lanes.{lanes_at, arc_at, sums, leasts, at_most};

use problem::{RULES, STEPS, WIDTH};

// A low and a turned high for each rule, and behind them the cost.
pub const LANES: usize = 2 * RULES + 1;

// The lane of the cost.
pub const COST: usize = 2 * RULES;

// The lanes of a layer's row, a node's after another's.
pub const ROW: usize = WIDTH * LANES;

// Where each lane of a node without numbers stands: no running number comes near it.
// kept: a number for none, since an Option in each place of a row makes the pass up take 1.55 times as long.
pub const FAR: i32 = 4000000;

// The lanes that stand at a place of a row.
pub fn lanes_at(row: &[i32], at: usize) -> [i32; LANES]
    requires { at + 17 ≤ length row.now }
    ensures { result ≡ lanes_at row.now at }
{
    let mut x = [0; LANES];
    x.copy_from_slice(&row[at..at + LANES]);
    x
}

// Lanes laid at a place of a row.
pub fn put_lanes(row: &mut [i32], at: usize, x: [i32; LANES])
    requires { at + 17 ≤ length row.old }
    ensures { row.new ≡ paste row.old at x 17 }
{
    row[at..at + LANES].copy_from_slice(&x);
}

// Lane by lane the sum.
pub fn sum_of(x: [i32; LANES], y: [i32; LANES]) -> [i32; LANES]
    requires { Each (Within 10000000) x × Each (Within 10000000) y }
    ensures { result ≡ sums x y }
{
    let mut z = x;
    for k in 0..LANES {
        z[k] = x[k] + y[k];
    }
    z
}

// The lanes with those of an arc of step v added, from a slot's row of shares and prices.
pub fn along(x: [i32; LANES], row: &[i32], v: usize) -> [i32; LANES]
    requires { Each (Within 10000000) x × (length row.now ≡ 72) × Each (Within 10000000) row.now × (v < 8) }
    ensures { result ≡ sums x (arc_at row.now v) }
{
    let mut z = x;
    for k in 0..RULES {
        let share = row[v * RULES + k];
        z[k] = x[k] + share;
        z[RULES + k] = x[RULES + k] - share;
    }
    z[COST] = x[COST] + row[STEPS * RULES + v];
    z
}

// The lesser of two.
pub fn lesser(a: i32, b: i32) -> i32
    ensures { result ≡ min_z a b }
{
    a.min(b)
}

// Lane by lane the least.
pub fn least_of(x: [i32; LANES], y: [i32; LANES]) -> [i32; LANES]
    ensures { result ≡ leasts x y }
{
    let mut z = x;
    for k in 0..LANES {
        z[k] = lesser(x[k], y[k]);
    }
    z
}

// No lane above its limit.
pub fn at_most(x: [i32; LANES], limit: [i32; LANES]) -> bool
    ensures { result ≡ at_most x limit }
{
    if limit[COST] < x[COST] {
        return false;
    }
    // kept: a flag over all lanes, since an early way out was too slow (1,165 ns in place of 695 for a layer).
    let mut ok = true;
    for k in 0..COST {
        if limit[k] < x[k] {
            ok = false;
        }
    }
    ok
}
