// The reach: for each rule and layer, the least and greatest total that the slots from there on can add.
#![tactic(auto)]

ghost use Rattle.std.specs.Prelude.{◌≡◌, length, ◌<◌};
ghost use Rattle.laws.specs.Z.{Within};
ghost use Rattle.laws.proofs.Each.{Each};
ghost use Rattle.meaning.specs.Plan.{steps_of};
ghost use Rattle.meaning.specs.Problem.{step_count, version1};
ghost use Rattle.problem.specs.Held.{fault_in, campaign_of};
ghost use Rattle.slot.specs.Tables.{Tabled};
ghost use Rattle.reach.specs.Spans.{step_lanes, least_over, Reached};

use lanes::{FAR, LANES};
use problem::{Problem, RULES, STEPS};
use slot::{Parts, SETS};

// The lanes of step v by a slot's parts: each rule's share, and the share with its sign turned; the cost lane is zero.
fn step_lanes(p: Parts, v: usize) -> [i32; LANES]
    requires { (v < step_count) × Each (Within 1000) p.coefs }
    ensures { result ≡ step_lanes p.coefs p.values v }
{
    let mut lanes = [0; LANES];
    for r in 0..RULES {
        let share = slot::lane(p.coefs[r], p.values[r], v);
        lanes[r] = share;
        lanes[RULES + r] = -share;
    }
    lanes
}

// Lane by lane the least over the steps of a set: each rule's least share, and its greatest with the sign turned; zero where it has none of the steps.
fn span(p: Parts, set: u16) -> [i32; LANES]
    requires { Each (Within 1000) p.coefs }
    ensures { result ≡ least_over (step_lanes p.coefs p.values) (steps_of step_count set) }
{
    if set % 256 == 0 {
        return [0; LANES];
    }
    let mut least = [FAR; LANES];
    for v in 0..STEPS {
        if problem::allows(set, v) {
            // kept: a second name, since the check does not cover a call whose result is laid in an array that was lent
            let lower = lanes::least_of(least, step_lanes(p, v));
            least = lower;
        }
    }
    least
}

// The reach of every layer into a table, 17 lanes to a layer; layer n, behind the last slot, has zeros.
pub fn reaches(p: Problem, coefs: &[i32; 232], values: &[u16; 216], table: &mut [i32])
    requires { (fault_in version1 p ≡ 0) × Tabled p coefs.now values.now × (length table.old ≡ 425) }
    ensures { Reached (campaign_of p) table.new }
{
    lanes::put_lanes(table, p.slots * LANES, [0; LANES]);
    for i in (0..p.slots).rev() {
        let here = span(slot::parts_at(coefs, values, i), values[SETS + i]);
        let rest = lanes::lanes_at(table, (i + 1) * LANES);
        lanes::put_lanes(table, i * LANES, lanes::sum_of(here, rest));
    }
}
