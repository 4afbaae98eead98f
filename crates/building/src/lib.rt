// A diagram built layer by layer, relaxed or restricted.
#![tactic(auto)]

ghost use Rattle.std.specs.Prelude.{◌≡◌, map, ◌&&◌, ◌||◌, cond, min, ◌*◌, ◌≤◌, leb, length, replicate, pos};
ghost use Rattle.laws.specs.Lists.{from, padded};
ghost use Rattle.meaning.specs.Problem.{version1};
ghost use Rattle.meaning.specs.Diagram.{built, is_exact};
ghost use Rattle.meaning.specs.Filter.{down_numbers};
ghost use Rattle.meaning.specs.Buffers.{arcs_need, cells_need, arc_bytes};
ghost use Rattle.problem.specs.Held.{fault_in, campaign_of};
ghost use Rattle.state.specs.Pairs.{pairs};
ghost use Rattle.lent.specs.Wide.{wide};
ghost use Rattle.numbers.specs.Whole.{Bounding, half_cells};
ghost use Rattle.slot.specs.Tables.{leasts_in, mosts_in, Tabled};
ghost use Rattle.classes.specs.Classes.{Held, Totalled, arrival_at};
ghost use Rattle.layer.specs.Places.{builder_of};
ghost use Rattle.building.specs.Layers.{bounds_at, Made};

use lanes::{FAR, LANES, ROW};
pub use layer::Builder;
use problem::{Problem, RULES, SLOTS, STEPS};
use slot::{LEASTS, MOSTS, SETS, SHARES};
use state::{Pair, State};

// The lanes of the reaches: of every slot's layer, and of the one after the last.
const REACHES: usize = (SLOTS + 1) * LANES;

// The bounds of the rules as a state: no low above ub, no high below lb.
fn bounds_of(m: usize, coefs: &[i32; 232]) -> State
    requires { Bounding m (leasts_in coefs.now) (mosts_in coefs.now) × (length coefs.now ≡ 232) }
    ensures { pairs result ≡ padded 8 (pos 0, pos 0) (bounds_at m (leasts_in coefs.now) (mosts_in coefs.now)) }
{
    let mut at = [Pair { lo: 0, hi: 0 }; RULES];
    for r in 0..m {
        at[r] = Pair {
            lo: coefs[MOSTS + r],
            hi: -coefs[LEASTS + r],
        };
    }
    State { at }
}

// One layer: the bytes of its arcs. Gives the number of distinct states of their children.
fn build_layer(
    builder: Builder,
    w: usize,
    nodes: usize,
    here: &[i32],
    row: &[i32],
    set: u16,
    limit: State,
    arcs: &mut [u8],
) -> usize
    requires { Held here.now row.now × Totalled here.now nodes × (1 ≤ w) × (w ≤ 16) × (nodes * 8 ≤ length arcs.old) }
    ensures { Made (builder_of builder) w (map (arrival_at here.now row.now set (pairs limit)) (from 0 (nodes * 8))) arcs.old arcs.new result }
{
    let count = classes::find(nodes, here, row, set, limit, arcs);
    layer::place_arcs(builder, w, arcs);
    count
}

// All layers: the arcs, zeros past their need, and the down numbers of their nodes in the cells; says whether the diagram is exact.
pub fn build(
    p: Problem,
    coefs: &[i32; 232],
    values: &[u16; 216],
    builder: Builder,
    w: usize,
    arcs: &mut [u8],
    cells: &mut [i32],
) -> bool
    requires { (fault_in version1 p ≡ 0) × (1 ≤ w) × (w ≤ 16) × (arcs_need (campaign_of p) w ≤ length arcs.old) × (length cells.old ≡ cells_need (campaign_of p) w) × Tabled p coefs.now values.now }
    ensures arcs { arcs.new ≡ arc_bytes (campaign_of p) w (length arcs.old) (built (builder_of builder) (campaign_of p) w) }
    ensures cells { cells.new ≡ half_cells (campaign_of p) w (down_numbers (campaign_of p) (wide 8 w (built (builder_of builder) (campaign_of p) w))) }
    ensures exact { result ≡ is_exact (builder_of builder) (campaign_of p) w }
{
    let bytes = w * STEPS;
    let size = w * (4 * p.rules + 3);
    let bounds = bounds_of(p.rules, coefs);
    let mut table = [0; REACHES];
    let mut row = [0; SHARES];
    reach::reaches(p, coefs, values, &mut table);
    arcs.fill(0);
    let mut here = numbers::one_node(p.rules);
    let mut spare = [FAR; ROW];
    let mut nodes = 1;
    let mut exact = true;
    for i in 0..p.slots {
        rows::put_downs(p.rules, w, &here, &mut cells[i * size..i * size + size]);
        slot::slot_row(coefs, values, i, &mut row);
        let limit = state::less(bounds, state::taken(&table, (i + 1) * LANES));
        let last = i + 1 == p.slots;
        let count = build_layer(
            if last { Builder::Relaxed } else { builder },
            if last { 1 } else { w },
            nodes,
            &here,
            &row,
            values[SETS + i],
            limit,
            &mut arcs[i * bytes..i * bytes + bytes],
        );
        rows::next_down(
            w,
            &row,
            &mut here,
            &arcs[i * bytes..i * bytes + bytes],
            &mut spare,
        );
        nodes = count.min(w);
        exact = exact && (last || count <= w);
    }
    rows::put_downs(
        p.rules,
        w,
        &here,
        &mut cells[p.slots * size..p.slots * size + size],
    );
    exact
}
