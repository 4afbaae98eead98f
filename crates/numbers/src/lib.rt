// The numbers of all nodes of any arcs, into the cells; a round and the closing sweep, which drop the arcs that fail their test.
#![tactic(auto)]

ghost use Rattle.std.specs.Prelude.{◌≡◌, true, ◌⊎◌, [], ◌∷◌, ◌+◌, ◌*◌, ◌<◌, ◌≤◌, length, replicate, pos};
ghost use Rattle.std.proofs.Math.Option.{some};
ghost use Rattle.laws.specs.Z.{Within};
ghost use Rattle.meaning.specs.Filter.{drops, within, swept, down_numbers, up_numbers};
ghost use Rattle.meaning.specs.Buffers.{cells_need, node_need, arcs_in, all_cells};
ghost use Rattle.problem.specs.Held.{campaign_of};
ghost use Rattle.lent.specs.Wide.{laid};
ghost use Rattle.lent.specs.Vec.{row_vec, test_of};
ghost use Rattle.slot.specs.Tables.{leasts_in, mosts_in, Tabled};
ghost use Rattle.numbers.specs.Whole.{Ready, Sized, Bounding, limit_lanes, Formed, half_cells, Standing, Fell};

use lanes::{FAR, LANES, ROW};
use problem::{Problem, RULES, STEPS};
use slot::{LEASTS, MOSTS, SHARES};

// Where the limit stands of what nothing limits.
const REACH: i32 = 2000000;

// The row of a layer with one node, all of whose numbers are zero: the source going down, the sink going up.
pub fn one_node(m: usize) -> [i32; ROW]
    ensures { result ≡ row_vec (some (replicate m (pos 0, pos 0), pos 0) ∷ []) }
{
    let mut row = [FAR; ROW];
    lanes::put_lanes(&mut row, 0, [0; LANES]);
    row
}

// The limit of a round: the bounds of the rules and the ceiling; the lanes that no rule has are out of reach.
fn limit_of(m: usize, coefs: &[i32; 232], ceiling: i32) -> [i32; LANES]
    requires { Bounding m (leasts_in coefs.now) (mosts_in coefs.now) × (length coefs.now ≡ 232) }
    ensures { result ≡ limit_lanes m (leasts_in coefs.now) (mosts_in coefs.now) ceiling }
{
    let mut limit = [REACH; LANES];
    for r in 0..m {
        limit[r] = coefs[MOSTS + r];
        limit[RULES + r] = -coefs[LEASTS + r];
    }
    limit[LANES - 1] = ceiling;
    limit
}

// The down numbers of all nodes, layer by layer, into the cells, with the up numbers at zero. If `from` is not 0, the cells of layers 0 to `from`
// hold their down numbers already.
fn downs(
    p: Problem,
    coefs: &[i32; 232],
    values: &[u16; 216],
    w: usize,
    from: usize,
    arcs: &[u8],
    cells: &mut [i32],
)
    requires sized { Sized p.slots p.rules w (length arcs.now) (length cells.old) }
    requires from { from ≤ p.slots }
    requires place { from * (w * (4 * p.rules + 3)) + w * (4 * p.rules + 3) ≤ length cells.old }
    requires ready { Ready p w × Tabled p coefs.now values.now × Formed (campaign_of p) w arcs.now × (length cells.old ≡ cells_need (campaign_of p) w) × Standing (campaign_of p) w from arcs.now cells.old }
    ensures { cells.new ≡ half_cells (campaign_of p) w (down_numbers (campaign_of p) (arcs_in (campaign_of p) w arcs.now)) }
{
    if from == p.slots {
        return;
    }
    let bytes = w * STEPS;
    let size = w * (4 * p.rules + 3);
    let mut here = one_node(p.rules);
    let mut spare = [FAR; ROW];
    let mut row = [0; SHARES];
    if 0 < from {
        rows::take_downs(
            p.rules,
            w,
            &cells[from * size..from * size + size],
            &mut here,
        );
    }
    for i in from..p.slots {
        rows::put_downs(p.rules, w, &here, &mut cells[i * size..i * size + size]);
        slot::slot_row(coefs, values, i, &mut row);
        rows::next_down(
            w,
            &row,
            &mut here,
            &arcs[i * bytes..i * bytes + bytes],
            &mut spare,
        );
    }
    rows::put_downs(
        p.rules,
        w,
        &here,
        &mut cells[p.slots * size..p.slots * size + size],
    );
}

// The up numbers of all nodes, the last layer first; the arcs that fail the test fall. Gives the first layer that lost an arc, n if
// none did. If none did, or the test is free, the up numbers stand beside the down numbers in the cells; else the cells up to that
// layer are as they were.
fn ups(
    p: Problem,
    coefs: &[i32; 232],
    values: &[u16; 216],
    w: usize,
    free: bool,
    ceiling: i32,
    arcs: &mut [u8],
    cells: &mut [i32],
) -> usize
    requires sized { Sized p.slots p.rules w (length arcs.old) (length cells.old) }
    requires ready { Ready p w × Tabled p coefs.now values.now × Within 2000000 ceiling × Formed (campaign_of p) w arcs.old × (cells.old ≡ half_cells (campaign_of p) w (down_numbers (campaign_of p) (arcs_in (campaign_of p) w arcs.old))) }
    ensures arcs { arcs.new ≡ laid 8 w (drops (test_of free ceiling) (campaign_of p) (arcs_in (campaign_of p) w arcs.old)) }
    ensures cells { (free ≡ true) ⊎ (result ≡ p.slots) → cells.new ≡ all_cells (node_need (campaign_of p)) w (down_numbers (campaign_of p) (arcs_in (campaign_of p) w arcs.old)) (up_numbers (campaign_of p) (arcs_in (campaign_of p) w arcs.old)) }
    ensures first { Fell p.slots (w * 8) (w * (4 * p.rules + 3)) arcs.old arcs.new cells.old cells.new free result }
{
    let bytes = w * STEPS;
    let size = w * (4 * p.rules + 3);
    let limit = limit_of(p.rules, coefs, ceiling);
    let mut next = one_node(p.rules);
    let mut spare = [FAR; ROW];
    let mut room = [FAR; ROW];
    let mut row = [0; SHARES];
    rows::put_ups(
        p.rules,
        w,
        &next,
        &mut cells[p.slots * size..p.slots * size + size],
    );
    // kept: n where no layer lost an arc, in place of an Option: the clause `fixed` of `round` says so
    let mut first = p.slots;
    for i in (0..p.slots).rev() {
        slot::slot_row(coefs, values, i, &mut row);
        if rows::next_up(
            p.rules,
            w,
            &row,
            &mut next,
            free,
            first == p.slots,
            &limit,
            &mut arcs[i * bytes..i * bytes + bytes],
            &mut cells[i * size..i * size + size],
            &mut spare,
            &mut room,
        ) {
            first = i;
        }
    }
    first
}

// A round: all numbers from the arcs present at its start, then the failing arcs fall together. Gives the first layer that lost an
// arc, n if none did. If `from` is not 0, the cells of layers 0 to `from` hold their down numbers already; after it the cells up to the layer
// that it gives hold theirs, or all cells all numbers.
pub fn round(
    p: Problem,
    coefs: &[i32; 232],
    values: &[u16; 216],
    w: usize,
    from: usize,
    ceiling: i32,
    arcs: &mut [u8],
    cells: &mut [i32],
) -> usize
    requires { Ready p w × Tabled p coefs.now values.now × Within 2000000 ceiling × Formed (campaign_of p) w arcs.old × (length cells.old ≡ cells_need (campaign_of p) w) × Standing (campaign_of p) w from arcs.old cells.old }
    ensures arcs { arcs.new ≡ laid 8 w (drops (within ceiling) (campaign_of p) (arcs_in (campaign_of p) w arcs.old)) }
    ensures fixed { result ≡ p.slots → (arcs.new ≡ arcs.old) × (cells.new ≡ all_cells (node_need (campaign_of p)) w (down_numbers (campaign_of p) (arcs_in (campaign_of p) w arcs.old)) (up_numbers (campaign_of p) (arcs_in (campaign_of p) w arcs.old))) }
    ensures stands { result < p.slots → Formed (campaign_of p) w arcs.new → Standing (campaign_of p) w result arcs.new cells.new }
    ensures long { (result ≤ p.slots) × (length cells.new ≡ cells_need (campaign_of p) w) }
{
    downs(p, coefs, values, w, from, arcs, cells);
    ups(p, coefs, values, w, false, ceiling, arcs, cells)
}

// The closing sweep: every arc on no path falls; the cells hold the numbers, which the sweep changes for no node that is present.
// If `from` is not 0, the cells of layers 0 to `from` hold their down numbers already.
pub fn sweep(
    p: Problem,
    coefs: &[i32; 232],
    values: &[u16; 216],
    w: usize,
    from: usize,
    arcs: &mut [u8],
    cells: &mut [i32],
)
    requires { Ready p w × Tabled p coefs.now values.now × Formed (campaign_of p) w arcs.old × (length cells.old ≡ cells_need (campaign_of p) w) × Standing (campaign_of p) w from arcs.old cells.old }
    ensures arcs { arcs.new ≡ laid 8 w (swept (campaign_of p) (arcs_in (campaign_of p) w arcs.old)) }
    ensures cells { cells.new ≡ all_cells (node_need (campaign_of p)) w (down_numbers (campaign_of p) (arcs_in (campaign_of p) w arcs.old)) (up_numbers (campaign_of p) (arcs_in (campaign_of p) w arcs.old)) }
{
    downs(p, coefs, values, w, from, arcs, cells);
    ups(p, coefs, values, w, true, 0, arcs, cells);
}
