// One layer's numbers from its neighbour's, along any arcs: down to the layer below, up from it with the test of each arc, and a node's cells.
#![tactic(auto)]

ghost use Rattle.std.specs.Prelude.{◌≡◌, [], ◌∷◌, ◌++◌, map, true, cond, not, ◌&&◌, ◌||◌, ◌+◌, ◌*◌, ◌-◌, ◌<◌, ◌≤◌, length, take, drop, replicate, pos};
ghost use Rattle.laws.specs.Z.{Within};
ghost use Rattle.laws.specs.Lists.{flat, from, parted, same};
ghost use Rattle.laws.proofs.Each.{Each};
ghost use Rattle.std.proofs.Math.Seq.{paste};
ghost use Rattle.lent.specs.Lanes.{lanes_at, arc_at, sums, leasts};
ghost use Rattle.state.specs.Pairs.{pairs, Inside, unpaired};
ghost use Rattle.lent.specs.Passes.{Slot, Row, Spare, Bytes, HalfNode, HalfCells, bring_node, bring_layer, raise, raise_node, raise_layer, test_byte, test_node, test_layer, node_lanes, down_lanes, room_lanes, down_cells, up_cells, layer_cells};

use lanes::{COST, FAR, LANES};
use problem::{RULES, STEPS};
use state::State;

// An arc of step v brings its node's state and cost to the place of the next layer's row that begins at `to`: states merge, costs take the least.
fn bring_arc(row: &[i32], x: State, cost: i32, v: usize, next: &mut [i32], to: usize)
    requires { Slot row.now × Inside 4000000 (pairs x) × Within 4000000 cost × (v < 8) × (to + 17 ≤ length next.old) × (length next.old ≡ 272) }
    ensures { next.new ≡ paste next.old to (leasts (lanes_at next.old to) (sums (unpaired (pairs x) ++ (cost ∷ [])) (arc_at row.now v))) 17 }
{
    let there = state::taken(next, to);
    let child = state::child(x, row, v);
    let least = lanes::lesser(next[to + COST], cost + row[STEPS * RULES + v]);
    state::laid(next, to, state::merged(there, child));
    next[to + COST] = least;
}

// The arcs of a node bring its state x and its cost down to the next layer's row.
fn bring_node(row: &[i32], x: State, cost: i32, arcs: &[u8], next: &mut [i32])
    requires { Slot row.now × Inside 4000000 (pairs x) × Within 4000000 cost × (length arcs.now ≡ 8) × Bytes arcs.now × (length next.old ≡ 272) }
    ensures { next.new ≡ bring_node row.now (unpaired (pairs x) ++ (cost ∷ [])) 0 arcs.now next.old }
{
    for v in 0..STEPS {
        let b = arcs[v] as usize;
        if b != 0 {
            bring_arc(row, x, cost, v, next, (b - 1) * LANES);
        }
    }
}

// The down numbers that this layer brings to the next; a node without a number brings none.
fn layer_down(w: usize, row: &[i32], here: &[i32], arcs: &[u8], next: &mut [i32])
    requires { (w ≤ 16) × Slot row.now × Row here.now × (length arcs.now ≡ w * 8) × Bytes arcs.now × (length next.old ≡ 272) }
    ensures { next.new ≡ bring_layer row.now here.now 0 (parted w 8 arcs.now) next.old }
{
    for j in 0..w {
        let cost = here[j * LANES + COST];
        if cost != FAR {
            let x = state::taken(here, j * LANES);
            bring_node(row, x, cost, &arcs[j * STEPS..j * STEPS + STEPS], next);
        }
    }
}

// Lanes copied to others. By a loop: with `copy_from_slice` the archive asks C for `memmove`.
fn copy(from: &[i32], to: &mut [i32])
    requires { length from.now ≡ length to.old }
    ensures { to.new ≡ from.now }
{
    for (k, lane) in to.iter_mut().enumerate() {
        *lane = from[k];
    }
}

// The row of one layer becomes that of the next, by the arcs between them; `spare` is room to work in.
pub fn next_down(w: usize, row: &[i32], here: &mut [i32], arcs: &[u8], spare: &mut [i32])
    requires { (w ≤ 16) × Slot row.now × Row here.old × (drop (w * 17) here.old ≡ replicate ((16 - w) * 17) (pos 4000000))
        × (length arcs.now ≡ w * 8) × Each (λ b. b ≤ w) arcs.now × Spare spare.old }
    ensures here_after { here.new ≡ bring_layer row.now here.old 0 (parted w 8 arcs.now) (replicate 272 (pos 4000000)) }
    ensures spare { Spare spare.new }
{
    let front = w * LANES;
    spare[..front].fill(FAR);
    layer_down(w, row, here, arcs, spare);
    copy(&spare[..front], &mut here[..front]);
}

// Every cell zero.
pub fn zero_cells(cells: &mut [i32])
    ensures { cells.new ≡ replicate (length cells.old) (pos 0) }
{
    cells.fill(0);
}

// A node's cells while only its down numbers are known: all zero where it has none, else 1, each rule's pair, the cost; the rest zero.
fn rules_down(m: usize, down: &[i32], cells: &mut [i32])
    requires { (m ≤ 8) × (length down.now ≡ 17) × Each (Within 10000000) down.now × (length cells.old ≡ 4 * m + 3) }
    ensures { cells.new ≡ node_lanes m down.now (replicate 17 (pos 0)) }
{
    if down[COST] == FAR {
        zero_cells(cells);
        return;
    }
    cells[0] = 1;
    for r in 0..m {
        cells[4 * r + 1] = down[r];
        cells[4 * r + 2] = -down[RULES + r];
        cells[4 * r + 3] = 0;
        cells[4 * r + 4] = 0;
    }
    cells[4 * m + 1] = down[COST];
    cells[4 * m + 2] = 0;
}

// The same, where there are eight rules by a count that the compiler knows.
fn put_down(m: usize, down: &[i32], cells: &mut [i32])
    requires { (m ≤ 8) × (length down.now ≡ 17) × Each (Within 10000000) down.now × (length cells.old ≡ 4 * m + 3) }
    ensures { cells.new ≡ node_lanes m down.now (replicate 17 (pos 0)) }
{
    // kept: the branch gives eight rules a count that the compiler knows, which saves 13 % of the time
    if m == RULES {
        rules_down(RULES, down, cells);
    } else {
        rules_down(m, down, cells);
    }
}

// A layer's down numbers to its cells; the up numbers stand at zero there until they are reckoned.
pub fn put_downs(m: usize, w: usize, here: &[i32], cells: &mut [i32])
    requires { (m ≤ 8) × (w ≤ 16) × Row here.now × (length cells.old ≡ w * (4 * m + 3)) }
    ensures { cells.new ≡ flat (map (down_cells m here.now) (from 0 w)) }
{
    let size = 4 * m + 3;
    for j in 0..w {
        put_down(
            m,
            &here[j * LANES..j * LANES + LANES],
            &mut cells[j * size..j * size + size],
        );
    }
}

// The lanes of a node's down numbers from its cells.
fn lanes_down(m: usize, cells: &[i32]) -> [i32; LANES]
    requires { (m ≤ 8) × (length cells.now ≡ 4 * m + 3) × Each (Within 4000000) cells.now }
    ensures { result ≡ down_lanes m cells.now }
{
    if cells[0] == 0 {
        return [FAR; LANES];
    }
    let mut x = [0; LANES];
    for r in 0..m {
        x[r] = cells[4 * r + 1];
        x[RULES + r] = -cells[4 * r + 2];
    }
    x[COST] = cells[4 * m + 1];
    x
}

// A layer's row of down numbers from its cells.
pub fn take_downs(m: usize, w: usize, cells: &[i32], here: &mut [i32])
    requires { (m ≤ 8) × (w ≤ 16) × (length cells.now ≡ w * (4 * m + 3)) × Each (Within 4000000) cells.now × (length here.old ≡ 272) }
    ensures { here.new ≡ flat (map (down_lanes m) (parted w (4 * m + 3) cells.now)) ++ drop (w * 17) here.old }
{
    let size = 4 * m + 3;
    for j in 0..w {
        lanes::put_lanes(
            here,
            j * LANES,
            lanes_down(m, &cells[j * size..j * size + size]),
        );
    }
}

// A node's up numbers beside its down numbers; all zero where it lacks one of them.
fn rules_up(m: usize, up: &[i32], cells: &mut [i32])
    requires { (m ≤ 8) × (length up.now ≡ 17) × Each (Within 10000000) up.now × HalfNode m cells.old }
    ensures { cells.new ≡ node_lanes m (down_lanes m cells.old) up.now }
{
    if cells[0] == 0 {
        return;
    }
    if up[COST] == FAR {
        zero_cells(cells);
        return;
    }
    for r in 0..m {
        cells[4 * r + 3] = up[r];
        cells[4 * r + 4] = -up[RULES + r];
    }
    cells[4 * m + 2] = up[COST];
}

// The same, where there are eight rules by a count that the compiler knows.
fn put_up(m: usize, up: &[i32], cells: &mut [i32])
    requires { (m ≤ 8) × (length up.now ≡ 17) × Each (Within 10000000) up.now × HalfNode m cells.old }
    ensures { cells.new ≡ node_lanes m (down_lanes m cells.old) up.now }
{
    // kept: the branch gives eight rules a count that the compiler knows, which saves 13 % of the time
    if m == RULES {
        rules_up(RULES, up, cells);
    } else {
        rules_up(m, up, cells);
    }
}

// The up numbers of a layer beside its down numbers.
pub fn put_ups(m: usize, w: usize, here: &[i32], cells: &mut [i32])
    requires { (m ≤ 8) × (w ≤ 16) × (length here.now ≡ 272) × Each (Within 10000000) (take (w * 17) here.now) × HalfCells m w cells.old }
    ensures { cells.new ≡ flat (up_cells m here.now 0 (parted w (4 * m + 3) cells.old)) }
{
    let size = 4 * m + 3;
    for j in 0..w {
        put_up(
            m,
            &here[j * LANES..j * LANES + LANES],
            &mut cells[j * size..j * size + size],
        );
    }
}

// What the arcs of a node may still bring up: the limit less its down numbers. A node that has none lets no arc stay, a free one every arc.
fn rules_room(m: usize, free: bool, limit: [i32; LANES], cells: &[i32]) -> [i32; LANES]
    requires { (m ≤ 8) × Each (Within 4000000) limit × (length cells.now ≡ 4 * m + 3) × Each (Within 4000000) cells.now }
    ensures { result ≡ room_lanes m free limit cells.now }
{
    if cells[0] == 0 {
        return [-FAR; LANES];
    }
    if free {
        return [FAR; LANES];
    }
    let mut room = limit;
    for r in 0..m {
        room[r] = limit[r] - cells[4 * r + 1];
        room[RULES + r] = limit[RULES + r] + cells[4 * r + 2];
    }
    room[COST] = limit[COST] - cells[4 * m + 1];
    room
}

// The same, where there are eight rules by a count that the compiler knows.
fn room_of(m: usize, free: bool, limit: [i32; LANES], cells: &[i32]) -> [i32; LANES]
    requires { (m ≤ 8) × Each (Within 4000000) limit × (length cells.now ≡ 4 * m + 3) × Each (Within 4000000) cells.now }
    ensures { result ≡ room_lanes m free limit cells.now }
{
    // kept: the branch gives eight rules a count that the compiler knows, which saves 13 % of the time
    if m == RULES {
        rules_room(RULES, free, limit, cells)
    } else {
        rules_room(m, free, limit, cells)
    }
}

// The rooms of a layer's nodes.
fn rooms(m: usize, w: usize, free: bool, limit: &[i32], cells: &[i32], room: &mut [i32])
    requires { (m ≤ 8) × (w ≤ 16) × (length limit.now ≡ 17) × Each (Within 4000000) limit.now × (length cells.now ≡ w * (4 * m + 3)) × Each (Within 4000000) cells.now × (length room.old ≡ 272) }
    ensures { room.new ≡ flat (map (room_lanes m free limit.now) (parted w (4 * m + 3) cells.now)) ++ drop (w * 17) room.old }
{
    let size = 4 * m + 3;
    let most = lanes::lanes_at(limit, 0);
    for j in 0..w {
        lanes::put_lanes(
            room,
            j * LANES,
            room_of(m, free, most, &cells[j * size..j * size + size]),
        );
    }
}

// What the arc with step v and byte b brings up, and whether it stays: its child has numbers, and it brings no more than the room.
fn raise_arc(
    row: &[i32],
    next: &[i32],
    room: [i32; LANES],
    v: usize,
    b: u8,
    up: [i32; LANES],
) -> ([i32; LANES], bool)
    requires { Slot row.now × Row next.now × (v < 8) × (1 ≤ b) × (b ≤ 16) }
    ensures up { result.0 ≡ raise row.now next.now v b up }
    ensures stays { cond result.1 b 0 ≡ test_byte row.now next.now room v b }
{
    let to = (b as usize - 1) * LANES;
    if next[to + COST] == FAR {
        return (up, false);
    }
    let z = lanes::along(lanes::lanes_at(next, to), row, v);
    (lanes::least_of(up, z), lanes::at_most(z, room))
}

// A node's up numbers over its arcs, each of them tested, and whether an arc fell.
fn raise_node(
    row: &[i32],
    next: &[i32],
    room: [i32; LANES],
    arcs: &mut [u8],
) -> ([i32; LANES], bool)
    requires { Slot row.now × Row next.now × (length arcs.old ≡ 8) × Bytes arcs.old }
    ensures up { result.0 ≡ raise_node row.now next.now 0 arcs.old (replicate 17 (pos 4000000)) }
    ensures arcs { arcs.new ≡ test_node row.now next.now room 0 arcs.old }
    ensures fell { result.1 ≡ not (same arcs.old arcs.new) }
{
    let mut up = [FAR; LANES];
    let mut fell = false;
    for v in 0..STEPS {
        let b = arcs[v];
        if b != 0 {
            let (raised, stays) = raise_arc(row, next, room, v, b, up);
            up = raised;
            arcs[v] = if stays { b } else { 0 };
            fell |= !stays;
        }
    }
    (up, fell)
}

// The up numbers of a layer from those of the next, each arc tested; whether an arc fell.
fn raise(
    w: usize,
    row: &[i32],
    next: &[i32],
    room: &[i32],
    arcs: &mut [u8],
    here: &mut [i32],
) -> bool
    requires { (w ≤ 16) × Slot row.now × Row next.now × (length room.now ≡ 272) × (length here.old ≡ 272) × (length arcs.old ≡ w * 8) × Bytes arcs.old }
    ensures here { here.new ≡ flat (raise_layer row.now next.now (parted w 8 arcs.old)) ++ drop (w * 17) here.old }
    ensures arcs { arcs.new ≡ flat (test_layer row.now next.now (parted w 8 arcs.old) (parted w 17 room.now)) }
    ensures fell { result ≡ not (same arcs.old arcs.new) }
{
    let mut fell = false;
    for j in 0..w {
        let (up, node_fell) = raise_node(
            row,
            next,
            lanes::lanes_at(room, j * LANES),
            &mut arcs[j * STEPS..j * STEPS + STEPS],
        );
        lanes::put_lanes(here, j * LANES, up);
        fell |= node_fell;
    }
    fell
}

// The row of one layer becomes that of the layer before it, and each arc between them is tested; whether an arc fell. The cells of
// that layer get their up numbers if the test is free, or if no arc fell, neither in it nor, as `whole` says, in a layer after it.
// `spare` and `room` are room to work in.
pub fn next_up(
    m: usize,
    w: usize,
    row: &[i32],
    next: &mut [i32],
    free: bool,
    whole: bool,
    limit: &[i32],
    arcs: &mut [u8],
    cells: &mut [i32],
    spare: &mut [i32],
    room: &mut [i32],
) -> bool
    requires { (m ≤ 8) × (w ≤ 16) × Slot row.now × Row next.old × (length limit.now ≡ 17) × Each (Within 4000000) limit.now × (length arcs.old ≡ w * 8) × Bytes arcs.old
        × HalfCells m w cells.old × (length spare.old ≡ 272) × (length room.old ≡ 272) }
    ensures next { next.new ≡ flat (raise_layer row.now next.old (parted w 8 arcs.old)) ++ drop (w * 17) next.old }
    ensures arcs { arcs.new ≡ flat (test_layer row.now next.old (parted w 8 arcs.old) (map (room_lanes m free limit.now) (parted w (4 * m + 3) cells.old))) }
    ensures cells { cells.new ≡ cond (free || (whole && not result)) (flat (layer_cells row.now next.old m (parted w 8 arcs.old) (parted w (4 * m + 3) cells.old))) cells.old }
    ensures fell { result ≡ not (same arcs.old arcs.new) }
    ensures lengths { (length spare.new ≡ 272) × (length room.new ≡ 272) }
{
    rooms(m, w, free, limit, cells, room);
    let fell = raise(w, row, next, room, arcs, spare);
    if free || whole && !fell {
        put_ups(m, w, spare, cells);
    }
    let front = w * LANES;
    next[..front].copy_from_slice(&spare[..front]);
    fell
}
