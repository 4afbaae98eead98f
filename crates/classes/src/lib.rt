// The children of a layer's nodes: which of them have equal states and are one class.
#![tactic(auto)]

ghost use Rattle.std.specs.Prelude.{◌≡◌, [], ◌++◌, map, ◌+◌, ◌*◌, ◌<◌, ◌≤◌, length, drop};
ghost use Rattle.laws.specs.Lists.{from};
ghost use Rattle.meaning.specs.Diagram.{distinct};
ghost use Rattle.state.specs.Pairs.{pairs, bucket_of};
ghost use Rattle.classes.specs.Classes.{Held, Totalled, Keyed, state_at, arrival_at, classes_of, class_byte, byte_of, Seen, Fresh, Found, Arrived, Classed};

use lanes::LANES;
use problem::{STEPS, WIDTH};
use state::{BUCKETS, State};

// The children of a layer's nodes.
const CHILDREN: usize = WIDTH * STEPS;

// A key for each node, and behind them one for each step.
const KEYS: usize = WIDTH + STEPS;

// The state of child f of a layer's nodes: by node after node, and step after step.
fn child_state(here: &[i32], row: &[i32], f: usize) -> State
    requires { Held here.now row.now × (f < 128) }
    ensures { pairs result ≡ state_at here.now row.now f }
{
    state::child(state::taken(here, f / STEPS * LANES), row, f % STEPS)
}

// The keys of a layer's nodes, and behind them those of the steps' shares.
fn keys_of(nodes: usize, here: &[i32], row: &[i32]) -> [i32; KEYS]
    requires { Held here.now row.now × Totalled here.now nodes }
    ensures { Keyed here.now row.now nodes result }
{
    let mut keys = [0; KEYS];
    for j in 0..nodes {
        keys[j] = state::key(state::taken(here, j * LANES));
    }
    for v in 0..STEPS {
        keys[WIDTH + v] = state::key(state::shares(row, v));
    }
    keys
}

// The classes found so far, each by its first child, in one chain for each bucket from the newest to the oldest.
// A byte of `heads` and `older` is a class plus 1, or 0 at a chain's end.
#[derive(Drop)]
struct Chains {
    count: usize,
    firsts: [u8; CHILDREN],
    older: [u8; CHILDREN],
    heads: [u8; BUCKETS],
}

impl Chains {
    // The class that has a state of this bucket.
    fn class_of(&self, t: State, bucket: usize, here: &[i32], row: &[i32]) -> Option<usize>
        requires { Held here.now row.now × Seen here.now row.now self.now × (bucket ≡ bucket_of (pairs t)) }
        ensures { Found (pairs t) (classes_of here.now row.now self.now) result }
    {
        let mut c = self.heads[bucket] as usize;
        // kept: it follows a chain of places and counts nothing; a chain by places takes no heap
        while c != 0 {
            let f = self.firsts[c - 1] as usize;
            if state::same(t, child_state(here, row, f)) {
                return Some(c - 1);
            }
            c = self.older[c - 1] as usize;
        }
        None
    }

    // The class of child f with this state: a new one where no class has it.
    fn arrive(&mut self, t: State, bucket: usize, f: usize, here: &[i32], row: &[i32]) -> usize
        requires { Held here.now row.now × Seen here.now row.now self.old × Fresh here.now row.now f self.old.count (pairs t) × (bucket ≡ bucket_of (pairs t)) }
        ensures { Arrived here.now row.now self.old self.new (pairs t) result }
    {
        match self.class_of(t, bucket, here, row) {
            Some(class) => class,
            None => {
                let class = self.count;
                self.firsts[class] = f as u8;
                self.older[class] = self.heads[bucket];
                self.heads[bucket] = (class + 1) as u8;
                self.count = class + 1;
                class
            }
        }
    }

    // The class of child f, where its arc is there.
    fn class_at(
        &mut self,
        f: usize,
        here: &[i32],
        row: &[i32],
        keys: &[i32],
        nodes: usize,
        set: u16,
        limit: State,
    ) -> Option<usize>
        requires { Held here.now row.now × Keyed here.now row.now nodes keys.now × Seen here.now row.now self.old × (self.old.count ≤ f) × (f < nodes * 8) }
        ensures { Classed here.now row.now self.old self.new (arrival_at here.now row.now set (pairs limit) f) result }
    {
        if !problem::allows(set, f % STEPS) {
            return None;
        }
        let t = child_state(here, row, f);
        if !state::fits(t, limit) {
            return None;
        }
        let bucket = state::bucket(keys[f / STEPS] + keys[WIDTH + f % STEPS]);
        Some(self.arrive(t, bucket, f, here, row))
    }
}

// The byte of an arc: its class plus 1, 0 for no arc.
fn byte_of(class: Option<usize>) -> u8
    requires { byte_of class < 256 }
    ensures { result ≡ byte_of class }
{
    match class {
        None => 0,
        Some(k) => (k + 1) as u8,
    }
}

// First pass: the class of each child of each node plus 1, 0 for no arc. Gives the number of classes.
pub fn find(
    nodes: usize,
    here: &[i32],
    row: &[i32],
    set: u16,
    limit: State,
    arcs: &mut [u8],
) -> usize
    requires { Held here.now row.now × Totalled here.now nodes × (nodes * 8 ≤ length arcs.old) }
    ensures value { result ≡ length (distinct [] (map (arrival_at here.now row.now set (pairs limit)) (from 0 (nodes * 8)))) }
    ensures arcs { arcs.new ≡ map (class_byte (distinct [] (map (arrival_at here.now row.now set (pairs limit)) (from 0 (nodes * 8))))) (map (arrival_at here.now row.now set (pairs limit)) (from 0 (nodes * 8))) ++ drop (nodes * 8) arcs.old }
{
    let keys = keys_of(nodes, here, row);
    let mut chains = Chains {
        count: 0,
        firsts: [0; CHILDREN],
        older: [0; CHILDREN],
        heads: [0; BUCKETS],
    };
    let end = nodes * STEPS;
    for f in 0..end {
        let class = chains.class_at(f, here, row, &keys, nodes, set, limit);
        arcs[f] = byte_of(class);
    }
    chains.count
}
