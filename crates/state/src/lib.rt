// A node's state by value: one pair of running totals for every rule, low and high, compared and merged place by place.
// The high stands with its sign turned, so that both ends of a pair merge and are tested alike: the least of both, at most the limit's.
#![tactic(auto)]

ghost use Rattle.std.specs.Prelude.{◌≡◌, ◌+◌, ◌<◌, ◌≤◌, length};
ghost use Rattle.std.proofs.Math.Seq.{paste};
ghost use Rattle.laws.specs.Z.{Within};
ghost use Rattle.meaning.specs.Diagram.{merged, merged_state, eq_state};
ghost use Rattle.state.specs.Pairs.{pair_of, pairs, Inside, added, lessened, fits_in, pairs_at, shares_at, unpaired, key_of, bucket_in};

use problem::RULES;

// A rule's low, and its high with the sign turned.
#[derive(Clone, Copy, PartialEq, Eq)]
pub struct Pair {
    pub lo: i32,
    pub hi: i32,
}

// A pair for each of eight rules; those that a problem lacks have zeros.
#[derive(Clone, Copy, PartialEq, Eq)]
pub struct State {
    pub at: [Pair; RULES],
}

// The state with the shares of step v of a slot's row added: L plus share and U plus share.
pub fn child(s: State, row: &[i32], v: usize) -> State
    requires { (v < 8) × (64 ≤ length row.now) × Inside 10000000 (pairs s) × Inside 10000000 (shares_at row.now v) }
    ensures { pairs result ≡ added (pairs s) (shares_at row.now v) }
{
    let mut t = s;
    for k in 0..RULES {
        let p = s.at[k];
        let share = row[v * RULES + k];
        t.at[k] = Pair {
            lo: p.lo + share,
            hi: p.hi - share,
        };
    }
    t
}

// Place by place the difference.
pub fn less(s: State, u: State) -> State
    requires { Inside 10000000 (pairs s) × Inside 10000000 (pairs u) }
    ensures { pairs result ≡ lessened (pairs s) (pairs u) }
{
    let mut t = s;
    for k in 0..RULES {
        let p = s.at[k];
        let q = u.at[k];
        t.at[k] = Pair {
            lo: p.lo - q.lo,
            hi: p.hi - q.hi,
        };
    }
    t
}

// Least low and greatest high.
fn merged_pair(p: Pair, q: Pair) -> Pair
    ensures { pair_of result ≡ merged (pair_of p) (pair_of q) }
{
    Pair {
        lo: p.lo.min(q.lo),
        hi: p.hi.min(q.hi),
    }
}

// Merged: least L and greatest U.
pub fn merged(s: State, u: State) -> State
    ensures { pairs result ≡ merged_state (pairs s) (pairs u) }
{
    let mut t = s;
    for k in 0..RULES {
        t.at[k] = merged_pair(s.at[k], u.at[k]);
    }
    t
}

// Equal pairs at every place.
pub fn same(s: State, u: State) -> bool
    ensures { result ≡ eq_state (pairs s) (pairs u) }
{
    s == u
}

// No low above the limit's and no high below it, at every place.
pub fn fits(s: State, limit: State) -> bool
    ensures { result ≡ fits_in (pairs s) (pairs limit) }
{
    // kept: a flag over all places, the lows first, since an early way out of such a loop was too slow (1,165 ns in place of 695 for a layer).
    let mut ok = true;
    for k in 0..RULES {
        if limit.at[k].lo < s.at[k].lo {
            ok = false;
        }
    }
    for k in 0..RULES {
        if limit.at[k].hi < s.at[k].hi {
            ok = false;
        }
    }
    ok
}

// The state that stands at a place of a row: eight lows, eight turned highs.
pub fn taken(row: &[i32], at: usize) -> State
    requires { at + 16 ≤ length row.now }
    ensures { pairs result ≡ pairs_at row.now at }
{
    let none = Pair { lo: 0, hi: 0 };
    let mut s = State { at: [none; RULES] };
    for k in 0..RULES {
        s.at[k] = Pair {
            lo: row[at + k],
            hi: row[at + RULES + k],
        };
    }
    s
}

// The shares of step v of a slot's row as a state.
pub fn shares(row: &[i32], v: usize) -> State
    requires { (v < 8) × (64 ≤ length row.now) × Inside 10000000 (shares_at row.now v) }
    ensures { pairs result ≡ shares_at row.now v }
{
    let none = Pair { lo: 0, hi: 0 };
    let mut s = State { at: [none; RULES] };
    for k in 0..RULES {
        let share = row[v * RULES + k];
        s.at[k] = Pair {
            lo: share,
            hi: -share,
        };
    }
    s
}

// The state laid at a place of a row.
pub fn laid(row: &mut [i32], at: usize, s: State)
    requires { at + 16 ≤ length row.old }
    ensures { row.new ≡ paste row.old at (unpaired (pairs s)) 16 }
{
    for k in 0..RULES {
        row[at + k] = s.at[k].lo;
        row[at + RULES + k] = s.at[k].hi;
    }
}

// What each rule's low counts for the key.
const TIMES: [i32; RULES] = [613, 397, 511, 301, 459, 547, 271, 653];

// A state's key: equal states have equal keys, and the key of a sum is the sum of the keys.
pub fn key(s: State) -> i32
    requires { Inside 200000 (pairs s) }
    ensures { result ≡ key_of (pairs s) }
{
    let mut key = 0;
    for k in 0..RULES {
        key += s.at[k].lo * TIMES[k];
    }
    key
}

// How many buckets there are, and what makes every key positive.
pub const BUCKETS: usize = 256;

const ABOVE: i32 = 1000000000;

// Which bucket a key belongs to.
pub fn bucket(key: i32) -> usize
    requires { Within 1000000000 key }
    ensures { (result ≡ bucket_in key) × (result < 256) }
{
    (ABOVE + key) as usize % BUCKETS
}
