// How C gets an answer: as whole numbers in the cells of `out`; and how much of a lent buffer an operation gets.
#![tactic(auto)]

ghost use Rattle.std.specs.Prelude.{◌≡◌, cond, ◌≤◌, length, pos};
ghost use Rattle.laws.specs.Lists.{padded};
ghost use Rattle.meaning.specs.Interface.{most_page, used_page};
ghost use Rattle.meaning.specs.Interface as paper;

// The longest page whose plans an i32 can count.
const MOST_PAGE: usize = 2147483647;

// 1 for yes, 0 for no.
pub fn flag(b: bool) -> i32
    ensures { result ≡ paper.flag b }
{
    i32::from(b)
}

// The named cells, and zeros behind them; where `out` is too short, as many as it has.
#[tactic(auto, using(crate::proofs::Cells::padded_parts))]
pub fn tell(out: &mut [i32], named: &[i32])
    ensures { out.new ≡ padded (length out.old) (pos 0) named.now }
{
    let count = out.len().min(named.len());
    let (front, rest) = out.split_at_mut(count);
    front.copy_from_slice(&named[..count]);
    rest.fill(0);
}

// How much of a buffer is lent: with an `out` that is too short nothing, so that 11 comes in its turn.
pub fn lendable(short: bool, size: usize) -> usize
    ensures { (result ≡ cond short 0 size) × (result ≤ size) }
{
    if short { 0 } else { size }
}

// How much of a page is used: its count is an i32.
pub fn used_page(size: usize) -> usize
    ensures { (result ≡ used_page size) × (result ≤ size) × (result ≤ most_page) }
{
    size.min(MOST_PAGE)
}
