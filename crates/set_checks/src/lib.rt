// The tidy and the signing order check of a rule set (document 01, module 3): each says yes exactly
// when its definition holds, for any three runs of any lengths and any numbers. The time is in
// proportion to the entries but for searches in an index with two places for each entry.
#![tactic(auto)]

ghost use Rattle.std.specs.Prelude.{◌≡◌, List, ℕ};
ghost use Rattle.bdd.specs.Array.{runs, tidy};
ghost use Rattle.bdd.specs.Lent.{set_of};
ghost use Rattle.set_checks.specs.Checked.{checked_tidy, checked_signing, Blank, Coming, Taken, Walkable, Met};

use bdd::{BddNode, RuleSet};
use chains::Stored;

// Entry i has different links and is none of those that are indexed; by the same search it is then
// indexed too. It is read here: a function for that would ask three bounds and promise an entry, which is
// longer than what it would save here and in `serialisation::write_records`.
fn is_reduced(index: &mut [u32], set: &RuleSet<'_>, i: usize) -> bool
    requires { Coming index.old (set_of set.now) i }
    ensures { Taken index.new (set_of set.now) i result }
{
    let e = BddNode {
        variable: set.variable[i],
        low: set.low[i],
        high: set.high[i],
    };
    if e.low == e.high {
        return false;
    }
    match index_run::insert(index, set, e, i as u32) {
        Stored::New => true,
        Stored::Known(_) => false,
        // Cannot be: the index has places.
        Stored::Full => false,
    }
}

// Every entry from 2 on has different links and is none of those before it.
fn are_reduced(index: &mut [u32], set: &RuleSet<'_>) -> bool
    requires { Blank index.old (set_of set.now) }
    ensures { result ≡ tidy (set_of set.now) }
{
    for i in 2..set.variable.len() {
        if !is_reduced(index, set, i) {
            return false;
        }
    }
    true
}

// Tidy: ordered, and every entry from 2 on is reduced. A call of its own, so that its room is given back before the signing order check walks.
#[inline(never)]
pub fn check_tidy(set: &RuleSet<'_>) -> Option<u16>
    ensures { result ≡ checked_tidy (set_of set.now) }
{
    let n = checks::check_ordered(set)?;
    // A check is lent no room, so it has its own. The part of it that is used goes by the entries: two
    // places for each, so that the searches are as short in large sets as in small ones.
    let mut index = [0; 2 * bdd::MOST_ENTRIES];
    are_reduced(&mut index[..2 * set.variable.len()], set).then_some(n)
}

// A walk over the links, high side first, then low side, then the entry itself. An entry that is
// known is passed by, and a new one must have the number of those that are known: so each entry is
// met once, and no note of the entries is kept. Variables rise on the way, so at most n + 1 calls
// are open at once. Two runs and not the set: a step through it was measured a quarter slower.
fn walk(low: &[u32], high: &[u32], i: usize, known: usize) -> Option<usize>
    requires { Walkable low.now high.now i known }
    ensures { (variable : List ℕ) → Met (runs variable low.now high.now) i known result }
{
    if i < known {
        return Some(known);
    }
    let above = walk(low, high, checks::wide(high[i]), known)?;
    let here = walk(low, high, checks::wide(low[i]), above)?;
    if here != i {
        return None;
    }
    Some(i + 1)
}

// Signing order: tidy, and from 3 entries on a walk from the root meets the entries in the order of
// their numbers.
pub fn check_signing(set: &RuleSet<'_>) -> Option<u16>
    ensures { result ≡ checked_signing (set_of set.now) }
{
    let n = check_tidy(set)?;
    let size = set.variable.len();
    if size < 3 {
        return Some(n);
    }
    walk(set.low, set.high, size - 1, 2)?;
    Some(n)
}
