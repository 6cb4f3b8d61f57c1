// The checks of a rule set (document 01, module 3): each says yes exactly when its definition holds, for any three
// runs of any lengths and any numbers.
#![tactic(auto)]

ghost use Rattle.std.specs.Prelude.{◌≡◌, ◌<◌, length};
ghost use Rattle.bdd.specs.Array.{placed, inner, same_entry, entry_of, entry, options};
ghost use Rattle.bdd.specs.Lent.{set_of};
ghost use Rattle.checks.specs.Checked.{checked_order, Behind};

use bdd::RuleSet;

// A cast of a parameter asks for no proof, a cast of an element would.
pub fn wide(x: u32) -> usize
    ensures { result ≡ x }
{
    x as usize
}

// Entry 0 or 1: the terminal links to itself and has n for its variable.
#[tactic(auto, unfolding(bdd::specs::Array::same_entry))]
fn is_terminal(set: &RuleSet<'_>, i: usize) -> bool
    requires { (i < length set.now.variable.now) × (i < length set.now.low.now) × (i < length set.now.high.now) }
    ensures { result ≡ same_entry (entry_of (set_of set.now) i) (entry (options (set_of set.now)) i i) }
{
    set.variable[i] == set.variable[0] && wide(set.low[i]) == i && wide(set.high[i]) == i
}

// An entry from 2 on. The links are held below i before they are followed; and no variable below i
// is greater than n, so that one below a linked entry's is below n.
#[tactic(auto, using(crate::proofs::Verdict::inner_test))]
fn is_inner(set: &RuleSet<'_>, i: usize) -> bool
    requires { (i < length set.now.variable.now) × (i < length set.now.low.now) × (i < length set.now.high.now) }
    ensures { Behind (set_of set.now) i → result ≡ inner (set_of set.now) i }
{
    let v = set.variable[i];
    let l = wide(set.low[i]);
    let h = wide(set.high[i]);
    l < i && h < i && v < set.variable[l] && v < set.variable[h]
}

fn is_placed(set: &RuleSet<'_>, i: usize) -> bool
    requires { (i < length set.now.variable.now) × (i < length set.now.low.now) × (i < length set.now.high.now) }
    ensures { Behind (set_of set.now) i → result ≡ placed (set_of set.now) i }
{
    if i < 2 {
        is_terminal(set, i)
    } else {
        is_inner(set, i)
    }
}

// Ordered: equal lengths, n and L within their bounds, every entry in its place.
pub fn check_ordered(set: &RuleSet<'_>) -> Option<u16>
    ensures { result ≡ checked_order (set_of set.now) }
{
    let size = set.variable.len();
    if set.low.len() != size || set.high.len() != size || size == 0 || bdd::MOST_ENTRIES < size {
        return None;
    }
    let n = set.variable[0];
    if bdd::MOST_OPTIONS < n {
        return None;
    }
    for i in 0..size {
        if !is_placed(set, i) {
            return None;
        }
    }
    Some(n)
}
