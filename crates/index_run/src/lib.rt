// The index run: which entry stands in the output under which number, as a map over a lent run of
// u32 by chains. The entry under the number i + 2 is node i, whose three parts are read in the output
// runs, so that a node is no more than what follows it: 16 bits, and 16 more for the place, since no
// number needs more. An all-zero run is empty, and every number of it is a place and a node. The
// contracts, over specs/Index.antt, say which entries are indexed and name no place; `place`, over
// specs/Placing.antt, is the one step of every job that writes an array entry by entry.
#![tactic(auto)]

ghost use Rattle.std.specs.Prelude.{◌≡◌, Bool, List, ℕ, ◌+◌, ◌-◌, ◌<◌, ◌≤◌, ◌^◌, max, length};
ghost use Rattle.bdd.specs.Bounds.{most_entries};
ghost use Rattle.bdd.specs.Array.{Entry, Runs, entry_of};
ghost use Rattle.bdd.specs.Lent.{set_of, output_of, entry_of_node, SameOutput};
ghost use Rattle.chains.specs.Chains.{Says, Walked};
ghost use Rattle.index_run.specs.Index.{places, with_behind, with_head, linked, folded, chains_of, Searched, Room, Insertion};
ghost use Rattle.index_run.specs.Placing.{Fit, Output, Appended, decided, Placing};

use bdd::{BddNode, OutputRuns, RuleSet};
use chains::{Place, Stored, Trail};

// The number under which an entry stands, and the number behind the last entry.
#[derive(Clone, Copy, Debug, PartialEq, Eq)]
pub struct Placed {
    pub number: u32,
    pub behind: usize,
}

// How many entries are indexed where this number comes next.
fn nodes_before(number: u32) -> usize
    requires { 2 ≤ number }
    ensures { result ≡ number - 2 }
{
    number as usize - 2
}

// Option and low link in one number.
fn fold(e: BddNode) -> u32
    ensures { result ≡ folded (entry_of_node e) }
{
    ((e.variable as u64 * 0x10_0000 + e.low as u64) % 0x1_0000_0000) as u32
}

// Whether the entry stands under a number.
fn is_at(set: &RuleSet<'_>, number: usize, e: BddNode) -> bool
    requires { (number < length set.now.variable.now) × (number < length set.now.low.now) × (number < length set.now.high.now) }
    ensures { Says result (entry_of (set_of set.now) number ≡ entry_of_node e) }
{
    set.low[number] == e.low && set.high[number] == e.high && set.variable[number] == e.variable
}

// The walk along the chain of a place, until the entry or the end is met. Each node is older than the
// one before it; where an index that was not made here says otherwise, the walk ends. `pair_run` has a
// walk and a search of its own: they read what is packed otherwise, and a trait over both would have
// more methods than either has lines.
fn walk(index: &[u32], set: &RuleSet<'_>, nodes: usize, place: usize, e: BddNode) -> Trail
    requires { (place < length index.now) × Room index.now (set_of set.now) (nodes + 2) }
    ensures { Walked (chains_of (places index.now) nodes index.now (set_of set.now)) (entry_of_node e) place result }
{
    let mut next = index[place] as usize / 0x1_0000;
    let mut bound = nodes;
    let mut met = 0;
    while 0 < next && next <= bound {
        let node = next - 1;
        if is_at(set, node + 2, e) {
            return Trail::At(node);
        }
        next = index[node] as usize % 0x1_0000;
        bound = node;
        met += 1;
    }
    Trail::End(met)
}

// The search: from full chain to full chain, until the entry is met or a chain has room.
// Written out at its callers', as what calls it: `pair_run` says why.
#[inline(always)]
fn search(index: &[u32], set: &RuleSet<'_>, nodes: usize, e: BddNode) -> Place
    requires { Room index.now (set_of set.now) (nodes + 2) }
    ensures { Searched index.now (set_of set.now) nodes (entry_of_node e) result }
{
    let room = index.len();
    if room == 0 {
        return Place::Nowhere;
    }
    let mut mixed = fold(e);
    let mut place = 0;
    for _ in 0..chains::TRIES {
        mixed = chains::mix(mixed, e.high);
        place = chains::spread(mixed, room);
        match walk(index, set, nodes, place, e) {
            Trail::At(node) => return Place::At(node),
            Trail::End(met) => {
                if met < chains::FULL {
                    return Place::Free(place);
                }
            }
        }
    }
    Place::Free(place)
}

// A node leads to another one.
fn set_behind(index: &mut [u32], node: usize, behind: u32)
    requires { (node < length index.old) × (behind < 2 ^ 16) }
    ensures { index.new ≡ with_behind index.old node behind }
{
    index[node] = index[node] / 0x1_0000 * 0x1_0000 + behind;
}

// A place leads to another node.
fn set_head(index: &mut [u32], place: usize, head: u32)
    requires { (place < length index.old) × (head < 2 ^ 16) }
    ensures { index.new ≡ with_head index.old place head }
{
    index[place] = head * 0x1_0000 + index[place] % 0x1_0000;
}

// A node comes first in the chain of a place.
fn join(index: &mut [u32], place: usize, node: usize)
    requires { (place < length index.old) × (node < length index.old) × (node < 2 ^ 16 - 1) }
    ensures { index.new ≡ linked index.old place node }
{
    let behind = index[place] / 0x1_0000;
    set_behind(index, node, behind);
    set_head(index, place, node as u32 + 1);
}

// One search for "look up, else put it here": the entry is indexed under the number that it is about
// to have in the output, unless it stands there under another or the index has no place. What the
// caller knows of the number is asked for, so that no read is tested twice.
#[inline(always)]
pub fn insert(index: &mut [u32], set: &RuleSet<'_>, e: BddNode, number: u32) -> Stored
    requires { Room index.old (set_of set.now) number }
    ensures { Insertion index.old index.new (set_of set.now) number (entry_of_node e) result }
{
    let nodes = nodes_before(number);
    match search(index, set, nodes, e) {
        Place::At(node) => Stored::Known(node as u32 + 2),
        Place::Nowhere => Stored::Full,
        Place::Free(place) => {
            join(index, place, nodes);
            Stored::New
        }
    }
}

// The entry is put behind the last, if it may be.
fn append(out: &mut OutputRuns<'_>, e: BddNode, next: usize, most: usize) -> Option<Placed>
    requires bounds { most ≤ most_entries }
    requires fit { Fit (output_of out.old) most }
    ensures same { SameOutput out.old out.new }
    ensures appended { Appended most (output_of out.old) (output_of out.new) e.variable e.low e.high next result }
{
    if next < most {
        out.variable[next] = e.variable;
        out.low[next] = e.low;
        out.high[next] = e.high;
        return Some(Placed {
            number: next as u32,
            behind: next + 1,
        });
    }
    None
}

// The entry of an option with these links: none where both are the same, found if it stands, else
// put behind the last.
#[inline(always)]
pub fn place(
    index: &mut [u32],
    out: &mut OutputRuns<'_>,
    e: BddNode,
    next: usize,
    most: usize,
) -> Option<Placed>
    requires bounds { (most ≤ most_entries) × (2 ≤ next) × (next ≤ max 2 most) × (most ≤ length index.old) }
    requires fit { Fit (output_of out.old) most }
    ensures same { SameOutput out.old out.new }
    ensures placing { (first : Bool) (begun : Runs) (es : List Entry) → Output most begun index.old (output_of out.old) next es
        → Placing most begun es (decided first e.variable e.low e.high es) index.new (output_of out.new) next result }
{
    if e.low == e.high {
        return Some(Placed {
            number: e.low,
            behind: next,
        });
    }
    match insert(index, &out.as_set(), e, next as u32) {
        Stored::Known(number) => Some(Placed {
            number,
            behind: next,
        }),
        Stored::New => append(out, e, next, most),
        Stored::Full => None,
    }
}
