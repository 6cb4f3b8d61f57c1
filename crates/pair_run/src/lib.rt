// The pair run: a map from pairs to results over a lent run of u32, by chains. A run for R pairs has R
// numbers that lead from places to chains (0 is none, so a run whose places are all zero is empty), then
// R nodes of three numbers, filled in the order in which pairs come, so that every one is used before a
// pair is refused: the right entry, the node behind, and left entry and result, 16 bits each. How many
// pairs stand in the run the caller knows. Where a contract, over specs/Held.antt, names a node, it is
// the number that the pair had when it came.
#![tactic(auto)]

ghost use Rattle.std.specs.Prelude.{◌≡◌, ◌^◌, ◌<◌};
ghost use Rattle.chains.specs.Chains.{Says, Walked};
ghost use Rattle.pair_run.specs.Held.{nodes, behind_at, result_at, key_at, chains_of, Searched, Searchable, Empty, Found, Insertion, Changed, written};

use bdd::Pair;
use chains::{Place, Stored, Trail};
use std::cmp::min;

// How many pairs there is room for: one number tells no more apart.
fn room_of(run: &[u32]) -> usize
    ensures { result ≡ nodes run.now }
{
    min(run.len() / 4, 0xFFFF_FFFF)
}

// The run holds no pair then: only the places are cleared, since nothing leads to what stands in a node.
pub fn clear(run: &mut [u32])
    ensures { Empty run.new }
{
    let room = room_of(run);
    run[..room].fill(0);
}

// Whether a node has the pair.
fn is_at(run: &[u32], room: usize, node: usize, p: Pair) -> bool
    requires { (room ≡ nodes run.now) × (node < room) }
    ensures { Says result (key_at room run.now node ≡ p) }
{
    let at = room + 3 * node;
    run[at] == p.right && run[at + 2] / 0x1_0000 == p.left
}

// The node behind a node.
fn behind(run: &[u32], room: usize, node: usize) -> usize
    requires { (room ≡ nodes run.now) × (node < room) }
    ensures { result ≡ behind_at room run.now node }
{
    run[room + 3 * node + 1] as usize
}

// The walk along the chain of a place, until the pair or the end is met. Each node is older than the
// one before it; where a run that was not made here says otherwise, the walk ends.
fn walk(run: &[u32], room: usize, place: usize, p: Pair) -> Trail
    requires { (room ≡ nodes run.now) × (place < room) }
    ensures { Walked (chains_of room run.now) (p) place result }
{
    let mut next = run[place] as usize;
    let mut bound = room;
    let mut met = 0;
    while 0 < next && next <= bound {
        let node = next - 1;
        if is_at(run, room, node, p) {
            return Trail::At(node);
        }
        next = behind(run, room, node);
        bound = node;
        met += 1;
    }
    Trail::End(met)
}

// The search: from full chain to full chain, until the pair is met or a chain has room.
// Written out at its callers', as what calls it: as calls of their own they doubled the time of a dry run of some hundred pairs.
#[inline(always)]
fn search(run: &[u32], p: Pair) -> Place
    ensures { Searched run.now p.left p.right result }
{
    let room = room_of(run);
    if room == 0 {
        return Place::Nowhere;
    }
    let mut mixed = p.left;
    let mut place = 0;
    for _ in 0..chains::TRIES {
        mixed = chains::mix(mixed, p.right);
        place = chains::spread(mixed, room);
        match walk(run, room, place, p) {
            Trail::At(node) => return Place::At(node),
            Trail::End(met) => {
                if met < chains::FULL {
                    return Place::Free(place);
                }
            }
        }
    }
    Place::Free(place)
}

// The pair that stands at a node.
pub fn pair_at(run: &[u32], node: usize) -> Pair
    requires { node < nodes run.now }
    ensures { result ≡ key_at (nodes run.now) run.now node }
{
    let at = room_of(run) + 3 * node;
    Pair {
        left: run[at + 2] / 0x1_0000,
        right: run[at],
    }
}

// The result that stands at a node.
pub fn result_of(run: &[u32], node: usize) -> u32
    requires { node < nodes run.now }
    ensures { result ≡ result_at (nodes run.now) run.now node }
{
    run[room_of(run) + 3 * node + 2] % 0x1_0000
}

// The pair at a node has another result.
pub fn set_result(run: &mut [u32], node: usize, res: u32)
    requires { node < nodes run.old }
    ensures { Searchable run.old → res < 2 ^ 16 → Changed run.old run.new node res }
{
    let at = room_of(run) + 3 * node + 2;
    run[at] = run[at] / 0x1_0000 * 0x1_0000 + res % 0x1_0000;
}

// The result under which the pair stands.
pub fn find(run: &[u32], p: Pair) -> Option<u32>
    ensures { Searchable run.now → Found run.now p.left p.right result }
{
    match search(run, p) {
        Place::At(node) => Some(result_of(run, node)),
        Place::Free(_) => None,
        Place::Nowhere => None,
    }
}

// A pair and its result come to a node, and the node to the front of the chain of a place.
fn write(run: &mut [u32], room: usize, place: usize, node: usize, p: Pair, res: u32)
    requires { (room ≡ nodes run.old) × (place < room) × (node < room) }
    ensures { run.new ≡ written room run.old place node p.left p.right res }
{
    let at = room + 3 * node;
    let behind = run[place];
    run[at] = p.right;
    run[at + 1] = behind;
    run[at + 2] = p.left % 0x1_0000 * 0x1_0000 + res % 0x1_0000;
    run[place] = node as u32 + 1;
}

// One search for "look up, else put it here": the pair is added with the result, as the pair number
// `count`, unless it stands in the run already or every node is taken.
#[inline(always)]
pub fn insert(run: &mut [u32], p: Pair, res: u32, count: usize) -> Stored
    ensures { Insertion run.old run.new p.left p.right res count result }
{
    match search(run, p) {
        Place::At(node) => Stored::Known(result_of(run, node)),
        Place::Nowhere => Stored::Full,
        Place::Free(place) => {
            let room = room_of(run);
            if count < room {
                write(run, room, place, count, p, res);
                return Stored::New;
            }
            Stored::Full
        }
    }
}
