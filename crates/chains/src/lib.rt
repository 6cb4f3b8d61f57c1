// Maps over a lent run by chains: what the pair run and the index run share. A place leads to the
// nodes that belong to it, the newest first, and nodes are filled in the order in which they come, so
// that every one is used. A node is a number of the run and not a box, since nothing allocates. The
// laws of the search are in specs/ and proofs/, over any kind of key.
#![tactic(auto)]

ghost use Rattle.std.specs.Prelude.{◌≡◌};
ghost use Rattle.chains.specs.Spread.{mixed, scaled};

// A chain with so many nodes is full: the search for a key goes on at another place, so that keys
// which were chosen to meet in one place do not make one long chain. It goes to so many places at
// most; the last has no limit, since every node is to be used. The definitions have both in
// specs/Chains.antt.
pub const FULL: usize = 4;

pub const TRIES: usize = 8;

// Where a walk along a chain ends: at the node that has the key, or behind the last of so many. Neither is a failure.
#[derive(Clone, Copy, Debug, PartialEq, Eq)]
pub enum Trail {
    At(usize),
    End(usize),
}

// Where the search for a key ends: at its node, at the place to which it belongs, or nowhere, since
// there is no place.
#[derive(Clone, Copy, Debug, PartialEq, Eq)]
pub enum Place {
    At(usize),
    Free(usize),
    Nowhere,
}

// What became of an insertion into a map: added, not needed since the key stands there with a
// value, or refused since every node is taken.
#[derive(Clone, Copy, Debug, PartialEq, Eq)]
pub enum Stored {
    New,
    Known(u32),
    Full,
}

// Two numbers in one. The factors are 2^32 times 1 - 1/x and 1 - 1/x^2, for the plastic number x:
// they spread small pairs evenly, and the sum of the products fits.
pub fn mix(x: u32, y: u32) -> u32
    ensures { result ≡ mixed x y }
{
    ((x as u64 * 0x3EC0_5657 + y as u64 * 0x6E1E_F25B) % 0x1_0000_0000) as u32
}

// The place of a mixed number: the upper half of a product, which costs no division. In a room of
// 2^32 places or more the searches begin in a part of it, so that the product fits.
pub fn spread(x: u32, room: usize) -> usize
    ensures { result ≡ scaled room x }
{
    (x as u64 * (room as u64 % 0x1_0000_0000) / 0x1_0000_0000) as usize
}
