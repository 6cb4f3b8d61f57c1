// Which entries of two sets mean the same. Every entry gets a number, and two have the same number exactly where they have the same
// value: a terminal its own, an entry whose links have one number that number, and any other the number that stands in a pair run
// under its option and the numbers of its links, or else the next one. So no diagram is kept, only each set's numbers. The lent
// run has those of the left set, then those of the right, then from `end` on the pair run.
ghost use Rattle.std.specs.Prelude.{◌≡◌, ℕ, ◌+◌, ◌<◌, length, drop};
ghost use Rattle.bdd.specs.Lent.{set_of};
ghost use Rattle.bdd.specs.Value.{Function};
ghost use Rattle.compare.specs.Numbers.{number_at, Small, Gives, Meanings, HasPlace, Due, Gets, Numberable, Numbered};

use bdd::{BddNode, Pair, RuleSet};
use chains::Stored;

// The number that an entry was given, and the next one.
#[derive(Clone, Copy)]
struct Given {
    number: u32,
    next: u32,
}

// The number of entry i of the set whose numbers begin at `from`.
pub(crate) fn number(room: &[u32], from: usize, i: usize) -> u32
    requires { from + i < length room.now }
    ensures { result ≡ number_at room.now from i }
{
    if i < 2 { i as u32 } else { room[from + i] }
}

// The number of an entry, in which its links' numbers stand for the links.
fn give(pairs: &mut [u32], e: BddNode, next: u32) -> Given
    requires { Small e.low e.high next }
    ensures { (f : ℕ → Function) → Meanings pairs.old next f → HasPlace pairs.old e.low e.high next
        → Gives pairs.old pairs.new f e.variable e.low e.high next result.number result.next }
{
    let (l, h) = (e.low, e.high);
    if l == h {
        return Given { number: l, next };
    }
    let p = Pair {
        left: e.variable as u32,
        right: l * bdd::FACTOR + h,
    };
    // Numbers are given from 2 on, one for each pair that stands in the run.
    let count = (next as usize).saturating_sub(2);
    match pair_run::insert(pairs, p, next, count) {
        Stored::Known(number) => Given { number, next },
        Stored::New => Given {
            number: next,
            next: next + 1,
        },
        // Cannot be: there are more places than entries.
        Stored::Full => Given { number: 0, next },
    }
}

// Gives entry i of a set its number, and answers the next one.
fn number_one(
    set: &RuleSet<'_>,
    i: usize,
    from: usize,
    end: usize,
    next: u32,
    room: &mut [u32],
) -> u32
    requires { Due (set_of set.now) room.old from end i next }
    ensures { (f : ℕ → Function) → Meanings (drop end room.old) next f
        → Gets (set_of set.now) room.old room.new from end i f next result }
{
    let e = BddNode {
        variable: set.variable[i],
        low: number(room, from, checks::wide(set.low[i])),
        high: number(room, from, checks::wide(set.high[i])),
    };
    let given = give(&mut room[end..], e, next);
    room[from + i] = given.number;
    given.next
}

// Gives the entries of a set their numbers, each after those that it links to.
pub(crate) fn number_all(
    set: &RuleSet<'_>,
    from: usize,
    end: usize,
    first: u32,
    room: &mut [u32],
) -> u32
    requires { Numberable (set_of set.now) room.old from end first }
    ensures { (f : ℕ → Function) → Meanings (drop end room.old) first f
        → Numbered (set_of set.now) room.old room.new from end f first result }
{
    let same = *set; // a set of its own, of which the compiler knows that no store to the room reaches it
    let mut next = first;
    for i in 2..same.variable.len() {
        next = number_one(&same, i, from, end, next, room);
    }
    next
}
