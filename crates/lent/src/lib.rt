// Helpers over lent runs: clearing to the end, copying a front, handing a front out, the room of an output. Each is one function for
// runs of any numbers.
#![tactic(auto)]

ghost use Rattle.std.specs.Prelude.{◌≡◌, ◌%◌, take, length, replicate};
ghost use Rattle.bdd.specs.Answers.{all_zero};
ghost use Rattle.bdd.specs.Lent.{output_of, SameOutput};
ghost use Rattle.bdd.specs.Pairs as pairs;
ghost use Rattle.lent.specs.Copied.{copied};

use bdd::OutputRuns;
use std::cmp::min;

// The longest stack that a call asks for: 2n + 1 at the greatest n.
pub const STACK: usize = 2 * bdd::MOST_OPTIONS as usize + 1;

// A number that runs are of, and its zero.
pub trait Number: Copy {
    ghost zero: { Self };

    fn zero() -> Self
        ensures { result ≡ zero };
}

impl Number for u16 {
    ghost zero = { 0 };

    fn zero() -> u16 {
        0
    }
}

impl Number for u32 {
    ghost zero = { 0 };

    fn zero() -> u32 {
        0
    }
}

pub fn clear<N: Number>(run: &mut [N])
    ensures { run.new ≡ replicate (length run.old) N.zero }
{
    let zero = N::zero();
    for place in run.iter_mut() {
        *place = zero;
    }
}

// The three runs of an output, all zero.
pub fn clear_output(out: &mut OutputRuns<'_>)
    ensures same { SameOutput out.old out.new }
    ensures variable { out.new.variable.now ≡ all_zero out.old.variable.now }
    ensures low { out.new.low.now ≡ all_zero out.old.low.now }
    ensures high { out.new.high.now ≡ all_zero out.old.high.now }
{
    clear(out.variable);
    clear(out.low);
    clear(out.high);
}

// One number a turn: the library's copy of a slice is memmove, which no caller in C has to have.
pub fn copy<N: Copy>(run: &mut [N], from: &[N], s: usize)
    ensures { run.new ≡ copied run.old from.now s }
{
    let count = min(s, min(run.len(), from.len()));
    for i in 0..count {
        run[i] = from[i];
    }
}

// W, from the lengths of three output runs.
pub fn shortest(variables: usize, lows: usize, highs: usize) -> usize
    ensures { result ≡ pairs.shortest variables lows highs }
{
    min(min(variables, min(lows, highs)), bdd::MOST_ENTRIES)
}

// W of an output.
pub fn room(out: &OutputRuns<'_>) -> usize
    ensures { result ≡ pairs.room (output_of out.now) }
{
    shortest(out.variable.len(), out.low.len(), out.high.len())
}

// The first count places of a run, or all that there are.
pub fn front<N>(run: &[N], count: usize) -> &[N]
    ensures { result.now ≡ take count run.now }
{
    if count <= run.len() {
        return &run[..count];
    }
    run
}

// What programs over the library share: numbers cut to a width.
// How many numbers a byte and a half word hold.
const BYTE: u32 = 256;

const HALF_WORD: u32 = 65_536;

// Two and not one for any width: each is a cast, and a cast is to a type that is named.
pub fn narrow8(x: u32) -> u8
    ensures { result ≡ x % 256 }
{
    (x % BYTE) as u8
}

pub fn narrow16(x: u32) -> u16
    ensures { result ≡ x % 65536 }
{
    (x % HALF_WORD) as u16
}
