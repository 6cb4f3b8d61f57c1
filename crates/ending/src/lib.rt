// How a maker of arrays ends once its exploration has come to something: which answer that is under the limit and the room, and how
// the output is left. The terminals come last: false has entry 0 alone, and entry 1 is then as it was.
#![tactic(auto)]

ghost use Rattle.std.specs.Prelude.{◌≡◌, cond};
ghost use Rattle.bdd.specs.Lent.{output_of, SameOutput};
ghost use Rattle.bdd.specs.declared.Refusal.TheVariants.{OverLimit};
ghost use Rattle.ending.specs.Ends.{Bounds, cleared, with_terminals, size_from, ended, ended_runs};

use bdd::{Answer, Limit, OutputRuns, Refusal};

// The most that may be made, and whether it is the limit that says so.
#[derive(Clone, Copy, Debug, PartialEq, Eq)]
pub struct Bound {
    pub most: usize,
    pub limited: bool,
}

// What an exploration came to: the number of the root's entry and the number behind the last entry; more pairs than there is
// room for; an array longer than it may be.
#[derive(Clone, Copy, Debug, PartialEq, Eq)]
pub enum Explored {
    Array(u32, usize),
    NoPairRoom,
    Long,
}

// The limit counts where it is at most the room.
pub fn bound_of(limit: Limit, room: usize) -> Bound
    ensures { Bounds limit room result }
{
    match limit {
        Some(k) if k <= room => Bound {
            most: k,
            limited: true,
        },
        _ => Bound {
            most: room,
            limited: false,
        },
    }
}

// Why more is refused: 8 for the limit, else for the room.
pub fn excess(limited: bool, room: Refusal) -> Refusal
    ensures { result ≡ cond limited OverLimit room }
{
    if limited { Refusal::OverLimit } else { room }
}

// False is one entry, whatever the number behind the last is.
fn size_of(v: u32, next: usize) -> usize
    ensures { result ≡ size_from v next }
{
    if v == 0 { 1 } else { next }
}

// The answer that an exploration comes to under a bound.
pub fn answer_of(explored: Explored, bound: Bound) -> Answer
    ensures { result ≡ ended explored bound }
{
    match explored {
        Explored::NoPairRoom => Err(Refusal::PairRoom),
        Explored::Long => Err(excess(bound.limited, Refusal::NoRoom)),
        Explored::Array(v, next) => {
            let s = size_of(v, next);
            if bound.most < s {
                return Err(excess(bound.limited, Refusal::NoRoom));
            }
            Ok(s)
        }
    }
}

pub fn clear_output(out: &mut OutputRuns<'_>)
    ensures same { SameOutput out.old out.new }
    ensures cleared { output_of out.new ≡ cleared (output_of out.old) }
{
    lent::clear_output(out);
}

// The first s of the two terminals over n.
fn write_terminals(n: u16, s: usize, out: &mut OutputRuns<'_>)
    ensures same { SameOutput out.old out.new }
    ensures terminals { output_of out.new ≡ with_terminals n s (output_of out.old) }
{
    let links = [0, 1];
    lent::copy(out.variable, &[n, n], s);
    lent::copy(out.low, &links, s);
    lent::copy(out.high, &links, s);
}

// The output as the answer says: the terminals before what was built, or all zero.
pub fn leave(answer: Answer, n: u16, out: &mut OutputRuns<'_>)
    ensures same { SameOutput out.old out.new }
    ensures left { output_of out.new ≡ ended_runs answer n (output_of out.old) }
{
    match answer {
        Ok(s) => write_terminals(n, s, out),
        Err(_) => clear_output(out),
    }
}
