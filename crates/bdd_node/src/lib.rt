// Entries, terminals, literals (document 01, module 1; the Rust's _impl_bdd_node.rs and mk_false, mk_true,
// mk_literal): each writes its array into a lent output of three runs.
#![tactic(auto)]

ghost use Rattle.std.specs.Prelude.{◌≡◌, ◌||◌, [], ◌∷◌, ◌≤◌, take, ltb, leb};
ghost use Rattle.bdd.specs.Bounds.{most_options};
ghost use Rattle.bdd.specs.Array.{entry};
ghost use Rattle.bdd.specs.Jobs.{false_array, true_array, literal_array};
ghost use Rattle.bdd.specs.Answers.{Makes, maker_checks};
ghost use Rattle.bdd.specs.Lent.{output_of, entry_of_node, SameOutput};

use bdd::{Answer, BddNode, OutputRuns, Refusal};

// What stands for the entry of a terminal, which is not written.
const NONE: BddNode = BddNode {
    variable: 0,
    low: 0,
    high: 0,
};

// The first s of the two terminals over n and the entry e.
fn make(n: u16, e: BddNode, s: usize, out: &mut OutputRuns<'_>) -> Answer
    requires { s ≤ 3 }
    ensures same { SameOutput out.old out.new }
    ensures made { Makes (maker_checks (ltb most_options n))
        (take s (entry n 0 0 ∷ entry n 1 1 ∷ entry_of_node e ∷ []))
        (output_of out.old) (output_of out.new) result }
{
    if bdd::MOST_OPTIONS < n {
        return Err(Refusal::NoSuchOption);
    }
    if lent::room(out) < s {
        lent::clear_output(out);
        return Err(Refusal::NoRoom);
    }
    lent::copy(out.variable, &[n, n, e.variable], s);
    lent::copy(out.low, &[0, 1, e.low], s);
    lent::copy(out.high, &[0, 1, e.high], s);
    Ok(s)
}

pub fn mk_false(n: u16, out: &mut OutputRuns<'_>) -> Answer
    ensures same { SameOutput out.old out.new }
    ensures made { Makes (maker_checks (ltb most_options n))
        (false_array n)
        (output_of out.old) (output_of out.new) result }
{
    make(n, NONE, 1, out)
}

pub fn mk_true(n: u16, out: &mut OutputRuns<'_>) -> Answer
    ensures same { SameOutput out.old out.new }
    ensures made { Makes (maker_checks (ltb most_options n))
        (true_array n)
        (output_of out.old) (output_of out.new) result }
{
    make(n, NONE, 2, out)
}

// The literal of option v: on where the option is `value`.
pub fn mk_literal(n: u16, v: u16, value: bool, out: &mut OutputRuns<'_>) -> Answer
    ensures same { SameOutput out.old out.new }
    ensures made { Makes (maker_checks (ltb most_options n || leb n v))
        (literal_array n v value)
        (output_of out.old) (output_of out.new) result }
{
    if n <= v {
        return Err(Refusal::NoSuchOption);
    }
    let (low, high) = if value { (0, 1) } else { (1, 0) };
    let entry = BddNode {
        variable: v,
        low,
        high,
    };
    make(n, entry, 3, out)
}
