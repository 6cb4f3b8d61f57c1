// Negation (document 01, module 4; the Rust's `not`): false and true swap; otherwise links 0 and 1 swap from entry 2
// on, and the layout is kept.
#![tactic(auto)]

ghost use Rattle.std.specs.Prelude.{◌≡◌, false, cond, not, ◌≤◌, length, ltb};
ghost use Rattle.bdd.specs.Array.{ordered, entries_of};
ghost use Rattle.bdd.specs.Jobs.{swapped_link, not_array};
ghost use Rattle.bdd.specs.Answers.{Makes, set_checks};
ghost use Rattle.bdd.specs.Lent.{set_of, output_of, SameOutput};
ghost use Rattle.negation.specs.Links.{negated_over};

use bdd::{Answer, OutputRuns, Refusal, RuleSet};

// A link of entry i, as the negation has it: the terminals link to themselves still.
fn negated_link(i: usize, link: u32) -> u32
    ensures { result ≡ cond (ltb i 2) link (swapped_link link) }
{
    match link {
        0 if 2 <= i => 1,
        1 if 2 <= i => 0,
        _ => link,
    }
}

// A run of links, negated, over the front of an output run.
fn negate_links(run: &mut [u32], from: &[u32])
    requires { length from.now ≤ length run.old }
    ensures { run.new ≡ negated_over from.now run.old }
{
    for (i, link) in from.iter().enumerate() {
        run[i] = negated_link(i, *link);
    }
}

// A set of three entries or more.
fn not_kept(set: &RuleSet<'_>, out: &mut OutputRuns<'_>) -> Answer
    requires { (3 ≤ length set.now.variable.now)
        × (length set.now.low.now ≡ length set.now.variable.now)
        × (length set.now.high.now ≡ length set.now.variable.now) }
    ensures same { SameOutput out.old out.new }
    ensures made { Makes (set_checks false) (not_array (entries_of (set_of set.now)))
        (output_of out.old) (output_of out.new) result }
{
    let size = set.variable.len();
    if lent::room(out) < size {
        lent::clear_output(out);
        return Err(Refusal::NoRoom);
    }
    lent::copy(out.variable, set.variable, size);
    negate_links(out.low, set.low);
    negate_links(out.high, set.high);
    Ok(size)
}

pub fn not(set: &RuleSet<'_>, out: &mut OutputRuns<'_>) -> Answer
    ensures same { SameOutput out.old out.new }
    ensures made { Makes (set_checks (not (ordered (set_of set.now))))
        (not_array (entries_of (set_of set.now)))
        (output_of out.old) (output_of out.new) result }
{
    let Some(n) = checks::check_ordered(set) else {
        return Err(Refusal::LeftNotOrdered);
    };
    match set.variable.len() {
        1 => bdd_node::mk_true(n, out),
        2 => bdd_node::mk_false(n, out),
        _ => not_kept(set, out),
    }
}
