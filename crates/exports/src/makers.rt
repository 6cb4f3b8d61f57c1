// Terminals, literals and negation under plain names.
ghost use Rattle.std.specs.Prelude.{not, ◌||◌, [], ◌∷◌, ltb, leb};
ghost use Rattle.bdd.specs.Bounds.{most_options};
ghost use Rattle.bdd.specs.Array.{ordered, entries_of, runs};
ghost use Rattle.bdd.specs.Jobs.{false_array, true_array, literal_array, not_array};
ghost use Rattle.bdd.specs.Answers.{Makes, maker_checks, set_checks, told_answer};
ghost use Rattle.exports.specs.Numbered.{Hands};

use super::numbers::hand_on;
use bdd::{OutputRuns, RuleSet};

// Off at every setting.
pub fn jp_mk_false(
    n: u16,
    variable: &mut [u16],
    low: &mut [u32],
    high: &mut [u32],
    size: &mut usize,
) -> u32
    ensures { Hands told_answer (Makes (maker_checks (ltb most_options n)) (false_array n)
        (runs variable.old low.old high.old) (runs variable.new low.new high.new)) result (size.new ∷ []) }
{
    let mut out = OutputRuns {
        variable,
        low,
        high,
    };
    hand_on(bdd_node::mk_false(n, &mut out), size)
}

// On at every setting.
pub fn jp_mk_true(
    n: u16,
    variable: &mut [u16],
    low: &mut [u32],
    high: &mut [u32],
    size: &mut usize,
) -> u32
    ensures { Hands told_answer (Makes (maker_checks (ltb most_options n)) (true_array n)
        (runs variable.old low.old high.old) (runs variable.new low.new high.new)) result (size.new ∷ []) }
{
    let mut out = OutputRuns {
        variable,
        low,
        high,
    };
    hand_on(bdd_node::mk_true(n, &mut out), size)
}

// The literal of option v: on where the option is `value`.
pub fn jp_mk_literal(
    n: u16,
    v: u16,
    value: bool,
    variable: &mut [u16],
    low: &mut [u32],
    high: &mut [u32],
    size: &mut usize,
) -> u32
    ensures { Hands told_answer (Makes (maker_checks (ltb most_options n || leb n v)) (literal_array n v value)
        (runs variable.old low.old high.old) (runs variable.new low.new high.new)) result (size.new ∷ []) }
{
    let mut out = OutputRuns {
        variable,
        low,
        high,
    };
    hand_on(bdd_node::mk_literal(n, v, value, &mut out), size)
}

// Negation.
pub fn jp_not(
    variable: &[u16],
    low: &[u32],
    high: &[u32],
    out_variable: &mut [u16],
    out_low: &mut [u32],
    out_high: &mut [u32],
    size: &mut usize,
) -> u32
    ensures { Hands told_answer (Makes (set_checks (not (ordered (runs variable.now low.now high.now)))) (not_array (entries_of (runs variable.now low.now high.now)))
        (runs out_variable.old out_low.old out_high.old) (runs out_variable.new out_low.new out_high.new)) result (size.new ∷ []) }
{
    let set = RuleSet {
        variable,
        low,
        high,
    };
    let mut out = OutputRuns {
        variable: out_variable,
        low: out_low,
        high: out_high,
    };
    hand_on(negation::not(&set, &mut out), size)
}
