// Six operators by name (the Rust's `impl Bdd` in _impl_boolean_ops.rs), and the signing order of a set. Each is one call of
// `numbered_op`, under the name that its callers know.
#![tactic(auto)]

ghost use Rattle.bdd.specs.Lent.{set_of, output_of, SameOutput, SameWorking, no_flip, no_limit};
ghost use Rattle.bdd.specs.Operations.{operation, Operates, working_of};
ghost use Rattle.bdd.specs.Pairs.{job};
ghost use Rattle.operators.specs.Numbered.{numbered};

use bdd::{Answer, OutputRuns, RuleSet, WorkingRuns};

// `x & y`.
pub fn and(
    left: &RuleSet<'_>,
    right: &RuleSet<'_>,
    out: &mut OutputRuns<'_>,
    work: &mut WorkingRuns<'_>,
) -> Answer
    ensures same { SameOutput out.old out.new }
    ensures same_work { SameWorking work.old work.new }
    ensures operates { Operates (operation (job (set_of left.now) (set_of right.now) (numbered 8) no_flip no_flip) no_flip no_limit)
        (output_of out.old) (output_of out.new) (working_of work.old) (working_of work.new) result }
{
    operators::numbered_op(8, left, right, out, work)
}

// `x | y`.
pub fn or(
    left: &RuleSet<'_>,
    right: &RuleSet<'_>,
    out: &mut OutputRuns<'_>,
    work: &mut WorkingRuns<'_>,
) -> Answer
    ensures same { SameOutput out.old out.new }
    ensures same_work { SameWorking work.old work.new }
    ensures operates { Operates (operation (job (set_of left.now) (set_of right.now) (numbered 14) no_flip no_flip) no_flip no_limit)
        (output_of out.old) (output_of out.new) (working_of work.old) (working_of work.new) result }
{
    operators::numbered_op(14, left, right, out, work)
}

// `x ^ y`.
pub fn xor(
    left: &RuleSet<'_>,
    right: &RuleSet<'_>,
    out: &mut OutputRuns<'_>,
    work: &mut WorkingRuns<'_>,
) -> Answer
    ensures same { SameOutput out.old out.new }
    ensures same_work { SameWorking work.old work.new }
    ensures operates { Operates (operation (job (set_of left.now) (set_of right.now) (numbered 6) no_flip no_flip) no_flip no_limit)
        (output_of out.old) (output_of out.new) (working_of work.old) (working_of work.new) result }
{
    operators::numbered_op(6, left, right, out, work)
}

// `x <=> y`.
pub fn iff(
    left: &RuleSet<'_>,
    right: &RuleSet<'_>,
    out: &mut OutputRuns<'_>,
    work: &mut WorkingRuns<'_>,
) -> Answer
    ensures same { SameOutput out.old out.new }
    ensures same_work { SameWorking work.old work.new }
    ensures operates { Operates (operation (job (set_of left.now) (set_of right.now) (numbered 9) no_flip no_flip) no_flip no_limit)
        (output_of out.old) (output_of out.new) (working_of work.old) (working_of work.new) result }
{
    operators::numbered_op(9, left, right, out, work)
}

// `x => y`.
pub fn imp(
    left: &RuleSet<'_>,
    right: &RuleSet<'_>,
    out: &mut OutputRuns<'_>,
    work: &mut WorkingRuns<'_>,
) -> Answer
    ensures same { SameOutput out.old out.new }
    ensures same_work { SameWorking work.old work.new }
    ensures operates { Operates (operation (job (set_of left.now) (set_of right.now) (numbered 11) no_flip no_flip) no_flip no_limit)
        (output_of out.old) (output_of out.new) (working_of work.old) (working_of work.new) result }
{
    operators::numbered_op(11, left, right, out, work)
}

// `x & !y`.
pub fn and_not(
    left: &RuleSet<'_>,
    right: &RuleSet<'_>,
    out: &mut OutputRuns<'_>,
    work: &mut WorkingRuns<'_>,
) -> Answer
    ensures same { SameOutput out.old out.new }
    ensures same_work { SameWorking work.old work.new }
    ensures operates { Operates (operation (job (set_of left.now) (set_of right.now) (numbered 4) no_flip no_flip) no_flip no_limit)
        (output_of out.old) (output_of out.new) (working_of work.old) (working_of work.new) result }
{
    operators::numbered_op(4, left, right, out, work)
}

// The signing order of any ordered set: the and of the set with itself.
pub fn signing_order(
    set: &RuleSet<'_>,
    out: &mut OutputRuns<'_>,
    work: &mut WorkingRuns<'_>,
) -> Answer
    ensures same { SameOutput out.old out.new }
    ensures same_work { SameWorking work.old work.new }
    ensures operates { Operates (operation (job (set_of set.now) (set_of set.now) (numbered 8) no_flip no_flip) no_flip no_limit)
        (output_of out.old) (output_of out.new) (working_of work.old) (working_of work.new) result }
{
    let same = *set;
    and(set, &same, out, work)
}
