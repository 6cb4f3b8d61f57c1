// The operators by one of the sixteen numbers (the Rust's `impl Bdd` in _impl_boolean_ops.rs): plain, with flips, with a limit, with
// both. Each is one call of `fused_binary_flip_op_with_limit`.
#![tactic(auto)]

ghost use Rattle.bdd.specs.Lent.{set_of, output_of, SameOutput, SameWorking, no_flip, no_limit};
ghost use Rattle.bdd.specs.Operations.{operation, Operates, working_of};
ghost use Rattle.bdd.specs.Pairs.{job};
ghost use Rattle.operators.specs.Numbered.{numbered};

use bdd::{Answer, Flips, Limit, NO_FLIPS, Operands, OutputRuns, Refusal, RuleSet, WorkingRuns};

// An operator by its number, with flips and a limit.
pub fn numbered_flip_op_with_limit(
    limit: Limit,
    p: u8,
    left: &RuleSet<'_>,
    right: &RuleSet<'_>,
    flips: Flips,
    out: &mut OutputRuns<'_>,
    work: &mut WorkingRuns<'_>,
) -> Answer
    ensures same { SameOutput out.old out.new }
    ensures same_work { SameWorking work.old work.new }
    ensures operates { Operates (operation (job (set_of left.now) (set_of right.now) (numbered p) flips.left flips.right) flips.output limit)
        (output_of out.old) (output_of out.new) (working_of work.old) (working_of work.new) result }
{
    let Some(table) = op_function::operator(p) else {
        return Err(Refusal::BadTable);
    };
    let job = Operands {
        table: &table,
        left: *left,
        right: *right,
        flips,
    };
    boolean_ops::fused_binary_flip_op_with_limit(limit, &job, out, work)
}

// An operator by its number.
pub fn numbered_op(
    p: u8,
    left: &RuleSet<'_>,
    right: &RuleSet<'_>,
    out: &mut OutputRuns<'_>,
    work: &mut WorkingRuns<'_>,
) -> Answer
    ensures same { SameOutput out.old out.new }
    ensures same_work { SameWorking work.old work.new }
    ensures operates { Operates (operation (job (set_of left.now) (set_of right.now) (numbered p) no_flip no_flip) no_flip no_limit)
        (output_of out.old) (output_of out.new) (working_of work.old) (working_of work.new) result }
{
    numbered_flip_op_with_limit(None, p, left, right, NO_FLIPS, out, work)
}

// An operator by its number, with a limit.
pub fn numbered_op_with_limit(
    limit: Limit,
    p: u8,
    left: &RuleSet<'_>,
    right: &RuleSet<'_>,
    out: &mut OutputRuns<'_>,
    work: &mut WorkingRuns<'_>,
) -> Answer
    ensures same { SameOutput out.old out.new }
    ensures same_work { SameWorking work.old work.new }
    ensures operates { Operates (operation (job (set_of left.now) (set_of right.now) (numbered p) no_flip no_flip) no_flip limit)
        (output_of out.old) (output_of out.new) (working_of work.old) (working_of work.new) result }
{
    numbered_flip_op_with_limit(limit, p, left, right, NO_FLIPS, out, work)
}

// An operator by its number, with flips.
pub fn numbered_flip_op(
    p: u8,
    left: &RuleSet<'_>,
    right: &RuleSet<'_>,
    flips: Flips,
    out: &mut OutputRuns<'_>,
    work: &mut WorkingRuns<'_>,
) -> Answer
    ensures same { SameOutput out.old out.new }
    ensures same_work { SameWorking work.old work.new }
    ensures operates { Operates (operation (job (set_of left.now) (set_of right.now) (numbered p) flips.left flips.right) flips.output no_limit)
        (output_of out.old) (output_of out.new) (working_of work.old) (working_of work.new) result }
{
    numbered_flip_op_with_limit(None, p, left, right, flips, out, work)
}
