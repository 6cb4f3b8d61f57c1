// The operators by nine lent answers, in the forms that leave out flips or the limit (the Rust's `impl Bdd` in _impl_boolean_ops.rs). Each
// is one call of the general one.
#![tactic(auto)]

ghost use Rattle.bdd.specs.Lent.{set_of, output_of, SameOutput, SameWorking, no_flip, no_limit};
ghost use Rattle.bdd.specs.Operations.{operation, operation_of, Operates, working_of};
ghost use Rattle.bdd.specs.Pairs.{job};
ghost use Rattle.boolean_ops.specs.Operations.{Dries};

use bdd::{Answer, Limit, NO_FLIPS, Operands, OutputRuns, Refusal, RuleSet, WorkingRuns};
use boolean_ops::Dry;

// An operator by nine lent answers.
pub fn binary_op(
    table: &[u8],
    left: &RuleSet<'_>,
    right: &RuleSet<'_>,
    out: &mut OutputRuns<'_>,
    work: &mut WorkingRuns<'_>,
) -> Answer
    ensures same { SameOutput out.old out.new }
    ensures same_work { SameWorking work.old work.new }
    ensures operates { Operates (operation (job (set_of left.now) (set_of right.now) table.now no_flip no_flip) no_flip no_limit)
        (output_of out.old) (output_of out.new) (working_of work.old) (working_of work.new) result }
{
    binary_op_with_limit(None, table, left, right, out, work)
}

// The same, refused where the array is longer than the limit.
pub fn binary_op_with_limit(
    limit: Limit,
    table: &[u8],
    left: &RuleSet<'_>,
    right: &RuleSet<'_>,
    out: &mut OutputRuns<'_>,
    work: &mut WorkingRuns<'_>,
) -> Answer
    ensures same { SameOutput out.old out.new }
    ensures same_work { SameWorking work.old work.new }
    ensures operates { Operates (operation (job (set_of left.now) (set_of right.now) table.now no_flip no_flip) no_flip limit)
        (output_of out.old) (output_of out.new) (working_of work.old) (working_of work.new) result }
{
    let job = Operands {
        table,
        left: *left,
        right: *right,
        flips: NO_FLIPS,
    };
    boolean_ops::fused_binary_flip_op_with_limit(limit, &job, out, work)
}

// The same with flips, without a limit.
pub fn fused_binary_flip_op(
    job: &Operands<'_>,
    out: &mut OutputRuns<'_>,
    work: &mut WorkingRuns<'_>,
) -> Answer
    ensures same { SameOutput out.old out.new }
    ensures same_work { SameWorking work.old work.new }
    ensures operates { Operates (operation_of job.now no_limit)
        (output_of out.old) (output_of out.new) (working_of work.old) (working_of work.new) result }
{
    boolean_ops::fused_binary_flip_op_with_limit(None, job, out, work)
}

// The dry run of an operator without flips.
pub fn check_binary_op(
    limit: Limit,
    table: &[u8],
    left: &RuleSet<'_>,
    right: &RuleSet<'_>,
    pairs: &mut [u32],
    stack: &mut [u32],
) -> Result<Dry, Refusal>
    ensures { Dries (operation (job (set_of left.now) (set_of right.now) table.now no_flip no_flip) no_flip limit)
        pairs.old stack.old pairs.new stack.new result }
{
    let job = Operands {
        table,
        left: *left,
        right: *right,
        flips: NO_FLIPS,
    };
    boolean_ops::check_fused_binary_flip_op(limit, &job, pairs, stack)
}
