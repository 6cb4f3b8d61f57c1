// The operators (document 01, module 5; the Rust's _impl_boolean_ops.rs): the one with flips and a limit, which every other form
// calls, and its dry run.
#![tactic(auto)]

mod admission;
mod dry_run;

ghost use Rattle.bdd.specs.Lent.{output_of, SameOutput, SameWorking};
ghost use Rattle.bdd.specs.Operations.{operation_of, Operates, working_of};
ghost use Rattle.boolean_ops.specs.Operations.{Dries};
ghost use Rattle.boolean_ops.specs.Pieces.{Zeros};

use bdd::{Answer, Limit, Operands, OutputRuns, Refusal, WorkingRuns};

// What a dry run finds: "can it hold" and c, as its callers name them; `Counted` is the inside's.
#[derive(Clone, Copy, Debug, PartialEq, Eq)]
pub struct Dry {
    pub can_hold: bool,
    pub pairs: usize,
}

fn clear_working(work: &mut WorkingRuns<'_>)
    ensures same_work { SameWorking work.old work.new }
    ensures zeros { Zeros (working_of work.old) (working_of work.new) }
{
    lent::clear(work.pairs);
    lent::clear(work.stack);
    lent::clear(work.index);
}

// An operator by nine lent answers, with flips for left, right and output, and a limit.
pub fn fused_binary_flip_op_with_limit(
    limit: Limit,
    job: &Operands<'_>,
    out: &mut OutputRuns<'_>,
    work: &mut WorkingRuns<'_>,
) -> Answer
    ensures same { SameOutput out.old out.new }
    ensures same_work { SameWorking work.old work.new }
    ensures operates { Operates (operation_of job.now limit)
        (output_of out.old) (output_of out.new) (working_of work.old) (working_of work.new) result }
{
    let n = admission::admit(job, work.stack.len())?;
    let w = lent::room(out);
    if work.index.len() < w {
        return Err(Refusal::ShortRun);
    }
    let bound = ending::bound_of(limit, w);
    let explored = apply::apply_with_flip_and_limit(job, bound.most, out, work);
    let answer = ending::answer_of(explored, bound);
    ending::leave(answer, n, out);
    clear_working(work);
    answer
}

// The dry run of an operator: "can it hold" and how many pairs it would take, or why it was not run.
pub fn check_fused_binary_flip_op(
    limit: Limit,
    job: &Operands<'_>,
    pairs: &mut [u32],
    stack: &mut [u32],
) -> Result<Dry, Refusal>
    ensures { Dries (operation_of job.now limit) pairs.old stack.old pairs.new stack.new result }
{
    admission::admit(job, stack.len())?;
    dry_run::run(limit, job, pairs, stack)
}
