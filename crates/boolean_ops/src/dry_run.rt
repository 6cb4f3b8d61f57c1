// The dry run after its checks: what the count comes to under the limit and the pair run's room.
ghost use Rattle.std.specs.Prelude.{◌≡◌, length};
ghost use Rattle.std.proofs.Math.Option.{none};
ghost use Rattle.bdd.specs.Operations.{operation_of, job_checks};
ghost use Rattle.bdd.specs.Pairs.{job_of};
ghost use Rattle.bdd.proofs.Refusing.{first_in_list};
ghost use Rattle.boolean_ops.specs.Operations.{Dries};
ghost use Rattle.boolean_ops.specs.Pieces.{dried};

use crate::Dry;
use bdd::{Limit, Operands, Refusal};
use complexity::Counted;

fn dry_of(counted: Option<Counted>, limited: bool) -> Result<Dry, Refusal>
    ensures { result ≡ dried counted limited }
{
    match counted {
        None => Err(ending::excess(limited, Refusal::PairRoom)),
        Some(c) => Ok(Dry {
            can_hold: c.on,
            pairs: c.pairs,
        }),
    }
}

pub(crate) fn run(
    limit: Limit,
    job: &Operands<'_>,
    pairs: &mut [u32],
    stack: &mut [u32],
) -> Result<Dry, Refusal>
    requires { first_in_list (job_checks (job_of job.now) job.now.flips.output (length stack.old)) ≡ none }
    ensures { Dries (operation_of job.now limit) pairs.old stack.old pairs.new stack.new result }
{
    let bound = ending::bound_of(limit, pairs.len() / 4);
    // The part of the pair run that has room for `most` pairs, so that one more is too many.
    let counted = noting::estimated_apply_complexity(job, &mut pairs[..4 * bound.most]);
    lent::clear(pairs);
    lent::clear(stack);
    dry_of(counted, bound.limited)
}
