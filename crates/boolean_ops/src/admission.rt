// The refusals that an operator and its dry run share, in the paper's order: 1 to 5, and 6 for the stack.
ghost use Rattle.std.specs.Prelude.{◌≡◌, ◌||◌};
ghost use Rattle.bdd.specs.Array.{options};
ghost use Rattle.bdd.specs.Lent.{set_of};
ghost use Rattle.bdd.specs.Operations.{beyond, job_checks};
ghost use Rattle.bdd.specs.Pairs.{job_of};
ghost use Rattle.boolean_ops.specs.Pieces.{Admits};

use bdd::{Flip, Flips, Operands, Refusal};

fn is_beyond(n: u16, flip: Flip) -> bool
    ensures { result ≡ beyond n flip }
{
    match flip {
        None => false,
        Some(v) => n <= v,
    }
}

fn are_beyond(n: u16, flips: Flips) -> bool
    ensures { result ≡ (beyond n flips.left || beyond n flips.right || beyond n flips.output) }
{
    is_beyond(n, flips.left) || is_beyond(n, flips.right) || is_beyond(n, flips.output)
}

// Over how many options the operator may run, or the first of the refusals.
pub(crate) fn admit(job: &Operands<'_>, places: usize) -> Result<u16, Refusal>
    ensures { Admits (job_checks (job_of job.now) job.now.flips.output places) (options (set_of job.now.left)) result }
{
    if !op_function::check_table(job.table) {
        return Err(Refusal::BadTable);
    }
    let Some(n) = checks::check_ordered(&job.left) else {
        return Err(Refusal::LeftNotOrdered);
    };
    let Some(m) = checks::check_ordered(&job.right) else {
        return Err(Refusal::RightNotOrdered);
    };
    if n != m {
        return Err(Refusal::CountsDiffer);
    }
    if are_beyond(n, job.flips) {
        return Err(Refusal::NoSuchOption);
    }
    if places < 2 * (n as usize) + 1 {
        return Err(Refusal::ShortRun);
    }
    Ok(n)
}
