// Kinds 1, 2 and 3: false, true, a literal.
use bdd::{Answer, OutputRuns};
use replay_list::numbers::Numbers;
use replay_list::runs::{ENTRIES, MARK};
use replay_list::set::JobSet;

// Done with the S and the entries that are recorded next.
fn makes<F: FnOnce(&mut OutputRuns<'_>) -> Answer>(
    mut numbers: Numbers<'_>,
    make: F,
) -> Option<bool>
    requires { F.IsAlwaysCallable make }
{
    let mut output = JobSet::zero();
    output.fill(ENTRIES, MARK);
    let made = make(&mut output.lent_mut()).ok()?;
    Some(made == numbers.size() && output.agrees(made, numbers, MARK))
}

pub fn makes_false(mut numbers: Numbers<'_>) -> Option<bool> {
    let options = numbers.half_word();
    makes(numbers, |output| bdd_node::mk_false(options, output))
}

pub fn makes_true(mut numbers: Numbers<'_>) -> Option<bool> {
    let options = numbers.half_word();
    makes(numbers, |output| bdd_node::mk_true(options, output))
}

pub fn makes_literal(mut numbers: Numbers<'_>) -> Option<bool> {
    let options = numbers.half_word();
    let option = numbers.half_word();
    let on = numbers.flag();
    makes(
        numbers,
        |output| bdd_node::mk_literal(options, option, on, output),
    )
}
