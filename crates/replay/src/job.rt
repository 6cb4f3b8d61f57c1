// One recorded job, run through the library, by its kind. The kinds are the list's own numbers, and each goes straight to its call: an
// enum would say each once more.
use crate::{bytes, makers, operators, sets};
use replay_list::numbers::Numbers;

// Whether the library's answer to the job is the recorded one; not where the job does not fit.
pub fn agrees(mut numbers: Numbers<'_>) -> bool {
    let agrees = match numbers.word() {
        1 => makers::makes_false(numbers),
        2 => makers::makes_true(numbers),
        3 => makers::makes_literal(numbers),
        4 => bytes::writes(numbers),
        5 => bytes::reads(numbers),
        6 => sets::negates(numbers),
        7 => sets::checks(numbers),
        8 => operators::functions(numbers),
        9 => operators::operates(numbers),
        10 => operators::dry_runs(numbers),
        _ => None,
    };
    agrees.unwrap_or(false)
}
