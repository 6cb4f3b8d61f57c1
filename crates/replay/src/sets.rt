// Jobs on one set: negation and the three checks.
use bdd::RuleSet;
use replay_list::numbers::Numbers;
use replay_list::runs;
use replay_list::runs::{ENTRIES, MARK};
use replay_list::set::JobSet;

fn negation_agrees(size: usize, mut numbers: Numbers<'_>) -> bool {
    let mut set = JobSet::zero();
    let mut output = JobSet::zero();
    set.lay(size, &mut numbers);
    output.fill(ENTRIES, MARK);
    let answer = negation::not(&set.lent(), &mut output.lent_mut());
    output.answer_agrees(answer, numbers, MARK)
}

// Kind 6: negation. The crate negates any set; a set not ordered is refused here.
pub fn negates(mut numbers: Numbers<'_>) -> Option<bool> {
    let size = numbers.size_within(ENTRIES)?;
    Some(negation_agrees(size, numbers))
}

// A check's yes carries the set's n; any other n is told apart from yes and no.
fn verdict(yes: Option<u16>, set: &RuleSet<'_>) -> u32 {
    let first = set.variable.first().copied().unwrap_or(0);
    match yes {
        None => 0,
        Some(n) if n == first => 1,
        Some(_) => 2,
    }
}

// The three verdicts are recorded next.
fn verdicts_agree(mut numbers: Numbers<'_>, set: &RuleSet<'_>) -> bool {
    verdict(checks::check_ordered(set), set) == numbers.word()
        && verdict(set_checks::check_tidy(set), set) == numbers.word()
        && verdict(set_checks::check_signing(set), set) == numbers.word()
}

// Kind 7: ordered, tidy, signing order; the three runs may differ in length.
pub fn checks(mut numbers: Numbers<'_>) -> Option<bool> {
    let variables = numbers.size_within(ENTRIES)?;
    let lows = numbers.size_within(ENTRIES)?;
    let highs = numbers.size_within(ENTRIES)?;
    let mut variable = [0u16; ENTRIES];
    let mut low = [0u32; ENTRIES];
    let mut high = [0u32; ENTRIES];
    let variable = &mut variable[..variables];
    let low = &mut low[..lows];
    let high = &mut high[..highs];
    runs::lay(variable, &mut numbers, Numbers::half_word);
    runs::lay(low, &mut numbers, Numbers::word);
    runs::lay(high, &mut numbers, Numbers::word);
    let set = RuleSet {
        variable,
        low,
        high,
    };
    Some(verdicts_agree(numbers, &set))
}
