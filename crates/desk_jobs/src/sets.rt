// Jobs on one set that need no operator: the checks, its entries, its value, and negation.
use crate::files;
use crate::files::Input;
use crate::runs::Runs;
use bdd::{BddNode, Refusal, RuleSet};
use desk_words::lines::{Line, Tails, Written};
use desk_words::options::{Form, Put};
use desk_words::outcome::{Ended, Outcome};
use desk_words::texts::Things;
use desk_words::{lines, options};

pub fn is_signed(set: &RuleSet<'_>) -> bool {
    set_checks::check_signing(set).is_some()
}

// The strictest of the three checks that says yes, or that none does.
#[derive(Clone, Copy, Debug, PartialEq, Eq)]
enum Checked {
    Signed,
    Tidy,
    Ordered,
    NotOrdered,
}

impl Checked {
    fn of(set: &RuleSet<'_>) -> Checked {
        if is_signed(set) {
            Checked::Signed
        } else if set_checks::check_tidy(set).is_some() {
            Checked::Tidy
        } else if checks::check_ordered(set).is_some() {
            Checked::Ordered
        } else {
            Checked::NotOrdered
        }
    }

    fn text(self) -> &'static [u8] {
        match self {
            Checked::Signed => b"in signing order: ",
            Checked::Tidy => b"tidy, not in signing order: ",
            Checked::Ordered => b"ordered, not tidy: ",
            Checked::NotOrdered => b"not ordered: ",
        }
    }
}

// n as entry 0 has it; a set with no entry has none. `relation_ops` has it in the type that its clause speaks of.
pub fn options_of(set: &RuleSet<'_>) -> usize {
    set.variable.first().copied().map_or(0, usize::from)
}

// The entries of a set, and its options where it is not empty.
fn say_sizes(line: Line<'_>, set: &RuleSet<'_>) -> Written {
    if !set.variable.is_empty() {
        line.count(options_of(set), Things::Options)?;
        line.say(b", ")?;
    }
    line.count(set.variable.len(), Things::Entries)
}

// What the strictest check that says yes is, and how large the set is; of a set that is not ordered n is not known.
fn say_checks(line: Line<'_>, checked: Checked, set: &RuleSet<'_>) -> Written {
    line.say(checked.text())?;
    if checked == Checked::NotOrdered {
        return line.count(set.variable.len(), Things::Entries);
    }
    say_sizes(line, set)
}

fn show_field(line: Line<'_>, name: &[u8], x: u32) -> Written {
    line.say(name)?;
    line.number(x as usize)
}

fn show_entry(line: Line<'_>, i: usize, entry: BddNode) -> Written {
    line.number(i)?;
    show_field(line, b": option ", u32::from(entry.variable))?;
    show_field(line, b", off to ", entry.low)?;
    show_field(line, b", on to ", entry.high)?;
    line.end()
}

// The entries as they stand, the root last, and the sizes.
fn say_entries(line: Line<'_>, set: &RuleSet<'_>) -> Written {
    let entries = set.variable.iter().zip(set.low).zip(set.high);
    for (i, ((&variable, &low), &high)) in entries.enumerate() {
        let entry = BddNode {
            variable,
            low,
            high,
        };
        show_entry(line, i, entry)?;
    }
    say_sizes(line, set)
}

// The end of a job on one set, of whose line this much was said.
fn ended(line: Line<'_>, said: Written, input: &Input<'_>, outcome: Outcome) -> Ended {
    line.close(said, Tails::one(input.tail), outcome, None)
}

fn refused(rt: &HostRuntime, why: Refusal, input: &Input<'_>) -> Ended {
    Err(lines::refuse(rt, why, Tails::one(input.tail)))
}

// desk check FILE.
pub fn check(rt: &HostRuntime, input: &Input<'_>) -> Ended {
    let checked = Checked::of(&input.set);
    let line = Line::answer(rt);
    let said = say_checks(line, checked, &input.set);
    let is_signed = checked == Checked::Signed;
    ended(line, said, input, Outcome::from(is_signed))
}

fn say_ready(line: Line<'_>, set: &RuleSet<'_>) -> Written {
    line.say(b"hash-ready: ")?;
    say_sizes(line, set)
}

fn say_not_ready(line: Line<'_>, checked: Checked, set: &RuleSet<'_>) -> Written {
    line.say(b"not hash-ready: ")?;
    say_checks(line, checked, set)
}

// desk hash-ready FILE: a set that is not ordered is refused, as by every job that reads one.
pub fn hash_ready(rt: &HostRuntime, input: &Input<'_>) -> Ended {
    let checked = Checked::of(&input.set);
    if checked == Checked::NotOrdered {
        return refused(rt, Refusal::LeftNotOrdered, input);
    }
    let line = Line::answer(rt);
    let is_ready = checked == Checked::Signed && input.tail.bytes == 0;
    let said = if is_ready {
        say_ready(line, &input.set)
    } else {
        say_not_ready(line, checked, &input.set)
    };
    ended(line, said, input, Outcome::from(is_ready))
}

// desk show FILE.
pub fn show(rt: &HostRuntime, input: &Input<'_>) -> Ended {
    let line = Line::answer(rt);
    let said = say_entries(line, &input.set);
    ended(line, said, input, Outcome::Yes)
}

// How many numbers of the setting are lent: n, or more than any set has where an option is n or more, so that the refusal is the library's.
fn lent_of(n: usize, put: &Put) -> usize {
    if put.beyond(n).is_some() {
        options::BEYOND
    } else {
        n
    }
}

// desk value FILE [V]..
pub fn value(rt: &HostRuntime, input: &Input<'_>) -> Ended {
    let put = Put::read(rt, 3, Form::On)?;
    let set = &input.set;
    let setting = put.values(lent_of(options_of(set), &put));
    match compare::value_at(set, setting) {
        Ok(on) => {
            let line = Line::answer(rt);
            let said = line.say(if on { b"on" } else { b"off" });
            ended(line, said, input, Outcome::from(on))
        }
        Err(why) => refused(rt, why, input),
    }
}

// desk not IN OUT.
pub fn not(rt: &HostRuntime, input: &Input<'_>) -> Ended {
    let mut out = Runs::new();
    let answer = negation::not(&input.set, &mut out.output());
    files::finish(rt, answer, 3, Tails::one(input.tail), &out)
}
