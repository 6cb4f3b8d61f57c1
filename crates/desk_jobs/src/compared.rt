// Whether two files hold the same numbers, or mean the same in another order, or differ, and then where.
use crate::files::Input;
use crate::sets;
use bdd::RuleSet;
use compare::Comparison;
use desk_words::lines;
use desk_words::lines::{Line, Tails, Written};
use desk_words::outcome::{Ended, Outcome};
use desk_words::texts::Things;

// Which of two sets that mean the same is in signing order; in another order, both cannot be.
fn signed(left: &RuleSet<'_>, right: &RuleSet<'_>) -> &'static [u8] {
    if sets::is_signed(left) {
        b"left"
    } else if sets::is_signed(right) {
        b"right"
    } else {
        b"neither"
    }
}

// The options that are on in a setting.
fn say_options(line: Line<'_>, setting: &[u8]) -> Written {
    let mut before: &[u8] = b" at options on: ";
    for (i, value) in setting.iter().enumerate() {
        if *value == 1 {
            line.say(before)?;
            line.number(i)?;
            before = b" ";
        }
    }
    Ok(())
}

fn say_difference(line: Line<'_>, left: bool, setting: &[u8]) -> Written {
    let values: &[u8] = if left {
        b"differ: left on, right off"
    } else {
        b"differ: left off, right on"
    };
    line.say(values)?;
    say_options(line, setting)?;
    let others: &[u8] = if setting.contains(&1) {
        b", all others off"
    } else {
        b" with all options off"
    };
    line.say(others)
}

fn say_equal(line: Line<'_>, entries: usize) -> Written {
    line.say(b"same numbers: ")?;
    line.count(entries, Things::Entries)
}

fn say_order(line: Line<'_>, signed: &[u8]) -> Written {
    line.say(b"same meaning, another order; in signing order: ")?;
    line.say(signed)
}

// Room to compare any two sets without long searches: nine numbers for each entry of both.
const ROOM: usize = 9 * 2 * bdd::MOST_ENTRIES;

// desk same LEFT RIGHT.
pub fn same(rt: &HostRuntime, left: &Input<'_>, right: &Input<'_>) -> Ended {
    let mut setting = [0u8; compare::SETTING];
    let mut room = [0u32; ROOM];
    let line = Line::answer(rt);
    let tails = Tails::two(left.tail, right.tail);
    let (l, r) = (&left.set, &right.set);
    match compare::same(l, r, &mut setting, &mut room) {
        Ok(Comparison::SameNumbers) => {
            let said = say_equal(line, l.variable.len());
            line.close(said, tails, Outcome::Yes, None)
        }
        Ok(Comparison::SameMeaning) => {
            let said = say_order(line, signed(l, r));
            line.close(said, tails, Outcome::Yes, None)
        }
        Ok(Comparison::Differ(is_left)) => {
            let said = say_difference(line, is_left, &setting);
            line.close(said, tails, Outcome::No, None)
        }
        Err(why) => Err(lines::refuse(rt, why, tails)),
    }
}
