// What may follow the files of an operator: left V, right V, out V, limit K, each once, in any order.
use crate::outcome::Failure;
use crate::texts::Wanted;
use crate::{lines, words};

#[derive(Clone, Copy, Debug, PartialEq, Eq, Default)]
pub struct Choices {
    pub left: Option<u16>,
    pub right: Option<u16>,
    pub out: Option<u16>,
    pub limit: Option<usize>,
}

fn say_missing(rt: &HostRuntime, i: usize) -> Failure {
    lines::fault(rt, b"a number is missing behind ");
    lines::fault_word(rt, i);
    lines::fault(rt, b"\n");
    Failure::Wrong
}

// That the word behind word i is not the number that is wanted.
fn say_bad(rt: &HostRuntime, i: usize, wanted: Wanted) -> Failure {
    lines::fault(rt, b"behind ");
    lines::fault_word(rt, i);
    lines::fault(rt, b", ");
    lines::not_this(rt, wanted, words::next(i))
}

// Puts the number behind word i where none was chosen before. The number is what is read of that word.
fn put<T: Copy>(
    rt: &HostRuntime,
    i: usize,
    wanted: Wanted,
    number: Option<T>,
    choice: &mut Option<T>,
) -> Result<(), Failure> {
    if choice.is_some() {
        return Err(lines::not_this(rt, Wanted::SaidOnce, i));
    }
    if !words::has(rt, words::next(i)) {
        return Err(say_missing(rt, i));
    }
    if number.is_none() {
        return Err(say_bad(rt, i, wanted));
    }
    *choice = number;
    Ok(())
}

impl Choices {
    // Takes the choice that word i begins.
    fn take(&mut self, rt: &HostRuntime, i: usize) -> Result<(), Failure> {
        let behind = words::next(i);
        let option = words::small_number(rt, behind);
        let limit = words::number(rt, behind).map(|x| x as usize);
        let mut word = [0u8; words::LONGEST];
        match words::take(rt, i, &mut word) {
            b"left" => put(rt, i, Wanted::Option, option, &mut self.left),
            b"right" => put(rt, i, Wanted::Option, option, &mut self.right),
            b"out" => put(rt, i, Wanted::Option, option, &mut self.out),
            b"limit" => put(rt, i, Wanted::Limit, limit, &mut self.limit),
            _ => Err(lines::not_this(rt, Wanted::Choice, i)),
        }
    }

    // The choices from word i on. A fifth choice repeats one of the four.
    pub fn read(rt: &HostRuntime, i: usize) -> Result<Choices, Failure> {
        let mut choices = Choices::default();
        for at in (i..words::count(rt)).step_by(2) {
            choices.take(rt, at)?;
        }
        Ok(choices)
    }
}
