// Jobs on two sets: an operator, its dry run, and whether they are the same.
use bdd::{Flips, Operands};
use boolean_ops::Dry;
use desk_jobs::files::Input;
use desk_jobs::runs::{Runs, Work};
use desk_jobs::{PAIRS, compared, files};
use desk_words::choices::Choices;
use desk_words::lines::{Line, Tails, Written};
use desk_words::outcome::{Ended, Failure, Outcome};
use desk_words::texts::{Things, Wanted};
use desk_words::{lines, tables, words};
use lent::STACK;

// What words ask of an operator.
#[derive(Clone, Copy)]
struct Asked {
    table: [u8; 9],
    choices: Choices,
}

impl Asked {
    // The operator is word i, and the choices are from a word on.
    fn of(rt: &HostRuntime, i: usize, behind: usize) -> Result<Asked, Failure> {
        Ok(Asked {
            table: tables::taken(rt, i)?,
            choices: Choices::read(rt, behind)?,
        })
    }
}

// The two sets that a job was given.
#[derive(Clone, Copy)]
struct Inputs<'a> {
    left: Input<'a>,
    right: Input<'a>,
}

impl Inputs<'_> {
    fn tails(&self) -> Tails {
        Tails::two(self.left.tail, self.right.tail)
    }

    // What the operator works on.
    fn operands<'a>(&'a self, asked: &'a Asked) -> Operands<'a> {
        Operands {
            table: &asked.table,
            left: self.left.set,
            right: self.right.set,
            flips: Flips {
                left: asked.choices.left,
                right: asked.choices.right,
                output: asked.choices.out,
            },
        }
    }
}

// The sets in the files of word i and the next. Standard input is read once.
fn load<'a>(
    rt: &HostRuntime,
    i: usize,
    left: &'a mut Runs,
    right: &'a mut Runs,
) -> Result<Inputs<'a>, Failure> {
    let j = words::next(i);
    if words::is_dash(rt, i) && words::is_dash(rt, j) {
        return Err(lines::not_this(rt, Wanted::SaidOnce, j));
    }
    Ok(Inputs {
        left: files::load(rt, i, left)?,
        right: files::load(rt, j, right)?,
    })
}

fn say_dry(line: Line<'_>, dry: Dry) -> Written {
    let head: &[u8] = if dry.can_hold {
        b"can hold, "
    } else {
        b"cannot hold, "
    };
    line.say(head)?;
    line.count(dry.pairs, Things::Pairs)
}

// The dry run, once its words are read.
fn run_dry(
    rt: &HostRuntime,
    asked: &Asked,
    inputs: &Inputs<'_>,
    pairs: &mut [u32; PAIRS],
) -> Ended {
    let mut stack = [0u32; STACK];
    let dry = boolean_ops::check_fused_binary_flip_op(
        asked.choices.limit,
        &inputs.operands(asked),
        pairs,
        &mut stack,
    )
    .map_err(|why| lines::refuse(rt, why, inputs.tails()))?;
    let line = Line::answer(rt);
    let said = say_dry(line, dry);
    line.close(said, inputs.tails(), Outcome::from(dry.can_hold), None)
}

// The operator, and its file at word i.
fn run_whole(
    rt: &HostRuntime,
    i: usize,
    asked: &Asked,
    inputs: &Inputs<'_>,
    pairs: &mut [u32; PAIRS],
) -> Ended {
    let mut out = Runs::new();
    let mut work = Work::new();
    let answer = boolean_ops::fused_binary_flip_op_with_limit(
        asked.choices.limit,
        &inputs.operands(asked),
        &mut out.output(),
        &mut work.lend(pairs),
    );
    files::finish(rt, answer, i, inputs.tails(), &out)
}

// desk same LEFT RIGHT.
pub fn same(rt: &HostRuntime) -> Ended {
    let mut left = Runs::new();
    let mut right = Runs::new();
    let inputs = load(rt, 2, &mut left, &mut right)?;
    compared::same(rt, &inputs.left, &inputs.right)
}

// desk dry P LEFT RIGHT [CHOICES].
pub fn dry(rt: &HostRuntime, pairs: &mut [u32; PAIRS]) -> Ended {
    let asked = Asked::of(rt, 2, 5)?;
    let mut left = Runs::new();
    let mut right = Runs::new();
    let inputs = load(rt, 3, &mut left, &mut right)?;
    run_dry(rt, &asked, &inputs, pairs)
}

// The operator that word i says; its sets, its file and its choices are behind it.
fn operate(rt: &HostRuntime, i: usize, pairs: &mut [u32; PAIRS]) -> Ended {
    let first = words::next(i);
    let out = words::next(words::next(first));
    let asked = Asked::of(rt, i, words::next(out))?;
    let mut left = Runs::new();
    let mut right = Runs::new();
    let inputs = load(rt, first, &mut left, &mut right)?;
    run_whole(rt, out, &asked, &inputs, pairs)
}

// desk OPERATOR LEFT RIGHT OUT [CHOICES].
pub fn by_name(rt: &HostRuntime, pairs: &mut [u32; PAIRS]) -> Ended {
    operate(rt, 1, pairs)
}

// desk op P LEFT RIGHT OUT [CHOICES].
pub fn by_word(rt: &HostRuntime, pairs: &mut [u32; PAIRS]) -> Ended {
    operate(rt, 2, pairs)
}
