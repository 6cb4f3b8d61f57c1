// The sets that are made of words alone.
use crate::files;
use crate::runs::Runs;
use desk_words::lines::Tails;
use desk_words::outcome::{Ended, Failure};
use desk_words::texts::Wanted;
use desk_words::{lines, options, words};

// The number of options that word 2 says, or a line.
fn count(rt: &HostRuntime) -> Result<u16, Failure> {
    words::small_number(rt, 2).ok_or_else(|| lines::not_this(rt, Wanted::Count, 2))
}

// desk false N OUT, desk true N OUT.
pub fn constant(rt: &HostRuntime, value: bool) -> Ended {
    let n = count(rt)?;
    let mut out = Runs::new();
    let answer = if value {
        bdd_node::mk_true(n, &mut out.output())
    } else {
        bdd_node::mk_false(n, &mut out.output())
    };
    files::finish(rt, answer, 3, Tails::none(), &out)
}

// desk literal N V on|off OUT.
pub fn literal(rt: &HostRuntime) -> Ended {
    let n = count(rt)?;
    let v = options::option(rt, 3)?;
    let value = options::value(rt, 4)?;
    let mut out = Runs::new();
    let answer = bdd_node::mk_literal(n, v, value, &mut out.output());
    files::finish(rt, answer, 5, Tails::none(), &out)
}
