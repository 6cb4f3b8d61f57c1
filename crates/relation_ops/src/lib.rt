// Quantifiers and selection (document 01, module 7; the Rust's _impl_relation_ops.rs): each is one operator on one set.
#![tactic(auto)]

ghost use Rattle.bdd.specs.Lent.{set_of, output_of, SameOutput, SameWorking};
ghost use Rattle.bdd.specs.Operations.{working_of};
ghost use Rattle.std.specs.Prelude.{◌≡◌, get_or};
ghost use Rattle.bdd.specs.Jobs.{digit};
ghost use Rattle.relation_ops.specs.Relations.{existential, universal, selection, Relates, retold, as_option};

use bdd::{Answer, Flips, OutputRuns, Refusal, RuleSet, WorkingRuns};

// The right set alone is flipped, at an option.
fn flipped(v: u16) -> Flips
    ensures { result ≡ record { left = None; right = Some v; output = None } }
{
    Flips {
        left: None,
        right: Some(v),
        output: None,
    }
}

// On where the set is on with the option off or with it on: the or of the set and of itself, flipped at the option.
pub fn var_exists(
    set: &RuleSet<'_>,
    v: u16,
    out: &mut OutputRuns<'_>,
    work: &mut WorkingRuns<'_>,
) -> Answer
    ensures same { SameOutput out.old out.new }
    ensures same_work { SameWorking work.old work.new }
    ensures relates { Relates (existential (set_of set.now) v) (output_of out.old) (output_of out.new) (working_of work.old) (working_of work.new) result }
{
    let same = *set;
    operators::numbered_flip_op(14, set, &same, flipped(v), out, work)
}

// On where the set is on with both: the and.
pub fn var_for_all(
    set: &RuleSet<'_>,
    v: u16,
    out: &mut OutputRuns<'_>,
    work: &mut WorkingRuns<'_>,
) -> Answer
    ensures same { SameOutput out.old out.new }
    ensures same_work { SameWorking work.old work.new }
    ensures relates { Relates (universal (set_of set.now) v) (output_of out.old) (output_of out.new) (working_of work.old) (working_of work.new) result }
{
    let same = *set;
    operators::numbered_flip_op(8, set, &same, flipped(v), out, work)
}

// n as entry 0 has it, 0 where there is no entry: such a set is refused with 2 by the operator.
fn options_of(variable: &[u16]) -> u16
    ensures { result ≡ get_or variable.now 0 0 }
{
    variable.first().copied().unwrap_or(0)
}

fn link_of(on: bool) -> u32
    ensures { result ≡ digit on }
{
    u32::from(on)
}

// The literal over the set's own n is not ordered exactly where its option is n or more: 3 is told as 5, by the paper's numbers, as
// `as_option` has it.
fn option_told(answer: Answer) -> Answer
    ensures { result ≡ retold as_option answer }
{
    match answer {
        Err(why) if u32::from(why) == 3 => Err(Refusal::NoSuchOption),
        _ => answer,
    }
}

// The set's value where the option stands as asked, otherwise off: the and with the literal, which needs no room.
pub fn var_select(
    set: &RuleSet<'_>,
    v: u16,
    value: bool,
    out: &mut OutputRuns<'_>,
    work: &mut WorkingRuns<'_>,
) -> Answer
    ensures same { SameOutput out.old out.new }
    ensures same_work { SameWorking work.old work.new }
    ensures relates { Relates (selection (set_of set.now) v value) (output_of out.old) (output_of out.new) (working_of work.old) (working_of work.new) result }
{
    let n = options_of(set.variable);
    let literal = RuleSet {
        variable: &[n, n, v],
        low: &[0, 1, link_of(!value)],
        high: &[0, 1, link_of(value)],
    };
    option_told(operators::numbered_op(8, set, &literal, out, work))
}
