// The words that every call shares: the bounds, the refusals, the answers of the makers of arrays, and what callers lend: the runs
// of a rule set, of the output and of the work. What each means is said in specs/, beside the paper.

#![tactic(auto)]

ghost use Rattle.std.specs.Prelude.{◌≡◌};
ghost use Rattle.bdd.specs.Answers.{number};
ghost use Rattle.bdd.specs.Lent.{set_of, output_of};

// The greatest number of options, and of entries. The definitions have them in specs/Bounds.antt.
pub const MOST_OPTIONS: u16 = 256;

pub const MOST_ENTRIES: usize = 4096;

// Two numbers of entries in one: the first times this, and the second, which is smaller.
pub const FACTOR: u32 = 32768;

// Why a call says no. specs/Answers.antt has the paper's number of each.
#[derive(Clone, Copy, Debug, PartialEq, Eq)]
pub enum Refusal {
    BadTable,
    LeftNotOrdered,
    RightNotOrdered,
    CountsDiffer,
    NoSuchOption,
    BadList,
    ShortRun,
    PairRoom,
    OverLimit,
    NoRoom,
}

// The paper's number of a refusal.
impl From<Refusal> for u32 {
    ghost from_gives = { λ why k. k ≡ number why };

    fn from(why: Refusal) -> u32 {
        match why {
            Refusal::BadTable => 1,
            Refusal::LeftNotOrdered => 2,
            Refusal::RightNotOrdered => 3,
            Refusal::CountsDiffer => 4,
            Refusal::NoSuchOption => 5,
            Refusal::ShortRun => 6,
            Refusal::PairRoom => 7,
            Refusal::OverLimit => 8,
            Refusal::NoRoom => 9,
            Refusal::BadList => 10,
        }
    }
}

// What a maker of arrays answers: the length S of the array that it wrote, or why it wrote none.
pub type Answer = Result<usize, Refusal>;

// The option that is switched for a set or for the output, or none.
pub type Flip = Option<u16>;

// The most entries that an operator may write, or no limit.
pub type Limit = Option<usize>;

// One entry of the left set and one of the right.
#[derive(Clone, Copy, Debug, PartialEq, Eq)]
pub struct Pair {
    pub left: u32,
    pub right: u32,
}

// The flips of an operator: of its left set, its right set and its output.
#[derive(Clone, Copy, Debug, PartialEq, Eq)]
pub struct Flips {
    pub left: Flip,
    pub right: Flip,
    pub output: Flip,
}

// No option is flipped.
pub const NO_FLIPS: Flips = Flips {
    left: None,
    right: None,
    output: None,
};

// One entry of an array, by value.
#[derive(Clone, Copy, Debug, PartialEq, Eq)]
pub struct BddNode {
    pub variable: u16,
    pub low: u32,
    pub high: u32,
}

// The three lent runs of a rule set, of any lengths and any numbers. C lends three runs, so they are no slice of entries.
#[derive(Clone, Copy)]
pub struct RuleSet<'a> {
    pub variable: &'a [u16],
    pub low: &'a [u32],
    pub high: &'a [u32],
}

// What an operator works on: nine answers, two sets, and the flips.
#[derive(Clone, Copy)]
pub struct Operands<'a> {
    pub table: &'a [u8],
    pub left: RuleSet<'a>,
    pub right: RuleSet<'a>,
    pub flips: Flips,
}

// The three lent runs that an array is written into.
#[derive(Drop)]
pub struct OutputRuns<'a> {
    pub variable: &'a mut [u16],
    pub low: &'a mut [u32],
    pub high: &'a mut [u32],
}

// The lent runs that an operator works in.
#[derive(Drop)]
pub struct WorkingRuns<'a> {
    pub pairs: &'a mut [u32],
    pub stack: &'a mut [u32],
    pub index: &'a mut [u32],
}

impl OutputRuns<'_> {
    // The runs as a set that is read.
    pub fn as_set(&self) -> RuleSet<'_>
        ensures { set_of result ≡ output_of self.now }
    {
        RuleSet {
            variable: self.variable,
            low: self.low,
            high: self.high,
        }
    }
}
