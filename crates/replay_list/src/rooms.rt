// How long the runs of a job are, as it is recorded, and the working runs.
ghost use Rattle.std.specs.Prelude.{◌≤◌};

use crate::numbers::Numbers;
use crate::runs;
use crate::runs::ENTRIES;
use bdd::WorkingRuns;
use lent::STACK;

// The most pairs of a job, and the pair run that holds them.
const ROOM: usize = 128;

const PAIRS: usize = 4 * ROOM;

// How far the working runs are lent.
#[derive(Clone, Copy)]
pub struct Lengths {
    pairs: usize,
    stack: usize,
    index: usize,
    ghost fit: { (pairs ≤ 512) × (stack ≤ 513) × (index ≤ 64) },
}

impl Lengths {
    // The recorded room for pairs and stack, or none where it does not fit; no index run is lent.
    pub fn read_two(numbers: &mut Numbers<'_>) -> Option<Lengths> {
        let room = numbers.size_within(ROOM)?;
        let stack = numbers.size_within(STACK)?;
        Some(Lengths {
            pairs: 4 * room,
            stack,
            index: 0,
        })
    }

    // All three.
    pub fn read(numbers: &mut Numbers<'_>) -> Option<Lengths> {
        let Lengths { pairs, stack, .. } = Lengths::read_two(numbers)?;
        let index = numbers.size_within(ENTRIES)?;
        Some(Lengths {
            pairs,
            stack,
            index,
        })
    }
}

#[derive(Drop)]
pub struct Work {
    pairs: [u32; PAIRS],
    stack: [u32; STACK],
    index: [u32; ENTRIES],
    lengths: Lengths,
}

impl Work {
    // No place is lent yet, and all hold zero. They are made where they are used and filled there, as a `Set` is.
    #[inline(always)]
    pub fn zero() -> Work {
        Work {
            pairs: [0; PAIRS],
            stack: [0; STACK],
            index: [0; ENTRIES],
            lengths: Lengths {
                pairs: 0,
                stack: 0,
                index: 0,
            },
        }
    }

    // So many places are lent, and all places hold the mark.
    pub fn fill(&mut self, lengths: Lengths, mark: u32) {
        self.lengths = lengths;
        self.pairs.fill(mark);
        self.stack.fill(mark);
        self.index.fill(mark);
    }

    pub fn lent_mut(&mut self) -> WorkingRuns<'_> {
        let lengths = self.lengths;
        let pairs = &mut self.pairs;
        let stack = &mut self.stack;
        let index = &mut self.index;
        WorkingRuns {
            pairs: &mut pairs[..lengths.pairs],
            stack: &mut stack[..lengths.stack],
            index: &mut index[..lengths.index],
        }
    }

    // The runs, as far as they were lent, hold x.
    pub fn holds(&self, x: u32) -> bool {
        let Lengths {
            pairs,
            stack,
            index,
        } = self.lengths;
        runs::holds(&self.pairs[..pairs], x)
            && runs::holds(&self.stack[..stack], x)
            && runs::holds(&self.index[..index], x)
    }
}

// The rooms of a job on one set, as they stand behind its list: W, the working runs, the run that only restriction or picking is
// lent, the mark.
#[derive(Clone, Copy)]
pub struct Rooms {
    pub width: usize,
    pub lengths: Lengths,
    pub extra: usize,
    pub mark: u32,
    ghost fits: { width ≤ 64 },
}

impl Rooms {
    // None where they do not fit; the extra run has its own most.
    pub fn read(numbers: &mut Numbers<'_>, most: usize) -> Option<Rooms> {
        let width = numbers.size_within(ENTRIES)?;
        let lengths = Lengths::read(numbers)?;
        let extra = numbers.size_within(most)?;
        let mark = numbers.word();
        Some(Rooms {
            width,
            lengths,
            extra,
            mark,
        })
    }
}
