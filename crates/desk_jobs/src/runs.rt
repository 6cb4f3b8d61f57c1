// The room that a set stands in, and the room that a job works in.
use bdd::{MOST_ENTRIES, OutputRuns, RuleSet, WorkingRuns};
use lent::STACK;

// Room for any set.
#[derive(Drop)]
pub struct Runs {
    pub variable: [u16; MOST_ENTRIES],
    pub low: [u32; MOST_ENTRIES],
    pub high: [u32; MOST_ENTRIES],
}

impl Runs {
    pub fn new() -> Runs {
        Runs {
            variable: [0; MOST_ENTRIES],
            low: [0; MOST_ENTRIES],
            high: [0; MOST_ENTRIES],
        }
    }

    // All of it, for a call to write to.
    pub fn output(&mut self) -> OutputRuns<'_> {
        let variable = &mut self.variable;
        let low = &mut self.low;
        let high = &mut self.high;
        OutputRuns {
            variable,
            low,
            high,
        }
    }

    // The set of so many entries that stands there.
    pub fn front(&self, entries: usize) -> RuleSet<'_> {
        RuleSet {
            variable: lent::front(&self.variable, entries),
            low: lent::front(&self.low, entries),
            high: lent::front(&self.high, entries),
        }
    }
}

// The stack and the index run of a job. Its pairs are by far the most of its room, and so they are lent apart.
#[derive(Drop)]
pub struct Work {
    stack: [u32; STACK],
    index: [u32; MOST_ENTRIES],
}

impl Work {
    pub fn new() -> Work {
        Work {
            stack: [0; STACK],
            index: [0; MOST_ENTRIES],
        }
    }

    // All of it and the pairs, for a call to work in.
    pub fn lend<'a>(&'a mut self, pairs: &'a mut [u32]) -> WorkingRuns<'a> {
        let stack = &mut self.stack;
        let index = &mut self.index;
        WorkingRuns {
            pairs,
            stack,
            index,
        }
    }
}
