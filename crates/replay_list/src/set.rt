// The three runs of a set.
ghost use Rattle.std.specs.Prelude.{◌≤◌};

use crate::numbers::Numbers;
use crate::runs;
use crate::runs::ENTRIES;
use bdd::{Answer, OutputRuns, RuleSet};

// All entries are x three times.
pub fn holds(set: &RuleSet<'_>, x: u32) -> bool {
    runs::holds(set.variable, x) && runs::holds(set.low, x) && runs::holds(set.high, x)
}

// Room for entries, of which the first are lent. The desk has runs of its own, all of one length, of which the first are handed out.
#[derive(Drop)]
pub struct Set<const MOST: usize> {
    variable: [u16; MOST],
    low: [u32; MOST],
    high: [u32; MOST],
    size: usize,
}

// A set or an output of a job.
pub type JobSet = Set<ENTRIES>;

impl<const MOST: usize> Set<MOST> {
    // No place is lent yet, and all hold zero. A set is made at the head of the function that uses it, and filled or laid out there: one
    // that is handed out filled is made twice and moved, one that is made further down is zeroed twice.
    #[inline(always)]
    pub fn zero() -> Set<MOST> {
        Set {
            variable: [0; MOST],
            low: [0; MOST],
            high: [0; MOST],
            size: 0,
        }
    }

    // So many places are lent, and all places hold the mark.
    pub fn fill(&mut self, size: usize, mark: u32) {
        self.size = size;
        self.variable.fill(lent::narrow16(mark));
        self.low.fill(mark);
        self.high.fill(mark);
    }

    // So many places are lent, and hold the next numbers.
    pub fn lay(&mut self, size: usize, numbers: &mut Numbers<'_>) {
        self.size = size;
        let OutputRuns {
            variable,
            low,
            high,
        } = self.lent_mut();
        for ((variable, low), high) in variable.iter_mut().zip(low).zip(high) {
            *variable = numbers.half_word();
            *low = numbers.word();
            *high = numbers.word();
        }
    }

    // How many entries are lent. No ghost field says that they fit: a struct that has one hands out no two fields as `&mut`.
    pub fn size(&self) -> usize
        ensures { result ≤ MOST }
    {
        self.size.min(MOST)
    }

    pub fn lent(&self) -> RuleSet<'_> {
        let size = self.size();
        RuleSet {
            variable: &self.variable[..size],
            low: &self.low[..size],
            high: &self.high[..size],
        }
    }

    pub fn lent_mut(&mut self) -> OutputRuns<'_> {
        let size = self.size();
        let variable = &mut self.variable;
        let low = &mut self.low;
        let high = &mut self.high;
        OutputRuns {
            variable: &mut variable[..size],
            low: &mut low[..size],
            high: &mut high[..size],
        }
    }

    // Of the lent entries the first are the next numbers, and the others x three times.
    pub fn agrees(&self, count: usize, mut numbers: Numbers<'_>, x: u32) -> bool {
        let set = self.lent();
        let mut entries = set.variable.iter().zip(set.low).zip(set.high).enumerate();
        entries.all(|(i, ((&variable, &low), &high))| {
            let recorded = if i < count {
                (numbers.word(), numbers.word(), numbers.word())
            } else {
                (x, x, x)
            };
            (u32::from(variable), low, high) == recorded
        })
    }

    // The output of a call holds the array that is recorded next, or what a refusal leaves; a refusal carries 0 for S.
    pub fn answer_agrees(&self, answer: Answer, mut numbers: Numbers<'_>, mark: u32) -> bool {
        let recorded = numbers.word();
        let size = numbers.size();
        match answer {
            Ok(made) => recorded == 0 && size == made && self.agrees(made, numbers, mark),
            Err(why) => {
                u32::from(why) == recorded
                    && size == 0
                    && holds(&self.lent(), runs::left_by(recorded, mark))
            }
        }
    }
}
