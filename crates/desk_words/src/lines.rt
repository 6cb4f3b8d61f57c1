// The one plain line that a job prints. Once a write of an answer failed, nothing more of it is written.
use crate::outcome::{Ended, Failure, Outcome};
use crate::texts::{Order, Step, Things, Wanted};
use crate::{texts, words};
use bdd::Refusal;
use std::io::{ErrorKind, Print};

// Where a line goes.
#[derive(Clone, Copy, Debug, PartialEq, Eq)]
enum Stream {
    // Standard output.
    Answers,
    // Standard error: refusals and faults.
    Faults,
    // What started the program reads there how the call ended.
    Channel,
    // Nothing is to be written.
    Silent,
}

// That something could not be written.
#[derive(Clone, Copy, Debug, PartialEq, Eq)]
pub struct Unwritten;

pub type Written = Result<(), Unwritten>;

fn written(is_written: bool) -> Written {
    if is_written { Ok(()) } else { Err(Unwritten) }
}

// The channel's descriptor, which std has no name for.
const CHANNEL: i32 = 3;

// The bytes behind the last whole record of the file of a word, which were dropped.
#[derive(Clone, Copy, Debug, PartialEq, Eq)]
pub struct Tail {
    pub word: usize,
    pub bytes: usize,
}

// What ends a job's line: the order of the set that was made, unless it is always signing order or the layout was kept, and the tails
// of the files that the job was given.
#[derive(Clone, Copy, Debug, PartialEq, Eq)]
pub struct Tails {
    order: Option<Order>,
    left: Option<Tail>,
    right: Option<Tail>,
}

impl Tails {
    pub fn none() -> Tails {
        Tails {
            order: None,
            left: None,
            right: None,
        }
    }

    pub fn one(left: Tail) -> Tails {
        Tails {
            left: Some(left),
            ..Tails::none()
        }
    }

    pub fn two(left: Tail, right: Tail) -> Tails {
        Tails {
            right: Some(right),
            ..Tails::one(left)
        }
    }

    pub fn with_order(self, order: Option<Order>) -> Tails {
        Tails { order, ..self }
    }
}

// A line that is being written.
#[derive(Clone, Copy)]
pub struct Line<'a> {
    rt: &'a HostRuntime,
    to: Stream,
}

impl<'a> Line<'a> {
    // The answer's line of a job.
    pub fn answer(rt: &'a HostRuntime) -> Line<'a> {
        Line::answer_beside(rt, words::OWN_NAME)
    }

    // The same of a job that writes its file to word i: with the bytes on standard output the line is not.
    pub fn answer_beside(rt: &'a HostRuntime, i: usize) -> Line<'a> {
        let to = if words::is_quiet(rt) {
            Stream::Silent
        } else if words::is_dash(rt, i) {
            Stream::Faults
        } else {
            Stream::Answers
        };
        Line { rt, to }
    }

    // What is told is no job's answer: it is written whatever the words say.
    pub fn output(rt: &'a HostRuntime) -> Line<'a> {
        Line {
            rt,
            to: Stream::Answers,
        }
    }

    pub fn fault(rt: &'a HostRuntime) -> Line<'a> {
        Line {
            rt,
            to: Stream::Faults,
        }
    }

    pub fn channel(rt: &'a HostRuntime) -> Line<'a> {
        Line {
            rt,
            to: Stream::Channel,
        }
    }

    pub fn say(self, text: &[u8]) -> Written {
        match self.to {
            Stream::Answers => written(Print::write_all(&self.rt.stdout(), text).is_ok()),
            Stream::Faults => written(Print::write_all(&self.rt.stderr(), text).is_ok()),
            Stream::Channel => written(io::write_all(CHANNEL, text)),
            Stream::Silent => Ok(()),
        }
    }

    pub fn end(self) -> Written {
        self.say(b"\n")
    }

    pub fn number(self, x: usize) -> Written {
        match self.to {
            Stream::Answers => written(self.rt.stdout().print(x).is_ok()),
            Stream::Faults => written(self.rt.stderr().print(x).is_ok()),
            Stream::Channel => written(io::print_decimal(CHANNEL, x as u64)),
            Stream::Silent => Ok(()),
        }
    }

    // A count and what it counts.
    pub fn count(self, x: usize, things: Things) -> Written {
        self.number(x)?;
        self.say(b" ")?;
        self.say(if x == 1 { things.one() } else { things.many() })
    }

    // Word i as it was given.
    fn word(self, i: usize) -> Written {
        let mut text = [0u8; words::TAKEN];
        self.say(words::take(self.rt, i, &mut text))
    }

    fn tail(self, tail: Tail) -> Written {
        if tail.bytes == 0 {
            return Ok(());
        }
        self.say(b"; dropped the last ")?;
        self.count(tail.bytes, Things::Bytes)?;
        self.say(b" of ")?;
        self.word(tail.word)?;
        self.say(b", which are no whole entry")
    }

    // The end of a job's line.
    pub fn end_with(self, tails: Tails) -> Written {
        if let Some(order) = tails.order {
            self.say(order.text())?;
        }
        if let Some(left) = tails.left {
            self.tail(left)?;
        }
        if let Some(right) = tails.right {
            self.tail(right)?;
        }
        self.end()
    }

    // How a job ends whose answer was written or not; the word names the file that it wrote.
    pub fn ended(self, answer: Written, outcome: Outcome, file: Option<usize>) -> Ended {
        match answer {
            Ok(()) => Ok(outcome),
            Err(Unwritten) => Err(lost(self.rt, file)),
        }
    }

    // The same where this much of the answer was said, and the line's end is still to be written.
    pub fn close(
        self,
        said: Written,
        tails: Tails,
        outcome: Outcome,
        file: Option<usize>,
    ) -> Ended {
        self.ended(said.and_then(|()| self.end_with(tails)), outcome, file)
    }
}

// A part of a fault's line, which goes on where a part could not be written.
pub fn fault(rt: &HostRuntime, text: &[u8]) {
    let _ = Line::fault(rt).say(text);
}

pub fn fault_word(rt: &HostRuntime, i: usize) {
    let _ = Line::fault(rt).word(i);
}

// The paper's number and words for a refusal.
pub fn refused(rt: &HostRuntime, why: Refusal) {
    fault(rt, b"refused, ");
    let _ = Line::fault(rt).number(u32::from(why) as usize);
    fault(rt, texts::of_refusal(why));
}

// The line of a refused job.
pub fn refuse(rt: &HostRuntime, why: Refusal, tails: Tails) -> Failure {
    refused(rt, why);
    let _ = Line::fault(rt).end_with(tails);
    Failure::Refused
}

// That the answer could not be written, and the file of that word was.
fn lost(rt: &HostRuntime, file: Option<usize>) -> Failure {
    fault(rt, b"cannot write the answer");
    if let Some(i) = file {
        fault(rt, b"; the file is written: ");
        fault_word(rt, i);
    }
    fault(rt, b"\n");
    Failure::Wrong
}

// A file that cannot be opened, read or written, and why. The error is taken before anything is written.
pub fn failed(rt: &HostRuntime, step: Step, name: &[u8], error: ErrorKind) -> Failure {
    fault(rt, step.text());
    fault(rt, name);
    fault(rt, b": ");
    fault(rt, texts::of_system(error));
    fault(rt, b"\n");
    Failure::Wrong
}

// The same where the word does not give the name.
pub fn no_name(rt: &HostRuntime, step: Step, error: ErrorKind) -> Failure {
    failed(rt, step, b"the file", error)
}

pub fn unknown(rt: &HostRuntime, i: usize) -> Failure {
    fault(rt, b"unknown word: ");
    fault_word(rt, i);
    fault(rt, b" (desk help lists the words)\n");
    Failure::Wrong
}

// A word that is not what it should be.
pub fn not_this(rt: &HostRuntime, wanted: Wanted, i: usize) -> Failure {
    fault(rt, wanted.text());
    fault_word(rt, i);
    fault(rt, b"\n");
    Failure::Wrong
}

// The words that a job takes.
pub fn expected(rt: &HostRuntime, form: &[u8]) -> Failure {
    fault(rt, b"expected: desk ");
    fault(rt, form);
    fault(rt, b"\n");
    Failure::Wrong
}
