// How a call ends, and the channel on which the program hands that to what started it: a descriptor of its own, so that no word of a
// line can be taken for it. Where nobody opened the channel nothing is handed on.
use crate::lines::Line;

// Done or yes, or a plain no.
#[derive(Clone, Copy, Debug, PartialEq, Eq)]
pub enum Outcome {
    Yes,
    No,
}

// Why there is no outcome, after a line that says more: refused by the library, or the words or a file are wrong.
#[derive(Clone, Copy, Debug, PartialEq, Eq)]
pub enum Failure {
    Refused,
    Wrong,
}

// How a job ended.
pub type Ended = Result<Outcome, Failure>;

impl From<bool> for Outcome {
    fn from(is_so: bool) -> Outcome {
        if is_so { Outcome::Yes } else { Outcome::No }
    }
}

fn digit(ended: Ended) -> &'static [u8] {
    match ended {
        Ok(Outcome::Yes) => b"0",
        Ok(Outcome::No) => b"1",
        Err(Failure::Refused) => b"2",
        Err(Failure::Wrong) => b"3",
    }
}

// The digit, which is the last thing that the program writes.
pub fn tell(rt: &HostRuntime, ended: Ended) {
    let _ = Line::channel(rt).say(digit(ended));
}
