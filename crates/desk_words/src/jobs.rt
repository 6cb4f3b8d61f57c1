// The jobs: their names, and the words that each takes.
use crate::outcome::Failure;
use crate::{lines, options, words};

#[derive(Clone, Copy, Debug, PartialEq, Eq)]
pub enum Job {
    Check,
    Show,
    HashReady,
    Not,
    Sign,
    False,
    True,
    Literal,
    Same,
    Exists,
    ForAll,
    Select,
    Restrict,
    Pick,
    Value,
    Dry,
    // An operator that the next word says.
    Operator,
    // An operator whose name is the job's word.
    Named,
    Help,
    Version,
}

// The most words of picking: every option that a set can have.
const PICKED: usize = 4 + options::PLACES;

impl Job {
    // The job of that name.
    fn named(word: &[u8]) -> Option<Job> {
        match word {
            b"check" => Some(Job::Check),
            b"show" => Some(Job::Show),
            b"hash-ready" => Some(Job::HashReady),
            b"not" => Some(Job::Not),
            b"sign" => Some(Job::Sign),
            b"false" => Some(Job::False),
            b"true" => Some(Job::True),
            b"literal" => Some(Job::Literal),
            b"same" => Some(Job::Same),
            b"exists" => Some(Job::Exists),
            b"forall" => Some(Job::ForAll),
            b"select" => Some(Job::Select),
            b"restrict" => Some(Job::Restrict),
            b"pick" => Some(Job::Pick),
            b"value" => Some(Job::Value),
            b"dry" => Some(Job::Dry),
            b"op" => Some(Job::Operator),
            b"and" | b"or" | b"xor" | b"iff" | b"imp" | b"and_not" => Some(Job::Named),
            b"help" | b"--help" | b"-h" => Some(Job::Help),
            b"--version" => Some(Job::Version),
            _ => None,
        }
    }

    // Whether a job has its words, of which so many are there, the program's name among them. Options may follow those of a restriction,
    // each with its value, those of a value, and those of picking, as many as a set can have; choices those of the operators and of
    // the dry run.
    fn is_whole(self, count: usize) -> bool {
        match self {
            Job::Check | Job::Show | Job::HashReady => count == 3,
            Job::Not | Job::Sign | Job::False | Job::True | Job::Same => count == 4,
            Job::Exists | Job::ForAll => count == 5,
            Job::Literal | Job::Select => count == 6,
            Job::Restrict => 4 <= count && count % 2 == 0,
            Job::Pick => 4 <= count && count <= PICKED,
            Job::Value => 3 <= count,
            Job::Dry | Job::Named => 5 <= count,
            Job::Operator => 6 <= count,
            Job::Help | Job::Version => true,
        }
    }

    // The words that a job takes.
    fn form(self) -> &'static [u8] {
        match self {
            Job::Check => b"check FILE",
            Job::Show => b"show FILE",
            Job::HashReady => b"hash-ready FILE",
            Job::Not => b"not IN OUT",
            Job::Sign => b"sign IN OUT",
            Job::False | Job::True => b"false|true N OUT",
            Job::Literal => b"literal N V on|off OUT",
            Job::Same => b"same LEFT RIGHT",
            Job::Exists => b"exists IN OUT V",
            Job::ForAll => b"forall IN OUT V",
            Job::Select => b"select IN OUT V on|off",
            Job::Restrict => b"restrict IN OUT [V on|off]..",
            Job::Pick => b"pick IN OUT [V].., at most 256",
            Job::Value => b"value FILE [V]..",
            Job::Dry => b"dry P LEFT RIGHT [CHOICES]",
            Job::Operator | Job::Named => b"OPERATOR|op P LEFT RIGHT OUT [CHOICES]",
            Job::Help => b"help",
            Job::Version => b"--version",
        }
    }

    // The job that the words ask for.
    pub fn asked(rt: &HostRuntime) -> Result<Job, Failure> {
        let mut word = [0u8; words::LONGEST];
        let Some(job) = Job::named(words::take(rt, 1, &mut word)) else {
            return Err(lines::unknown(rt, 1));
        };
        if job.is_whole(words::count(rt)) {
            return Ok(job);
        }
        Err(lines::expected(rt, job.form()))
    }
}
