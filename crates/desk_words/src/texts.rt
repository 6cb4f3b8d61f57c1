// What lines say, by what it is said of: bytes, as a file's name is, which need not be text.
use bdd::Refusal;
use std::io::ErrorKind;

// The order of a set that a job made.
#[derive(Clone, Copy, Debug, PartialEq, Eq)]
pub enum Order {
    Signing,
    Other,
}

impl Order {
    pub fn text(self) -> &'static [u8] {
        match self {
            Order::Signing => b"; in signing order",
            Order::Other => b"; not in signing order: desk sign puts it there",
        }
    }
}

// What is counted.
#[derive(Clone, Copy, Debug, PartialEq, Eq)]
pub enum Things {
    Entries,
    Options,
    Bytes,
    Pairs,
}

impl Things {
    pub fn one(self) -> &'static [u8] {
        match self {
            Things::Entries => b"entry",
            Things::Options => b"option",
            Things::Bytes => b"byte",
            Things::Pairs => b"pair",
        }
    }

    pub fn many(self) -> &'static [u8] {
        match self {
            Things::Entries => b"entries",
            Things::Options => b"options",
            Things::Bytes => b"bytes",
            Things::Pairs => b"pairs",
        }
    }
}

// What is done to a file.
#[derive(Clone, Copy, Debug, PartialEq, Eq)]
pub enum Step {
    Open,
    Read,
    Write,
}

impl Step {
    pub fn text(self) -> &'static [u8] {
        match self {
            Step::Open => b"cannot open ",
            Step::Read => b"cannot read ",
            Step::Write => b"cannot write ",
        }
    }
}

// What a word should be.
#[derive(Clone, Copy, Debug, PartialEq, Eq)]
pub enum Wanted {
    Count,
    Option,
    Limit,
    Operator,
    OnOrOff,
    Choice,
    SaidOnce,
}

impl Wanted {
    pub fn text(self) -> &'static [u8] {
        match self {
            Wanted::Count => b"not a number of options: ",
            Wanted::Option => b"not an option: ",
            Wanted::Limit => b"not a limit: ",
            Wanted::Operator => b"not an operator: ",
            Wanted::OnOrOff => b"not on or off: ",
            Wanted::Choice => b"not left, right, out or limit: ",
            Wanted::SaidOnce => b"not to be said twice: ",
        }
    }
}

// The paper's words for a refusal.
pub fn of_refusal(why: Refusal) -> &'static [u8] {
    match why {
        Refusal::BadTable => b": operator table or operator number bad",
        Refusal::LeftNotOrdered => b": left (or only) set not ordered",
        Refusal::RightNotOrdered => b": right set not ordered",
        Refusal::CountsDiffer => b": option counts differ",
        Refusal::NoSuchOption => b": a variable or flip is n or more, or n is above 256",
        Refusal::ShortRun => b": a working run is too short",
        Refusal::PairRoom => b": more pairs than there is room for",
        Refusal::OverLimit => b": over the limit",
        Refusal::NoRoom => b": longer than there is room for",
        Refusal::BadList => b": option list or values bad",
    }
}

// What the system says of a call that failed.
pub fn of_system(error: ErrorKind) -> &'static [u8] {
    match error {
        ErrorKind::NotFound => b"there is no such file or folder",
        ErrorKind::PermissionDenied => b"not allowed",
        ErrorKind::IsADirectory => b"it is a folder",
        ErrorKind::NotADirectory => b"a part of the name is no folder",
        ErrorKind::AlreadyExists => b"that name is taken",
        ErrorKind::InvalidFilename => b"the name is too long",
        ErrorKind::InvalidInput => b"it is no file name",
        ErrorKind::StorageFull => b"the disk is full",
        ErrorKind::ReadOnlyFilesystem => b"the folder can only be read",
        _ => b"the system refuses it",
    }
}
