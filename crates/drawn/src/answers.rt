// What the calls answer, of whatever call, so that two answers can be compared, counted and printed.
use std::fmt;
use zsrm::{Claim, Mended, Outcome, Refusal, Verdict, Witness};

// What comes with an answer, and can be wrong.
#[derive(Clone, Copy, PartialEq, Eq)]
pub enum Part {
    Entries = 1,
    Words,
    Record,
}

#[derive(Clone, Copy, PartialEq, Eq)]
pub enum Answer {
    Done,
    Met,
    Legal,
    NotMissed,
    Empty,
    Ended,
    Open,
    AcceptedEnded,
    // no number where one is read, and no room for what is put
    NoNumber,
    NoRoom,
    // with the number that the call tells: a tick, a job, a length
    Numbered(u32),
    // by how many ticks, and whether that is exact: else it is at least that
    Late { by: u64, exact: bool },
    // outside the assumption: the first job that breaks it
    Outside(u32),
    Refused { number: u32, place: u32 },
    // with something wrong in what comes with it
    Wrong(Part),
}

impl Answer {
    // The answer where what comes with it is right; what was wrong first stays.
    fn and(self, part: Part, right: bool) -> Answer {
        match self {
            Answer::Wrong(_) => self,
            _ if right => self,
            _ => Answer::Wrong(part),
        }
    }

    pub fn and_entries(self, right: bool) -> Answer {
        self.and(Part::Entries, right)
    }

    pub fn and_words(self, right: bool) -> Answer {
        self.and(Part::Words, right)
    }

    pub fn and_record(self, right: bool) -> Answer {
        self.and(Part::Record, right)
    }

    // The number that is printed for it. What no run can be late by, and no job's number, is told as 65536.
    fn number(self) -> u64 {
        match self {
            Answer::Done | Answer::Met | Answer::Legal | Answer::NotMissed | Answer::Empty => 0,
            Answer::Ended | Answer::NoNumber => 1,
            Answer::Open | Answer::AcceptedEnded | Answer::NoRoom => 2,
            Answer::Numbered(n) => 65536 + (n as u64),
            Answer::Late { by, exact: false } => 500000 + by.min(65536),
            Answer::Late { by, exact: true } => 600000 + by.min(65536),
            Answer::Outside(job) => 700000 + (job as u64).min(65536),
            Answer::Refused { number, place } => 1000000 + (number as u64) + 256 * (place as u64),
            Answer::Wrong(part) => 1000000000 + (part as u64),
        }
    }
}

impl fmt::Display for Answer {
    fn fmt<W: fmt::Write>(&self, f: &mut fmt::Formatter<W>) -> fmt::Result {
        write!(f, "{}", self.number())
    }
}

impl From<Refusal> for Answer {
    fn from(refusal: Refusal) -> Answer {
        Answer::Refused {
            number: refusal.number,
            place: refusal.place,
        }
    }
}

impl From<Outcome> for Answer {
    fn from(outcome: Outcome) -> Answer {
        match outcome {
            Ok(()) => Answer::Done,
            Err(refusal) => Answer::from(refusal),
        }
    }
}

impl From<Result<Verdict, Refusal>> for Answer {
    fn from(verdict: Result<Verdict, Refusal>) -> Answer {
        match verdict {
            Ok(Verdict::Met) => Answer::Met,
            Ok(Verdict::Late(by, exact)) => Answer::Late {
                by: by as u64,
                exact,
            },
            Ok(Verdict::Ended) => Answer::Ended,
            Ok(Verdict::Open) => Answer::Open,
            Err(refusal) => Answer::from(refusal),
        }
    }
}

// A claim that is not legal is told with its tick.
impl From<Result<Claim, Refusal>> for Answer {
    fn from(claim: Result<Claim, Refusal>) -> Answer {
        match claim {
            Ok(Claim::Legal) => Answer::Legal,
            Ok(Claim::NotLegal(tick)) => Answer::Numbered(tick),
            Err(refusal) => Answer::from(refusal),
        }
    }
}

// A claim that is mended is answered as the claim is, with its first changed tick. How many entries were changed is compared apart.
impl From<Result<Mended, Refusal>> for Answer {
    fn from(mended: Result<Mended, Refusal>) -> Answer {
        match mended {
            Ok(Mended::Whole) => Answer::Legal,
            Ok(Mended::Changed(first, _)) => Answer::Numbered(first),
            Err(refusal) => Answer::from(refusal),
        }
    }
}

// How many entries a mending changed.
pub fn changes_of(mended: Result<Mended, Refusal>) -> u32 {
    match mended {
        Ok(Mended::Changed(_, changes)) => changes,
        _ => 0,
    }
}

impl From<Result<Witness, Refusal>> for Answer {
    fn from(witness: Result<Witness, Refusal>) -> Answer {
        match witness {
            Ok(Witness::NotLegal(tick)) => Answer::Numbered(tick),
            Ok(Witness::Outside(job)) => Answer::Outside(job),
            Ok(Witness::NotMissed) => Answer::NotMissed,
            Ok(Witness::AcceptedLate(by, exact)) => Answer::Late {
                by: by as u64,
                exact,
            },
            Ok(Witness::AcceptedEnded) => Answer::AcceptedEnded,
            Err(refusal) => Answer::from(refusal),
        }
    }
}
