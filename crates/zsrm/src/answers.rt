// What the entry points answer where nothing is refused; a refusal is an `Err`.
ghost use Rattle.std.specs.Prelude.{◌≡◌};
ghost use Rattle.zsrm.specs.Answers.{ran};
ghost use Rattle.zsrm.specs.Verdict.{missed};

use crate::record::Record;
use tables::{Outcome, Refusal};

// The answer of a fresh record, of a run, and of going on. No `Result`, as the record of a refused one is promised to be blank: definition
// `ran`, theorems `fresh_refused` and `refused_keeps`.
#[derive(Clone, Copy, Debug, PartialEq, Eq)]
pub struct Ran {
    pub outcome: Outcome,
    pub record: Record,
}

// A refused answer's record is blank.
pub(crate) fn or_blank(outcome: Outcome, made: Record) -> Ran
    ensures { result ≡ ran outcome made }
{
    match outcome {
        Ok(()) => Ran {
            outcome,
            record: made,
        },
        Err(_) => Ran {
            outcome,
            record: Record::blank(),
        },
    }
}

// The answer of a step: the record advanced by one tick, and what the tick did. No `Result`, as every field of a refused one is promised:
// definition `refused_step`, theorem `refused_step_law`.
#[derive(Clone, Copy, Debug, PartialEq, Eq)]
pub struct Stepped {
    pub outcome: Outcome,
    pub record: Record,
    pub ready: u64,
    pub ones: u32,
    pub entry: u16,
    pub ended: u64,
}

// The answer to a claimed schedule; not legal at the tick named.
#[derive(Clone, Copy, Debug, PartialEq, Eq)]
pub enum Claim {
    Legal,
    NotLegal(u32),
}

// The answer to a schedule that is replayed: the claim check's own, and the record at its end where it is legal, else the blank one.
// The record stays beside the claim, as it is promised where that is no legal one: definition `if_legal`, theorem `replay_blank`.
#[derive(Clone, Copy, Debug, PartialEq, Eq)]
pub struct Replayed {
    pub claim: Result<Claim, Refusal>,
    pub record: Record,
}

// The answer to a claim that is mended: a legal one comes back whole; else the first changed tick, and how many entries differ.
#[derive(Clone, Copy, Debug, PartialEq, Eq)]
pub enum Mended {
    Whole,
    Changed(u32, u32),
}

// The verdict on one job.
#[derive(Clone, Copy, Debug, PartialEq, Eq)]
pub enum Verdict {
    Met,
    // by how many ticks, and whether that is exact: else it is at least that
    Late(u32, bool),
    Ended,
    Open,
}

impl Verdict {
    // Missed means late or ended.
    pub fn is_missed(self) -> bool
        ensures { result ≡ missed self }
    {
        matches!(self, Verdict::Late(..) | Verdict::Ended)
    }
}

// The verdicts on all jobs, by their numbers; a number that is no job's is refused. The outcome is what the lists and the record are
// refused with, and then every verdict is. No `Result` of all, as each refused verdict is promised: definition `verdicts_answer`, theorem
// `verdicts_refused`.
#[derive(Clone, Copy, Debug, PartialEq, Eq)]
pub struct Verdicts {
    pub outcome: Outcome,
    pub of: [Result<Verdict, Refusal>; 64],
}

// The answer to a miss witness.
#[derive(Clone, Copy, Debug, PartialEq, Eq)]
pub enum Witness {
    NotLegal(u32),
    // outside the assumption: the first job that breaks it
    Outside(u32),
    NotMissed,
    // by how many ticks the job is late, and whether that is exact
    AcceptedLate(u32, bool),
    // "missed" has this case; no witness meets it, since whatever ended a job breaks the assumption
    AcceptedEnded,
}
