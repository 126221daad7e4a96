// What an admission answers.
use zsrm::{Outcome, Refusal, Verdict};

// The verdict on one job without and with the offered job.
#[derive(Clone, Copy, Debug, PartialEq, Eq)]
pub struct Change {
    pub before: Result<Verdict, Refusal>,
    pub after: Result<Verdict, Refusal>,
}

// The answer to an offered job: how many jobs the longer list has, and the change of each by its number. From that count on both verdicts
// are refused with 13, as `verdict` refuses a job that is not in the list; where the admission is refused, every number here is 0.
// The outcome is a field, no Result around the rest, since `refused_admission` says what a refused admission holds, too.
#[derive(Clone, Copy, Debug, PartialEq, Eq)]
pub struct Admission {
    pub outcome: Outcome,
    pub count: u32,
    pub changes: [Change; 64],
}
