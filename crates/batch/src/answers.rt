// What a batch answers.
use zsrm::{Outcome, Record};

// The answer of a batch: the refused run's number, or 0; the records by the numbers of their runs, all others blank. The outcome is a field,
// no Result around the rest, since `batch_answer` says what a refused answer holds, too.
#[derive(Clone, Copy, Debug, PartialEq, Eq)]
pub struct Batch {
    pub outcome: Outcome,
    pub run: u32,
    pub records: [Record; 32],
}
