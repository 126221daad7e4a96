// Request Seven: the planter's fixed set of three tasks above the library. Callers give only mode, horizon and jobs; a day's admission says
// what one more job would change. What is certain for down-force stands in proofs/Promise, that no job is ever late in proofs/Promise/NeverLate.
#![tactic(auto)]

mod admission;
mod answers;
mod calls;
mod tasks;

pub use admission::admit;
pub use answers::{Admission, Change};
pub use calls::{claim, fresh, go_on, replay, response, run, step, verdict, verdicts, witness};
pub use tasks::{DEPTH, DOWN_FORCE, LOG};
pub use zsrm::{
    Claim, IDLE, Mode, Outcome, Place, Ran, Record, Refusal, Replayed, Standing, Stepped, Verdict,
    Verdicts, Witness,
};
