// Request Ten, season report in exact numbers: over any number of finished runs of one table, added one by one, per task the jobs met, late,
// ended and open and their responses; and two reports joined. That the order of additions and joins does not matter stands in
// proofs/Promise.
#![tactic(auto)]

mod answers;
mod joins;
mod lines;
mod means;
mod own;
mod report;
mod rows;

pub use answers::{Extremes, Mean, Report, Reported, Row};
pub use lines::show;
pub use means::{extremes, mean};
pub use zsrm::{Outcome, Refusal};
