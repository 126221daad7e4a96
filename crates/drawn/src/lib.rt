// What the programs of trials share: numbers drawn from a fixed seed, the lists made of them, good and damaged; which refusal goes first, by
// a rule of its own; what calls answer; and what is counted and written.
#![tactic(auto)]

pub mod answers;
pub mod damage;
pub mod draw;
pub mod inputs;
pub mod judge;
pub mod list;
pub mod tally;
