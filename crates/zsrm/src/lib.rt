// A ZSRM schedule on one processor in whole ticks: stepped, run, checked, judged. Every rule is document 01's and stands, as a
// definition, in specs/; the theorems about them stand in proofs/, Promise first.
#![tactic(auto)]

mod answers;
mod bytes;
mod c;
mod c_claim;
mod c_run;
mod calls;
mod claims;
mod compact;
mod gap;
mod gather;
mod judging;
mod leap;
mod look;
mod masks;
mod mending;
mod mode;
mod next;
mod reading;
mod record;
mod runs;
mod step;
mod tie;
mod witnesses;

pub use answers::{Claim, Mended, Ran, Replayed, Stepped, Verdict, Verdicts, Witness};
pub use c::{zsrm_claim, zsrm_run};
pub use claims::{claim, replay};
pub use judging::{verdict, verdicts};
pub use mending::mend;
pub use mode::Mode;
pub use record::{Place, Record, Standing};
pub use runs::run;
pub use tables::{Criticality, IDLE, Outcome, Priority, Refusal};
pub use tie::Tie;
pub use witnesses::{response, witness};
