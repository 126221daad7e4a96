// Request Thirteen, task tables in one file: tables one behind another in a lent list of bytes, each followed by a trailer of 16 bytes.
// Reading goes from the last trailer back, and ends for any bytes; an append writes behind the last trailer alone. Knows no jobs.
#![tactic(auto)]

mod answers;
mod appending;
mod layout;
mod reading;
mod table;
mod trailer;

pub use answers::Read;
pub use appending::append;
pub use layout::Layout;
pub use reading::{last, read};
pub use tables::{Outcome, Refusal};
pub use trailer::NONE;
