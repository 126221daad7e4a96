// What checks find.

// Refused with a number and a place, as document 01 numbers them.
#[derive(Clone, Copy, Debug, PartialEq, Eq)]
pub struct Refusal {
    pub number: u32,
    pub place: u32,
}

// What checks come to: done, which is `Ok(())`, or the first refusal.
pub type Outcome = Result<(), Refusal>;
