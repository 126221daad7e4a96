// What reading answers.
use tables::Outcome;

// What is read at a trailer: its layout number and the preceding trailer's place, after 21 and 22 0 and `NONE`; the table's tasks and
// numbers, where nothing is refused, else 0. Fields behind the table's are 0. The outcome is a field of it, not the error of a `Result`, as
// the definitions `nothing` and `passed_by` (specs/Answers) say what each of the other fields is after a refusal, too.
#[derive(Clone, Copy, Debug, PartialEq, Eq)]
pub struct Read {
    pub outcome: Outcome,
    pub layout: u32,
    pub before: u32,
    pub count: u32,
    pub fields: [u32; 128],
}
