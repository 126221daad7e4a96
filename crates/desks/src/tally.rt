// The calls that are counted, what is counted beside their answers, and what is written of all that.
use drawn::answers::Answer;
use drawn::list::Case;
use drawn::tally::{Tally, print_input};
use std::io;

// The calls, in the order in which they are numbered.
#[derive(Clone, Copy)]
pub(crate) enum Call {
    Build = 1,
    Between,
    Replace,
    Judge,
    Empty,
    Add,
    Join,
    Mean,
    Show,
    Append,
    Read,
    Last,
    Walk,
    Wide,
    Decimal,
    PutByte,
    PutText,
    PutNumber,
    PutNumbers,
}

impl drawn::tally::Call for Call {
    fn number(self) -> usize {
        self as usize
    }
}

// What is counted beside the answers of a call.
#[derive(Clone, Copy)]
pub(crate) enum Beside {
    NotFresh,
    ReadAfresh,
    ReadSince,
    SameColumn,
    FewerJobs,
    LaterWindow,
    OpenJobs,
    NumberAlone,
    MostDigits,
    MoreDigits,
    LeadingZero,
    Past32Bits,
    JustRoom,
}

impl Beside {
    // Its place among the counts of its call, behind those of the answers.
    fn place(self) -> usize {
        match self {
            Beside::SameColumn | Beside::NumberAlone => 1,
            Beside::NotFresh | Beside::FewerJobs | Beside::MostDigits => 2,
            Beside::ReadAfresh | Beside::LaterWindow | Beside::MoreDigits | Beside::JustRoom => 3,
            Beside::ReadSince | Beside::OpenJobs | Beside::LeadingZero => 4,
            Beside::Past32Bits => 5,
        }
    }
}

// Where a group of trials is written, and what it counted.
#[derive(Drop)]
pub(crate) struct Desk<'a, R> {
    rt: &'a R,
    pub tally: Tally,
}

impl<'a, R: Print> Desk<'a, R> {
    pub(crate) fn new(rt: &'a R) -> Desk<'a, R> {
        Desk {
            rt,
            tally: Tally::new(),
        }
    }
}

impl<R: Print> Desk<'_, R> {
    // A call was compared: the number that it names, what was due, and what came.
    pub(crate) fn note(
        &mut self,
        call: Call,
        number: u32,
        due: Answer,
        came: Answer,
    ) -> io::Result<()> {
        self.tally.note(self.rt, call, number, due, came)
    }

    // So many more of what is counted beside the answers of a call.
    pub(crate) fn add(&mut self, call: Call, what: Beside, by: u32) {
        self.tally.add((call, what.place()), by);
    }

    // What made a difference.
    pub(crate) fn print_input(&self, case: Case) -> io::Result<()> {
        print_input(self.rt, case)
    }

    // All that was counted, under a title.
    pub(crate) fn report(&self, title: &str) -> io::Result<()> {
        print!(self.rt; "{title}")?;
        self.tally.totals(self.rt)?;
        for (call, n, words) in [
            (Call::Build, 1, "  index built:"),
            (
                Call::Between,
                5,
                "  range with no tick, with some, other than a fresh count; entries that the definition of a fresh count looks at, of the index's answer:",
            ),
            (
                Call::Replace,
                2,
                "  entry replaced, of them by one of the same column:",
            ),
            (
                Call::Judge,
                5,
                "  windows passing, failing; passing with fewer jobs than K, failing at a later window, either with open jobs:",
            ),
            (Call::Empty, 1, "  report begun:"),
            (Call::Add, 2, "  run added, refused for a number alone:"),
            (
                Call::Join,
                2,
                "  reports joined, refused for a number alone:",
            ),
            (Call::Mean, 2, "  no mean, a mean:"),
            (Call::Show, 2, "  text of no line, of some:"),
            (Call::Append, 1, "  table appended:"),
            (Call::Read, 1, "  table read at a place:"),
            (Call::Last, 1, "  table read at the end:"),
            (
                Call::Walk,
                2,
                "  file walked as it was written, with a change:",
            ),
            (
                Call::Wide,
                6,
                "  number of up to 10 digits, none; of 10 digits, of more, with a zero before it, of 10 digits past 32 bits:",
            ),
            (
                Call::Decimal,
                5,
                "  number of up to 5 digits, none; of 5 digits, of more, with a zero before it:",
            ),
            (
                Call::PutByte,
                4,
                "  byte put whole, in part, without room, in just its room:",
            ),
            (Call::PutText, 4, "  text put, likewise:"),
            (Call::PutNumber, 4, "  number put, likewise:"),
            (Call::PutNumbers, 4, "  numbers put, likewise:"),
        ] {
            self.tally.line(self.rt, words, call, n)?;
        }
        Ok(())
    }
}
