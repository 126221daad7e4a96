// Two sides' numbers of one task joined into one row.
ghost use Rattle.std.specs.Prelude.{◌≡◌, ◌+◌, leb};
ghost use Rattle.season.specs.Code.{Joinable};
ghost use Rattle.season.specs.Rows.{among, fits, join_row, most};

use crate::answers::Row;

// Among the sides with a finished job: this one's x, the other's y, or, where both have one, what both give; 0 where neither has one.
fn among(here: bool, x: u32, there: bool, y: u32, both: u32) -> u32
    ensures { result ≡ among here x there y both }
{
    if here {
        if there { both } else { x }
    } else {
        if there { y } else { 0 }
    }
}

// Whether 32 bits hold the sum.
fn fit(x: u32, y: u32) -> bool
    ensures { result ≡ leb (x + y) most }
{
    x.checked_add(y).is_some()
}

impl Row {
    // Whether every count of the joined row fits, and its sum.
    #[tactic(auto, using(crate::proofs::Laws::Rows::fits_tests))]
    pub(crate) fn fits(self, other: Row) -> bool
        ensures { result ≡ fits (join_row self other) }
    {
        fit(self.met, other.met)
            & fit(self.late, other.late)
            & fit(self.ended, other.ended)
            & fit(self.open, other.open)
            & fit(self.finished, other.finished)
            & fit(self.sum, other.sum)
    }

    // Counts and sums are added; least and greatest are taken among the sides with a finished job.
    pub(crate) fn join(self, other: Row) -> Row
        requires { Joinable self other }
        ensures { result ≡ join_row self other }
    {
        let here = 0 < self.finished;
        let there = 0 < other.finished;
        let low = self.least.min(other.least);
        let high = self.greatest.max(other.greatest);
        let least = among(here, self.least, there, other.least, low);
        let greatest = among(here, self.greatest, there, other.greatest, high);
        Row {
            met: self.met + other.met,
            late: self.late + other.late,
            ended: self.ended + other.ended,
            open: self.open + other.open,
            finished: self.finished + other.finished,
            sum: self.sum + other.sum,
            least,
            greatest,
        }
    }
}
