// The mean response as a whole quotient, a remainder and the count; and the least and the greatest. `Mean` and `Extremes` stand in answers: a
// module may not have two names that differ only in case.
ghost use Rattle.std.specs.Prelude.{◌≡◌};
ghost use Rattle.season.specs.Code.{Short};
ghost use Rattle.season.specs.Extremes.{extremes_of};
ghost use Rattle.season.specs.Mean.{mean_of};

use crate::answers::{Extremes, Mean, Row};

// The sum divided by the count; no sum has more than 10 digits, so the three numbers have at most 21 together.
pub(crate) fn divided(row: Row) -> Option<Mean>
    ensures is { result ≡ mean_of row }
    ensures short { Short result }
{
    if row.finished == 0 {
        return None;
    }
    Some(Mean {
        quotient: row.sum / row.finished,
        remainder: row.sum % row.finished,
        count: row.finished,
    })
}

// The mean of the row's responses; there is none where no job finished.
pub fn mean(row: Row) -> Option<Mean>
    ensures { result ≡ mean_of row }
{
    divided(row)
}

// The least and the greatest of the row's responses; there are none where no job finished.
pub fn extremes(row: Row) -> Option<Extremes>
    ensures { result ≡ extremes_of row }
{
    if 0 < row.finished {
        Some(Extremes {
            least: row.least,
            greatest: row.greatest,
        })
    } else {
        None
    }
}
