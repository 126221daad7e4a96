// A schedule's entries counted one by one, and what an index beside it must hold.
ghost use Rattle.std.specs.Prelude.{◌<◌, ◌≤◌};

use drawn::list::{Case, IDLE, Line, OWNER, entry_at, front};

// Room for the longest index, 257 rows of 17 numbers, and for one number more.
pub(crate) type Rows = [u32; 4370];

// What stands in an index before a call.
pub(crate) const STALE: u32 = 4000000001;

// A schedule and the index beside it, how many of its numbers are lent, and whether it was built of this schedule.
#[derive(Clone, Copy)]
pub(crate) struct Held<'a> {
    pub case: Case<'a>,
    pub line: Line,
    pub rows: Rows,
    pub size: usize,
    pub built: bool,
}

// What a replacement must leave, the schedule and the index; whether it strays, an entry being neither job nor idle or a number leaving 0 to the
// horizon; and whether both entries are of the same column.
#[derive(Clone, Copy)]
pub(crate) struct Change {
    pub line: Line,
    pub rows: Rows,
    pub strays: bool,
    pub same: bool,
}

// How many numbers a row has.
pub(crate) fn width(case: Case) -> usize
    ensures some { 0 < result }
    ensures few { result ≤ 64 }
{
    case.task_count() % 64 + 1
}

// Where a row has its number for a column.
pub(crate) fn place_of(case: Case, row: u32, c: u32) -> usize {
    (row as usize) * width(case) + (c as usize)
}

// How many numbers an index has.
pub(crate) fn size_of(case: Case) -> usize {
    place_of(case, case.horizon / 64 + 1, 0)
}

// The column of an entry: its job's task, or the task count for idle; none for what is neither.
fn column(case: Case, entry: u16) -> Option<u32> {
    let j = entry as usize;
    if entry == IDLE {
        Some((case.task_count() % 64) as u32)
    } else if j < case.job_count() {
        Some(case.job(j, OWNER))
    } else {
        None
    }
}

impl Held<'_> {
    // How many entries of a column there are from a tick up to another.
    pub(crate) fn ticks_with(&self, c: Option<u32>, from: usize, to: usize) -> usize {
        let case = self.case;
        let entries = front(&self.line, to).get(from..).unwrap_or(&[]);
        entries
            .iter()
            .filter(|entry| column(case, **entry) == c)
            .count()
    }

    // The index of the schedule: in each row what stands in the row before it, and the 64 entries between them.
    pub(crate) fn index(&self) -> Rows {
        let w = width(self.case);
        let mut rows = [STALE; 4370];
        for i in 0..self.size.min(4370) {
            rows[i] = if i < w {
                0
            } else {
                let last = i - w;
                let from = 64 * (last / w);
                let since = self.ticks_with(Some((i % w) as u32), from, from + 64);
                rows[last] % 65536 + (since % 65536) as u32
            };
        }
        rows
    }

    // In each row past the tick the old entry's column loses 1 and the new one's gains 1.
    pub(crate) fn replaced(&self, tick: usize, entry: u16) -> Change {
        let case = self.case;
        let w = width(case);
        let old = column(case, entry_at(&self.line, tick));
        let new = column(case, entry);
        let mut line = self.line;
        if let Some(own) = line.get_mut(tick) {
            *own = entry;
        }
        let mut rows = self.rows;
        let mut strays = old.is_none() | new.is_none();
        let size = if old == new { 0 } else { self.size };
        for (i, number) in rows.iter_mut().enumerate().take(size) {
            let was = *number;
            let c = Some((i % w) as u32);
            let next = if 64 * (i / w) <= tick {
                continue;
            } else if c == old {
                was.checked_sub(1)
            } else if c == new {
                was.checked_add(1)
            } else {
                continue;
            };
            match next {
                Some(x) if x <= case.horizon => *number = x,
                _ => strays = true,
            }
        }
        Change {
            line,
            rows,
            strays,
            same: old == new,
        }
    }
}
