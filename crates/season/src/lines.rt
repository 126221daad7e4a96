// A report as text, a line for each task, written into a buffer. Each part is written where the part before it ended.
ghost use Rattle.std.specs.Prelude.{◌+◌, ◌≤◌, length};
ghost use Rattle.season.specs.Show.{responses, row_line, showing};
ghost use Rattle.text.specs.Decimal.{decimal, spaced};
ghost use Rattle.text.specs.Wrote.{Put, Wrote};

use crate::answers::{Mean, Report, Row};
use crate::joins::task_rows;
use crate::means::divided;
use text::{put_byte, put_numbers, put_text};

// Least and greatest, and the mean, of a row with a finished job; `-` each of another.
#[tactic(auto, unfolding(text::specs::Decimal::spaced, text::specs::Decimal::numbers))]
fn put_responses(out: &mut [u8], at: usize, least: u32, greatest: u32, mean: Option<Mean>) -> usize
    ensures { Put out.old at (spaced (responses least greatest mean)) out.new result }
{
    match mean {
        None => put_text(out, at, b" - - - - -"),
        Some(mean) => {
            let five = [least, greatest, mean.quotient, mean.remainder, mean.count];
            put_numbers(out, at, &five)
        }
    }
}

// The line of task k.
fn put_row(out: &mut [u8], at: usize, k: u32, row: Row) -> usize
    ensures puts { Put out.old at (row_line k row) out.new result }
    ensures few { result ≤ at + (96 + length (decimal k)) }
{
    let a = put_text(out, at, b"task");
    let five = [k, row.met, row.late, row.ended, row.open];
    let b = put_numbers(out, a, &five);
    let c = put_responses(out, b, row.least, row.greatest, divided(row));
    put_byte(out, c, b'\n')
}

// The lines of the report's tasks: at most 1,558 bytes.
fn put_rows(out: &mut [u8], report: Report) -> usize
    ensures puts { Put out.old 0 (showing report) out.new result }
    ensures few { result ≤ 1558 }
{
    let mut at: usize = 0;
    for k in 0..task_rows(report.tasks) {
        at = put_row(out, at, k as u32, report.rows[k]);
    }
    at
}

// The lines of the report's tasks, written at the front of `out`, every other byte as it was; how many bytes they have: at most 1,558.
pub fn show(report: Report, out: &mut [u8; 2048]) -> usize
    ensures writes { Wrote out.old 0 (showing report) out.new result }
    ensures few { result ≤ 1558 }
{
    put_rows(out, report)
}
