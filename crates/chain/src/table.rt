// A table's numbers: read from the file, and checked by document 01's checks, of seven numbers per task.
ghost use Rattle.std.specs.Prelude.{◌≡◌, ◌+◌, ◌*◌, ◌<◌, ◌≤◌, length, replicate};
ghost use Rattle.chain.specs.Table.{numbers_from, padded, unlabelled, check_table};

use crate::layout::Layout;
use tables::{Outcome, check_tasks, number_at, refuse};

// 128 numbers, each 0.
pub(crate) fn zeros() -> [u32; 128]
    ensures { result ≡ replicate 128 0 }
{
    [0; 128]
}

// The n numbers from a byte place on, 0 behind them.
pub(crate) fn decode(file: &[u8], start: u32, n: usize) -> [u32; 128]
    requires { n ≤ 128 }
    ensures { result ≡ padded 128 (numbers_from file.now start n) }
{
    let mut out = zeros();
    let first = start as usize;
    for i in 0..n {
        out[i] = number_at(file, first + i * 4);
    }
    out
}

// The seven numbers of each task of a table of layout 2, 0 behind them.
fn unlabelled(table: &[u32]) -> [u32; 112]
    requires { length table.now < 136 }
    ensures { result ≡ padded 112 (unlabelled table.now) }
{
    let mut out = [0u32; 112];
    for i in 0..table.len() / 8 * 7 {
        out[i] = table[i / 7 * 8 + i % 7];
    }
    out
}

// 2 to 4 for a table of layout 2: a length that is no multiple of 8, or over 16 tasks, goes before all others.
fn check_labelled(table: &[u32]) -> Outcome
    ensures { result ≡ check_table Layout.Two table.now }
{
    let count = table.len() / 8;
    refuse((table.len() % 8 != 0) | (16 < count), 2, 0)?;
    let sevens = unlabelled(table);
    let n = count * 7;
    check_tasks(&sevens[..n])
}

// 2 to 4 for a table.
#[tactic(auto, unfolding(crate::specs::Table::check_table))]
pub(crate) fn check_table(layout: Layout, table: &[u32]) -> Outcome
    ensures { result ≡ check_table layout table.now }
{
    match layout {
        Layout::One => check_tasks(table),
        Layout::Two => check_labelled(table),
    }
}
