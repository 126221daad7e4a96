// Appending a table and its trailer behind the used bytes: all checks first, then the bytes.
ghost use Rattle.std.specs.Prelude.{◌≡◌, ◌++◌, ◌+◌, ◌*◌, ◌≤◌, ltb, length};
ghost use Rattle.std.proofs.lemmas.List.Edits.{sets};
ghost use Rattle.chain.specs.Answers.{new_trailer, append_answer, append_file};
ghost use Rattle.tables.specs.Bytes.{bytes_of};
ghost use Rattle.chain.specs.Refusals.{check24, check_last, check_append, end_after};
ghost use Rattle.chain.specs.Trailer.{trailer_numbers};

use crate::layout::{Layout, count_of, number_of};
use crate::table::check_table;
use crate::trailer::{check_trailer, last_place};
use tables::{Outcome, Refusal, put_at, refuse};

// The last trailer checked by 21 and 22, both layouts known; a file with no used bytes has none.
fn check_last(file: &[u8], used: usize) -> Outcome
    ensures { result ≡ check_last file.now used }
{
    if used == 0 {
        return Ok(());
    }
    check_trailer(Layout::Two, file, used, last_place(used))
}

// The end would pass a limit. Told by the room that there is, as the end itself may be over 64 bits.
#[tactic(auto, using(crate::proofs::Laws::Appending::passes_trailer, crate::proofs::Laws::Appending::passes_numbers))]
fn passes(limit: usize, used: usize, numbers: usize) -> bool
    ensures { result ≡ ltb limit (end_after used numbers) }
{
    if limit < used {
        return true;
    }
    let room = limit - used;
    if room < 16 {
        return true;
    }
    (room - 16) / 4 < numbers
}

// 24: the end would pass the lent list or 4,294,967,295.
#[tactic(auto, unfolding(crate::specs::Refusals::check24))]
fn check24(bytes: usize, used: usize, numbers: usize) -> Outcome
    ensures { result ≡ check24 bytes used numbers }
{
    let list = passes(bytes, used, numbers);
    let places = passes(4294967295, used, numbers);
    refuse(list | places, 24, 0)
}

// What an append checks, in its order.
#[tactic(auto, unfolding(crate::specs::Refusals::check_append, tables::specs::Refusals::before))]
fn check_append(layout: Layout, file: &[u8], used: usize, table: &[u32]) -> Outcome
    ensures { result ≡ check_append layout file.now used table.now }
{
    check_last(file, used)?;
    check_table(layout, table)?;
    check24(file.len(), used, table.len())
}

// Numbers written one behind another; the place behind them.
fn put_numbers(file: &mut [u8], at: usize, numbers: &[u32]) -> usize
    requires { at + length numbers.now * 4 ≤ length file.old }
    ensures writes { file.new ≡ sets file.old at (bytes_of 4 numbers.now) }
    ensures ends { result ≡ at + length numbers.now * 4 }
{
    for (i, number) in numbers.iter().enumerate() {
        put_at(file, at + i * 4, *number);
    }
    at + numbers.len() * 4
}

// The numbers of the trailer behind a table of so many numbers at the used length.
fn trailer_numbers(layout: Layout, used: usize, numbers: usize) -> [u32; 4]
    requires { end_after used numbers ≤ 4294967295 }
    ensures { result ≡ trailer_numbers (new_trailer layout used numbers) }
{
    let before = last_place(used) as u32;
    let count = count_of(layout, numbers) as u32;
    [used as u32, before, number_of(layout), count]
}

// The table at the used length, its trailer behind it; the place behind both.
fn put_table(layout: Layout, file: &mut [u8], used: usize, table: &[u32]) -> usize
    requires table_in_bounds { end_after used (length table.now) ≤ length file.old }
    requires table_bound { end_after used (length table.now) ≤ 4294967295 }
    ensures writes { file.new ≡ sets file.old used (bytes_of 4 (table.now ++ trailer_numbers (new_trailer layout used (length table.now)))) }
    ensures ends { result ≡ end_after used (length table.now) }
{
    let trailer = trailer_numbers(layout, used, table.len());
    let at = put_numbers(file, used, table);
    put_numbers(file, at, &trailer)
}

// A table written at the used length with its trailer behind it, every other byte as it was; the used length afterwards. Used length 0 starts
// a new file. Refusals: 21 and 22 for the last trailer, 2 to 4 for the table, then 24; nothing is written.
pub fn append(layout: Layout, file: &mut [u8], used: usize, table: &[u32]) -> Result<usize, Refusal>
    ensures answers { result ≡ append_answer layout file.old used table.now }
    ensures writes { file.new ≡ append_file layout file.old used table.now }
{
    check_append(layout, file, used, table)?;
    Ok(put_table(layout, file, used, table))
}
