// The input text: a first line, a line for each task, a line for each job, and nothing after them.
ghost use Rattle.std.specs.Prelude.{◌≡◌, ◌≤◌, ◌<◌, length, replicate};
ghost use Rattle.sheet.specs.Grammar.{byte_behind, field_at, first_line, is_mode, mode_of_letter, fields_from};
ghost use Rattle.sheet.specs.Code.{Few, NumbersAre, sheet_of};

use zsrm::Mode;

// What an input text says. The lists stand at the front of their rooms, the counts beside them: fixed memory.
#[derive(Clone, Copy)]
pub(crate) struct Sheet {
    pub mode: Mode,
    pub horizon: u32,
    pub tasks: usize,
    pub jobs: usize,
    pub table: [u32; 112],
    pub list: [u32; 192],
}

// The first line: mode letter, horizon, task count, job count, and the position after it.
#[derive(Clone, Copy, Debug, PartialEq, Eq)]
pub(crate) struct Head {
    pub letter: u32,
    pub horizon: u32,
    pub tasks: u32,
    pub jobs: u32,
    pub next: usize,
}

// A number and the byte behind it.
fn field(text: &[u8], at: usize, end: u32) -> Option<(u32, usize)>
    requires { end < 256 }
    ensures { result ≡ field_at text.now at end }
{
    let (v, behind) = text::read(text, at)?;
    if text::byte_at(text, behind) == end {
        Some((v, behind + 1))
    } else {
        None
    }
}

// The byte behind number i, where `per` numbers make a line.
fn byte_behind(per: usize, i: usize) -> u32
    requires { (1 ≤ per) × (i < 1000) }
    ensures { result ≡ byte_behind per i }
{
    if (i + 1) % per == 0 { 10 } else { 32 }
}

// Reads n numbers, `per` to a line, into the list; the position after them.
fn numbers(text: &[u8], at: usize, per: usize, n: usize, list: &mut [u32]) -> Option<usize>
    requires le_per { (1 ≤ per) × (n < 1000) }
    requires n_in_bounds { n ≤ length list.old }
    ensures { NumbersAre (fields_from text.now per 0 n at) result list.old list.new }
{
    let mut k = at;
    for i in 0..n {
        let (v, next) = field(text, k, byte_behind(per, i))?;
        list[i] = v;
        k = next;
    }
    Some(k)
}

// Whether the byte is a mode letter, S or E.
fn is_mode(b: u32) -> bool
    ensures { result ≡ is_mode b }
{
    matches!(b, 83 | 69)
}

// The mode of its letter.
fn mode_of_letter(b: u32) -> Mode
    ensures { result ≡ mode_of_letter b }
{
    if b == 83 { Mode::S } else { Mode::SE }
}

// The first line, where it is one: a task count over 16 or a job count over 64 is none.
fn first_line(text: &[u8]) -> Option<Head>
    ensures is { result ≡ first_line text.now }
    ensures few { Few result }
{
    let letter = text::byte_at(text, 0);
    let mode = is_mode(letter);
    let space = text::byte_at(text, 1);
    if !(mode & (space == 32)) {
        return None;
    }
    let (horizon, a) = field(text, 2, 32)?;
    let (tasks, b) = field(text, a, 32)?;
    let (jobs, next) = field(text, b, 10)?;
    if !((tasks <= 16) & (jobs <= 64)) {
        return None;
    }
    Some(Head {
        letter,
        horizon,
        tasks,
        jobs,
        next,
    })
}

// Room for so many numbers.
fn room<const N: usize>() -> [u32; N]
    ensures { result ≡ replicate N 0 }
{
    [0; N]
}

// What the text says; nothing where it is malformed.
pub(crate) fn parse(text: &[u8]) -> Option<Sheet>
    ensures { result ≡ sheet_of text.now }
{
    let head = first_line(text)?;
    let tasks = head.tasks as usize;
    let jobs = head.jobs as usize;
    let mut table: [u32; 112] = room();
    let b = numbers(text, head.next, 7, tasks * 7, &mut table)?;
    let mut list: [u32; 192] = room();
    let e = numbers(text, b, 3, jobs * 3, &mut list)?;
    if e != text.len() {
        return None;
    }
    Some(Sheet {
        mode: mode_of_letter(head.letter),
        horizon: head.horizon,
        tasks,
        jobs,
        table,
        list,
    })
}
