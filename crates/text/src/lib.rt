// Text in bytes: numbers read, and words and numbers written one behind another.
// Each public function has one answer for every input: where there is no room, a writer stops. `proofs/Promise.antt` says that what is
// written is read back.
#![tactic(auto)]

ghost use Rattle.std.specs.Prelude.{◌≡◌, [], ◌∷◌, ◌≤◌, drop, length, get_or};
ghost use Rattle.text.specs.Decimal.{decimal, decimal_at, number_within, numbers, wide_at};
ghost use Rattle.text.specs.Wrote.{Put};

// The byte at a position, or 256 past the end.
pub fn byte_at(text: &[u8], at: usize) -> u32
    ensures { result ≡ get_or text.now at 256 }
{
    text.get(at).map_or(256, |b| *b as u32)
}

// The number of 1 to `most` digits at a position, within 32 bits, leading zeros allowed, and the position after its last digit. One digit
// more makes it malformed, and what is malformed is none.
fn number_within(text: &[u8], at: usize, most: usize) -> Option<(u32, usize)>
    requires { most ≤ 10 }
    ensures { result ≡ number_within most text.now at }
{
    let mut value: u64 = 0;
    let mut n: usize = 0;
    let mut k = at;
    let mut b = byte_at(text, k);
    // no `for`: the text says where the digits end, and the byte behind the last one allowed is looked at, too
    while 48 <= b && b <= 57 {
        if most <= n {
            return None;
        }
        value = value * 10 + ((b - 48) as u64);
        n += 1;
        k += 1;
        b = byte_at(text, k);
    }
    if n < 1 {
        return None;
    }
    if 4294967295 < value {
        return None;
    }
    Some((value as u32, k))
}

// The number of 1 to 5 digits at a position, leading zeros allowed, and the position after it. A sixth digit makes it malformed: none.
pub fn read(text: &[u8], at: usize) -> Option<(u32, usize)>
    ensures { result ≡ decimal_at text.now at }
{
    number_within(text, at, 5)
}

// The number of 1 to 10 digits at a position, leading zeros allowed, and the position after it; past 4,294,967,295 it is malformed: none.
pub fn read_wide(text: &[u8], at: usize) -> Option<(u32, usize)>
    ensures { result ≡ wide_at text.now at }
{
    number_within(text, at, 10)
}

// One byte, and the position after it.
pub fn put_byte(out: &mut [u8], at: usize, b: u8) -> usize
    ensures { Put out.old at (b ∷ []) out.new result }
{
    if at < out.len() {
        out[at] = b;
        return at + 1;
    }
    at
}

// A text, byte by byte, and the position after it.
pub fn put_text(out: &mut [u8], at: usize, text: &[u8]) -> usize
    ensures { Put out.old at text.now out.new result }
{
    let mut k = at;
    for &b in text {
        k = put_byte(out, k, b);
    }
    k
}

// The digits of x, written from the last to the first, so that they end where the room does; where they begin.
fn put_digits(room: &mut [u8], x: u32) -> usize
    requires { length room.old ≡ 10 }
    ensures { (result ≤ 10) × (drop result room.new ≡ decimal x) }
{
    let mut rest = x;
    let mut i: usize = 9;
    room[9] = 48 + (rest % 10) as u8;
    // no `for`: the number says how many digits it has
    while 10 <= rest {
        rest = rest / 10;
        i -= 1;
        room[i] = 48 + (rest % 10) as u8;
    }
    i
}

// x without leading zeros, and the position after it.
pub fn put_number(out: &mut [u8], at: usize, x: u32) -> usize
    ensures { Put out.old at (decimal x) out.new result }
{
    let mut room = [0u8; 10];
    let first = put_digits(&mut room, x);
    put_text(out, at, &room[first..])
}

// Numbers, a space before each, and the position after them.
pub fn put_numbers(out: &mut [u8], at: usize, xs: &[u32]) -> usize
    ensures { Put out.old at (numbers xs.now) out.new result }
{
    let mut k = at;
    for &x in xs {
        let a = put_byte(out, k, b' ');
        k = put_number(out, a, x);
    }
    k
}
