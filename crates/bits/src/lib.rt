// 64-bit words: a bit set, the ones, the highest bit, and the set bits one by one from the lowest; and the number of a test.
// Each function has one answer for every input, and `proofs/Laws/Word.antt` has the laws by which a caller reads it.
#![tactic(auto)]

ghost use Rattle.std.specs.Prelude.{◌≡◌, cond};
ghost use Rattle.bits.specs.Below.{count, greatest, least, bit};
ghost use Rattle.std.specs.Iterator.{at_most};
ghost use Rattle.bits.specs.Each.{Gives};
ghost use Rattle.bits.specs.Word.{with_bit, without, without_lowest};

// The word with bit p set too; for p of 64 or more the word as it is.
pub fn with_bit(w: u64, p: u32) -> u64
    ensures { result ≡ with_bit w p }
{
    if p < 64 { w | (1u64 << p) } else { w }
}

// The same where the test passes; else the word as it is.
pub fn with_bit_if(w: u64, p: u32, test: bool) -> u64
    ensures { result ≡ cond test (with_bit w p) w }
{
    if test { with_bit(w, p) } else { w }
}

// Whether bit p of the word is set; no bit of 64 or more is.
pub fn has_bit(w: u64, p: u32) -> bool
    ensures { result ≡ bit w p }
{
    if p < 64 { (w >> p) % 2 == 1 } else { false }
}

// The bits of v that w lacks.
pub fn without(v: u64, w: u64) -> u64
    ensures { result ≡ without v w }
{
    v ^ (v & w)
}

// How many bits of the word are set.
pub fn ones(w: u64) -> u32
    ensures { result ≡ count 64 (bit w) }
{
    u64::count_ones(w)
}

// The number of the highest set bit, or 64 where no bit is set.
pub fn highest(w: u64) -> u32
    ensures { result ≡ greatest 64 (bit w) 64 }
{
    if w == 0 {
        return 64;
    }
    63 - u64::leading_zeros(w)
}

// The number of the lowest set bit, or 64 where no bit is set.
pub fn lowest(w: u64) -> u32
    ensures { result ≡ least 64 (bit w) 64 }
{
    u64::trailing_zeros(w)
}

// The word without its lowest set bit; 0 has none.
pub fn without_lowest(w: u64) -> u64
    ensures { result ≡ without_lowest w }
{
    if w == 0 {
        return 0;
    }
    w ^ (1u64 << lowest(w))
}

// The set bits of a word that are still to come, from the lowest on.
#[derive(Clone, Copy)]
pub struct SetBits {
    rest: u64,
}

impl Iterator for SetBits {
    type Item = u32;

    ghost remaining = { λ s. at_most s.rest };

    ghost next_gives = { Gives };

    fn next(&mut self) -> Option<u32> {
        if self.rest == 0 {
            return None;
        }
        let p = lowest(self.rest);
        self.rest = without_lowest(self.rest);
        Some(p)
    }
}

// The set bits of the word, for a loop.
pub fn each(w: u64) -> SetBits
    ensures { result.rest ≡ w }
{
    SetBits { rest: w }
}

// 1 where the test passes, else 0.
pub fn one_if(test: bool) -> u32
    ensures { result ≡ cond test 1 0 }
{
    if test { 1 } else { 0 }
}
