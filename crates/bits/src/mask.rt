// Masks of 16 bits: one bit a station.
ghost use Rattle.std.specs.Prelude.{◌≡◌, ◌≤◌, ◌<◌};
ghost use Rattle.bits.specs.Masks as mask;

// Whether j, one of the sixteen, is in.
pub fn has_at(m: u16, j: usize) -> bool
    requires { j < 16 }
    ensures { result ≡ mask.has m j }
{
    (m >> j) % 2 == 1
}

// Whether j is in, for any j.
pub fn has(m: u16, j: u8) -> bool
    ensures { result ≡ mask.has m j }
{
    j < 16 && has_at(m, usize::from(j))
}

// With j.
pub fn with(m: u16, j: u8) -> u16
    requires { j < 16 }
    ensures { result ≡ mask.with m j }
{
    m | (1u16 << j)
}

// Without j.
pub fn without(m: u16, j: u8) -> u16
    requires { j < 16 }
    ensures { result ≡ mask.without m j }
{
    m & (65535 - (1u16 << j))
}

// Whether nothing is in but numbers below n.
pub fn below(m: u16, n: usize) -> bool
    requires { n ≤ 16 }
    ensures { result ≡ mask.below n m }
{
    (m as u32) >> n == 0
}

// Whether whatever is in a is in b.
pub fn within(a: u16, b: u16) -> bool
    ensures { result ≡ mask.within 16 a b }
{
    a & b == a
}
