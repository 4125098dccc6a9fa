// Big-endian numbers of 1, 2 and 4 bytes at an offset of a slice.
ghost use Rattle.std.specs.Prelude.{◌≡◌, ℕ, ◌+◌, ◌*◌, ◌≤◌, ◌<◌, length};
ghost use Rattle.bits.specs.Numbers.{bytes};
ghost use Rattle.bits.specs.Parts.{number_at, splice};

// Two bytes as one number: a channel is searched for both in one test (docs/DECISIONS.md, 39).
pub fn join8(a: u8, b: u8) -> u16
    ensures { result ≡ a * 256 + b }
{
    u16::from_be_bytes([a, b])
}

// What is written as so many bytes, the highest first.
pub trait Number: Copy {
    // How many.
    ghost width: { ℕ };

    // The number that it is.
    ghost value: { Self → ℕ };

    // The one that stands at `at`.
    fn read(s: &[u8], at: usize) -> Self
        requires { at + width ≤ length s.now }
        ensures { value result ≡ number_at width s.now at };

    // Its bytes, from `at` on.
    fn write(self, s: &mut [u8], at: usize)
        requires { at + width ≤ length s.old }
        ensures { s.new ≡ splice s.old at (bytes width (value self)) };
}

impl Number for u8 {
    ghost width = { 1 };

    ghost value = { λ x. x };

    fn read(s: &[u8], at: usize) -> u8 {
        s[at]
    }

    fn write(self, s: &mut [u8], at: usize) {
        s[at] = self;
    }
}

impl Number for u16 {
    ghost width = { 2 };

    ghost value = { λ x. x };

    fn read(s: &[u8], at: usize) -> u16 {
        u16::from_be_bytes([s[at], s[at + 1]])
    }

    fn write(self, s: &mut [u8], at: usize) {
        s[at..at + 2].copy_from_slice(&self.to_be_bytes());
    }
}

impl Number for u32 {
    ghost width = { 4 };

    ghost value = { λ x. x };

    fn read(s: &[u8], at: usize) -> u32 {
        u32::from_be_bytes([s[at], s[at + 1], s[at + 2], s[at + 3]])
    }

    fn write(self, s: &mut [u8], at: usize) {
        s[at..at + 4].copy_from_slice(&self.to_be_bytes());
    }
}

// The number that stands at `at`.
pub fn get<N: Number>(s: &[u8], at: usize) -> N
    requires { at + N.width ≤ length s.now }
    ensures { N.value result ≡ number_at N.width s.now at }
{
    N::read(s, at)
}

// The bytes of v, from `at` on.
pub fn put<N: Number>(s: &mut [u8], at: usize, v: N)
    requires { at + N.width ≤ length s.old }
    ensures { s.new ≡ splice s.old at (bytes N.width (N.value v)) }
{
    v.write(s, at);
}
