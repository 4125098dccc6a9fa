// Tests of a stretch of bytes. They go on to its end, so that the compiler can take many bytes at a time.
ghost use Rattle.std.specs.Prelude.{◌≡◌, ◌+◌, ◌≤◌, length};
ghost use Rattle.layout.specs.Bounded.{zeros, same};

// Whether the bytes from a up to e are zero.
pub fn zeros(s: &[u8], a: usize, e: usize) -> bool
    requires { (a ≤ e) × (e ≤ length s.now) }
    ensures { result ≡ zeros s.now a e }
{
    s[a..e].iter().fold(true, |ok, b| ok & (*b == 0))
}

// Whether the n bytes from a and from b are the same.
pub fn same(s: &[u8], a: usize, b: usize, n: usize) -> bool
    requires { (a + n ≤ length s.now) × (b + n ≤ length s.now) }
    ensures { result ≡ same s.now a b n }
{
    let pairs = s[a..a + n].iter().zip(&s[b..b + n]);
    pairs.fold(true, |ok, (x, y)| ok & (*x == *y))
}
