// Text put into a lent buffer, where each function answers the place after what it put; and text with a fixed room, to whose end it is added.
#![tactic(auto)]

ghost use Rattle.std.specs.Prelude.{◌≡◌, ℕ, ◌+◌, ◌*◌, ◌≤◌, ◌<◌, ltb, List, [], ◌∷◌, length, take};
ghost use Rattle.text.specs.Text.{decimal, is_gap, is_nil, in_gap, filled, byte_if, or_dash, mask_item, mask_list, hex_digit, hex_byte, hex};
ghost use Rattle.text.specs.Inner.Within.{WroteWithin};
ghost use Rattle.text.specs.Inner.Added.{Added};

use std::marker::Model;

// One byte.
pub fn put_byte(out: &mut [u8], at: usize, b: u8) -> usize
    requires { at < length out.old }
    ensures { WroteWithin 1 out.old out.new at result (b ∷ []) }
{
    out[at] = b;
    at + 1
}

// The byte b, if so.
fn put_byte_if(out: &mut [u8], at: usize, so: bool, b: u8) -> usize
    requires { at < length out.old }
    ensures { WroteWithin 1 out.old out.new at result (byte_if so b) }
{
    if so { put_byte(out, at, b) } else { at }
}

// n in decimal. `write!` answers a `Result`, and no clause of std says that it is `Ok` here; `itoa` gives the digits of every number.
fn put_number(out: &mut [u8], at: usize, n: u32) -> usize
    requires { at + 10 ≤ length out.old }
    ensures { WroteWithin 10 out.old out.new at result (decimal n) }
{
    let mut digits = itoa::Buffer::new();
    let mut next = at;
    for b in digits.format(n).as_bytes() {
        next = put_byte(out, next, *b);
    }
    next
}

// Whether the byte b of a pattern is a gap.
fn is_gap(b: u8) -> bool
    ensures { result ≡ is_gap b }
{
    (b == b'#') | (b == b'@')
}

// Whether n is nil, in a gap b where it may be.
fn is_nil(b: u8, n: u32) -> bool
    ensures { result ≡ is_nil b n }
{
    (b == b'@') & (n == 255)
}

// n in the gap b.
fn put_in_gap(out: &mut [u8], at: usize, b: u8, n: u32) -> usize
    requires { at + 10 ≤ length out.old }
    ensures { WroteWithin 10 out.old out.new at result (in_gap b n) }
{
    if is_nil(b, n) {
        put_byte(out, at, b'-')
    } else {
        put_number(out, at, n)
    }
}

// A pattern, with the numbers in its gaps.
pub fn put_filled(out: &mut [u8], at: usize, pattern: &[u8], numbers: &[u32]) -> usize
    requires { at + length pattern.now + 9 * length numbers.now ≤ length out.old }
    ensures { WroteWithin (length pattern.now + 9 * length numbers.now) out.old out.new at result
        (filled pattern.now numbers.now) }
{
    let mut next = at;
    let mut left = numbers;
    for b in pattern {
        match left.split_first() {
            Some((n, rest)) if is_gap(*b) => {
                next = put_in_gap(out, next, *b, *n);
                left = rest;
            }
            _ => next = put_byte(out, next, *b),
        }
    }
    next
}

// A pattern with one gap.
pub fn put_filled_one(out: &mut [u8], at: usize, pattern: &[u8], n: u32) -> usize
    requires { at + length pattern.now + 9 ≤ length out.old }
    ensures { WroteWithin (length pattern.now + 9) out.old out.new at result (filled pattern.now (n ∷ [])) }
{
    put_filled(out, at, pattern, &[n])
}

// The number p, if the mask has it, in a list that begins at `start`.
fn put_mask_item(out: &mut [u8], start: usize, at: usize, m: u16, p: u8) -> usize
    requires { at + 11 ≤ length out.old }
    ensures { WroteWithin 11 out.old out.new at result (mask_item m p (ltb start at)) }
{
    if bits::mask::has(m, p) {
        let next = put_byte_if(out, at, start < at, b',');
        put_number(out, next, u32::from(p))
    } else {
        at
    }
}

// The numbers of a mask, or a dash if it has none.
pub fn put_mask_or_dash(out: &mut [u8], at: usize, m: u16) -> usize
    requires { at + 177 ≤ length out.old }
    ensures { WroteWithin 177 out.old out.new at result (or_dash (mask_list m)) }
{
    let mut next = at;
    for p in 0..16 {
        next = put_mask_item(out, at, next, m, p);
    }
    put_byte_if(out, next, next == at, b'-')
}

fn hex_digit(n: u8) -> u8
    requires { n < 16 }
    ensures { result ≡ hex_digit n }
{
    if n < 10 { 48 + n } else { 87 + n }
}

// A byte as two hexadecimal digits.
fn put_hex_byte(out: &mut [u8], at: usize, b: u8) -> usize
    requires { at + 2 ≤ length out.old }
    ensures { WroteWithin 2 out.old out.new at result (hex_byte b) }
{
    let next = put_byte(out, at, hex_digit(b / 16));
    put_byte(out, next, hex_digit(b % 16))
}

// Bytes in lower-case hexadecimal.
pub fn put_hex(out: &mut [u8], at: usize, s: &[u8]) -> usize
    requires { at + 2 * length s.now ≤ length out.old }
    ensures { WroteWithin (2 * length s.now) out.old out.new at result (hex s.now) }
{
    let mut next = at;
    for b in s {
        next = put_hex_byte(out, next, *b);
    }
    next
}

// At most ROOM bytes. A clause sees the list of them, and not what the array holds behind them.
#[derive(Drop)]
pub struct Text<const ROOM: usize> {
    bytes: [u8; ROOM],
    len: usize,
}

impl<const ROOM: usize> Model for Text<ROOM> {
    ghost Value = { List ℕ };

    ghost view = { λ t. take t.len t.bytes };

    ghost invariant = { λ t. t.len ≤ ROOM };
}

impl<const ROOM: usize> Text<ROOM> {
    // Nothing yet.
    pub fn new() -> Self
        ensures { result ≡ [] }
    {
        Text {
            bytes: [0; ROOM],
            len: 0,
        }
    }

    pub fn len(&self) -> usize
        ensures { result ≡ length self.now }
    {
        self.as_slice().len()
    }

    pub fn as_slice(&self) -> &[u8]
        ensures { result.now ≡ self.now }
    {
        &self.bytes[..self.len]
    }

    // One byte.
    pub fn push(&mut self, b: u8)
        requires { length self.old < ROOM }
        ensures { Added 1 self.old self.new (b ∷ []) }
    {
        self.len = put_byte(&mut self.bytes, self.len, b);
    }

    // A pattern, with the numbers in its gaps.
    pub fn put_filled(&mut self, pattern: &[u8], numbers: &[u32])
        requires { length self.old + length pattern.now + 9 * length numbers.now ≤ ROOM }
        ensures { Added (length pattern.now + 9 * length numbers.now) self.old self.new
            (filled pattern.now numbers.now) }
    {
        self.len = put_filled(&mut self.bytes, self.len, pattern, numbers);
    }

    // A pattern with one gap.
    pub fn put_filled_one(&mut self, pattern: &[u8], n: u32)
        requires { length self.old + length pattern.now + 9 ≤ ROOM }
        ensures { Added (length pattern.now + 9) self.old self.new (filled pattern.now (n ∷ [])) }
    {
        self.len = put_filled_one(&mut self.bytes, self.len, pattern, n);
    }

    // The numbers of a mask, or a dash if it has none.
    pub fn put_mask_or_dash(&mut self, m: u16)
        requires { length self.old + 177 ≤ ROOM }
        ensures { Added 177 self.old self.new (or_dash (mask_list m)) }
    {
        self.len = put_mask_or_dash(&mut self.bytes, self.len, m);
    }

    // Bytes in lower-case hexadecimal.
    pub fn put_hex(&mut self, s: &[u8])
        requires { length self.old + 2 * length s.now ≤ ROOM }
        ensures { Added (2 * length s.now) self.old self.new (hex s.now) }
    {
        self.len = put_hex(&mut self.bytes, self.len, s);
    }
}
