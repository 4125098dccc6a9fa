// A net carried from one form of its bytes to another.
#![tactic(auto)]

ghost use Rattle.std.specs.Prelude.{◌≡◌, length};
ghost use Rattle.protocol.specs.Net.{most_groups};
ghost use Rattle.protocol.specs.Refusals.{outcome_of};
ghost use Rattle.layout.specs.Layout.{net_length};
ghost use Rattle.layout.specs.declared.form.Mark.TheVariants.{Saved, Working};
ghost use Rattle.convert.specs.Converts.{convert_outcome, after_convert};
ghost use Rattle.convert.specs.Inner.Carried.{entry_carried, carried};

use forms::{Cell, make_rows};
use layout::form::{Mark, entry_at, mark_byte};
use layout::offset::{ENTRY_SIZE, NET_LENGTH};
use protocol::{MOST_GROUPS, MOST_STATIONS, Refusal};

// The entries of a net, from where they stand in one form to where they stand in another.
#[derive(Drop)]
struct Entries<'a> {
    net: &'a [u8],
    from: Mark,
    to: Mark,
    ghost long: { length net.now ≡ net_length },
}

impl Cell for Entries<'_> {
    ghost rows = { most_groups };

    ghost made = { λ e out g p. entry_carried e.net.now e.from e.to out g p };

    fn make(&self, out: &mut [u8; NET_LENGTH], g: usize, p: usize) {
        let a = entry_at(self.from, g, p);
        let b = entry_at(self.to, g, p);
        out[b..b + ENTRY_SIZE].copy_from_slice(&self.net[a..a + ENTRY_SIZE]);
    }
}

// Every byte of a net, one after the other: the library's copy of so many is a call of `memmove`, and of what is outside the archive for C
// needs `memset` alone (docs/DECISIONS.md, 33).
fn copy(net: &[u8], out: &mut [u8; NET_LENGTH])
    requires { length net.now ≡ net_length }
    ensures { out.new ≡ net.now }
{
    for i in 0..NET_LENGTH {
        out[i] = net[i];
    }
}

// The whole net: its bytes as they are, the other mark, and each entry where it stands now. What is read is the slice that was tested, and no
// array of it is made: its length is asked once.
fn carry(net: &[u8], m: Mark, out: &mut [u8; NET_LENGTH], n: Mark)
    requires { length net.now ≡ net_length }
    ensures { out.new ≡ carried net.now m n }
{
    copy(net, out);
    out[7] = mark_byte(n);
    let entries = Entries {
        net,
        from: m,
        to: n,
    };
    make_rows(&entries, out, MOST_GROUPS, MOST_STATIONS);
}

// Any bytes, which are to be a net in the form m, into any buffer in the form n.
pub fn convert(net: &[u8], m: Mark, out: &mut [u8], n: Mark) -> Result<(), Refusal>
    ensures { (outcome_of result ≡ convert_outcome m net.now out.old)
        × (out.new ≡ after_convert m n net.now out.old) }
{
    if !shape::whole::shaped_as(net, m) {
        return Err(Refusal::NotANet);
    }
    let Some(out) = out.as_mut_array() else {
        return Err(Refusal::WrongSize);
    };
    carry(net, m, out, n);
    Ok(())
}

// From the saved form to the working form: what C calls.
pub fn to_working(net: &[u8], work: &mut [u8]) -> Result<(), Refusal>
    ensures { (outcome_of result ≡ convert_outcome Saved net.now work.old)
        × (work.new ≡ after_convert Saved Working net.now work.old) }
{
    convert(net, Mark::Saved, work, Mark::Working)
}

// And back: what C calls.
pub fn to_saved(work: &[u8], net: &mut [u8]) -> Result<(), Refusal>
    ensures { (outcome_of result ≡ convert_outcome Working work.now net.old)
        × (net.new ≡ after_convert Working Saved work.now net.old) }
{
    convert(work, Mark::Working, net, Mark::Saved)
}
