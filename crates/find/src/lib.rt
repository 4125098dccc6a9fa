// A group found by its full name.
#![tactic(auto)]

ghost use Rattle.std.specs.Prelude.{◌≡◌, ◌<◌};
ghost use Rattle.protocol.specs.Net.{Net};
ghost use Rattle.protocol.specs.Names as names;
ghost use Rattle.access.specs.Inner.Seen.{net_of};
ghost use Rattle.find.specs.Answers.{found_of, found_in};

use access::read::NetBytes;
use layout::form::Mark;
use protocol::Refusal;

// Whether group g has this name.
fn has_name(net: &NetBytes, g: u8, name: &[u8]) -> bool
    requires { g < (net_of net.now).groups }
    ensures { result ≡ names.same_name ((net_of net.now).name g) name.now }
{
    net.name_of(g) == name
}

// The first group that has this name.
fn find_in(net: &NetBytes, name: &[u8]) -> Result<u8, Refusal>
    ensures { found_of result ≡ names.find (net_of net.now) name.now }
{
    for g in 0..net.groups() {
        if has_name(net, g, name) {
            return Ok(g);
        }
    }
    Err(Refusal::NoSuchName)
}

// The group that has exactly these name bytes, in any bytes.
pub fn find(net: &[u8], name: &[u8]) -> Result<u8, Refusal>
    ensures { found_of result ≡ found_in net.now name.now }
{
    let net = NetBytes::shaped(net, Mark::Saved)?;
    find_in(&net, name)
}
