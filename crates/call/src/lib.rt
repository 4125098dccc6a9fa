// The reach of a call.
#![tactic(auto)]

ghost use Rattle.std.specs.Prelude.{◌≡◌, ◌<◌, length};
ghost use Rattle.tree.specs.Reach.{reach};
ghost use Rattle.protocol.specs.Net.{Net};
ghost use Rattle.protocol.specs.Calls.{tree_of, reach_list};
ghost use Rattle.access.specs.Inner.Seen.{net_of};
ghost use Rattle.visit.specs.Lists.{reach_bytes, list_length};
ghost use Rattle.call.specs.Answers.{CallEnd};

use access::read::NetBytes;
use layout::form::Mark;
use protocol::{NIL, Refusal};

// How many are reached, and how many copies are made.
#[derive(Clone, Copy)]
pub struct Reached {
    pub reached: u8,
    pub copies: u8,
}

// The reach list of a group that is one, in a list of the stated size: how many are reached.
fn list_reached(net: &NetBytes, g: u8, out: &mut [u8]) -> u8
    requires g_bound { g < (net_of net.now).groups }
    requires size { length out.old ≡ list_length }
    ensures count { result ≡ length (reach (tree_of (net_of net.now) g)) }
    ensures list { out.new ≡ reach_bytes (reach_list (net_of net.now) g) }
{
    out.fill(NIL);
    let root = net.root_of(g);
    let n = net.stations();
    let end = visit::visit_station(net, g, root, 0, n, out, 0);
    (end / 3) as u8
}

// The call of any station of any group in any bytes, into any list: who is reached, in the order of the tree.
pub fn call(net: &[u8], g: u8, c: u8, out: &mut [u8]) -> Result<Reached, Refusal>
    ensures { CallEnd net.now g c out.old result out.new }
{
    let net = NetBytes::shaped(net, Mark::Saved)?;
    if !(net.is_group(g) & net.is_station(c)) {
        return Err(Refusal::BadOperand);
    }
    if out.len() != visit::LIST_LENGTH {
        return Err(Refusal::WrongSize);
    }
    if !visit::on_tree(&net, g, c) {
        return Err(Refusal::NotOnTree);
    }
    let reached = list_reached(&net, g, out);
    Ok(Reached {
        reached,
        copies: reached - 1,
    })
}
