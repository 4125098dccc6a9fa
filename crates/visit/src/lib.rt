// The tree of a group, visited over a net's bytes: up from a station to the root, and down from the root to all.
#![tactic(auto)]

ghost use Rattle.std.specs.Prelude.{◌≡◌, [], ◌∷◌, ◌+◌, ◌≤◌, ◌<◌, length};
ghost use Rattle.bits.specs.Parts.{splice, Wrote};
ghost use Rattle.tree.specs.Tree.{agreed, on_tree};
ghost use Rattle.protocol.specs.Net.{Net};
ghost use Rattle.protocol.specs.Calls.{tree_of};
ghost use Rattle.access.specs.Inner.Seen.{net_of};
ghost use Rattle.visit.specs.Inner.Visits.{station_bytes, children_bytes, MayVisit};

use access::read::NetBytes;

// How many bytes the reach list has: `list_length` of specs/Lists.antt.
pub const LIST_LENGTH: usize = 48;

// Whether p is the parent of j, and lists it.
fn agree(net: &NetBytes, g: u8, p: u8, j: u8) -> bool
    requires { (g < (net_of net.now).groups) × (j < (net_of net.now).stations) }
    ensures { result ≡ agreed (tree_of (net_of net.now) g) p j }
{
    if net.is_station(p) {
        let upper = net.entry(g, p);
        let lower = net.entry(g, j);
        bits::mask::has(upper.children, j) & (lower.parent == p)
    } else {
        false
    }
}

// Whether an agreed chain leads from c to the root.
pub fn on_tree(net: &NetBytes, g: u8, c: u8) -> bool
    requires { (g < (net_of net.now).groups) × (c < (net_of net.now).stations) }
    ensures { result ≡ on_tree (tree_of (net_of net.now) g) c }
{
    let root = net.root_of(g);
    let mut x = c;
    for _ in 0..net.stations() {
        if root == x {
            return true;
        }
        let up = net.entry(g, x).parent;
        if !agree(net, g, up, x) {
            return false;
        }
        x = up;
    }
    false
}

// One entry of the list. It and the visits write from a place on in the bytes that C lends for the list, and no copy is made of them.
fn put_reach(out: &mut [u8], at: usize, station: u8, parent: u8, depth: u8)
    requires { at + 3 ≤ length out.old }
    ensures { out.new ≡ splice out.old at (station ∷ parent ∷ depth ∷ []) }
{
    out[at] = station;
    out[at + 1] = parent;
    out[at + 2] = depth;
}

// Visits the station p: its own entry, and then its list of children. Answers where the list goes on. Document 01 asks for these two
// visits that call each other.
#[cycle(visit_children_visit_station)]
pub fn visit_station(
    net: &NetBytes,
    g: u8,
    p: u8,
    depth: u8,
    allowance: u8,
    out: &mut [u8],
    at: usize,
) -> usize
    requires { MayVisit net.now.bytes.now out.old g p depth allowance at (station_bytes (tree_of (net_of net.now) g) allowance depth p) }
    ensures { Wrote out.old out.new at result (station_bytes (tree_of (net_of net.now) g) allowance depth p) }
{
    if allowance == 0 {
        return at;
    }
    put_reach(out, at, p, net.entry(g, p).parent, depth);
    visit_children(net, g, p, 0, depth + 1, allowance - 1, out, at + 3)
}

// Visits the agreed children of p from j on.
#[cycle(visit_children_visit_station)]
fn visit_children(
    net: &NetBytes,
    g: u8,
    p: u8,
    j: u8,
    depth: u8,
    allowance: u8,
    out: &mut [u8],
    at: usize,
) -> usize
    requires { (j ≤ (net_of net.now).stations) × MayVisit net.now.bytes.now out.old g p depth allowance at (children_bytes (tree_of (net_of net.now) g) allowance depth p j) }
    ensures { Wrote out.old out.new at result (children_bytes (tree_of (net_of net.now) g) allowance depth p j) }
{
    if j == net.stations() {
        return at;
    }
    if agree(net, g, p, j) {
        let next = visit_station(net, g, j, depth, allowance, out, at);
        visit_children(net, g, p, j + 1, depth, allowance, out, next)
    } else {
        visit_children(net, g, p, j + 1, depth, allowance, out, at)
    }
}
