// A fresh net from a plan.
#![tactic(auto)]

ghost use Rattle.std.specs.Prelude.{◌≡◌, ◌≤◌, length};
ghost use Rattle.protocol.specs.Net.{most_stations, most_groups};
ghost use Rattle.protocol.specs.Refusals.{outcome_of};
ghost use Rattle.protocol.specs.Fresh.{blank};
ghost use Rattle.layout.specs.Layout.{plan_length, stations, groups};
ghost use Rattle.fresh.specs.Fresh.{fresh_outcome, net_after_fresh};
ghost use Rattle.fresh.specs.Inner.Laying.{route_nil, entry_blank, laid};

use bits::number::put;
use forms::{Cell, make_rows};
use layout::form::Mark;
use layout::front::Front;
use layout::offset::NET_LENGTH;
use layout::{form, offset};
use protocol::{Entry, NIL, Refusal};

// A station has no route to another.
#[derive(Drop)]
struct NoRoute;

impl Cell for NoRoute {
    ghost rows = { most_stations };

    ghost made = { λ _ net p d. route_nil net p d };

    fn make(&self, net: &mut [u8; NET_LENGTH], p: usize, d: usize) {
        net[offset::route_at(p, d)] = NIL;
    }
}

fn blank() -> Entry
    ensures { result ≡ blank }
{
    Entry {
        parent: NIL,
        tentative: NIL,
        member: 0,
        clock: 0,
        children: 0,
        waiting: 0,
    }
}

// In a group, the entry of a station is blank.
#[derive(Drop)]
struct BlankEntry;

impl Cell for BlankEntry {
    ghost rows = { most_groups };

    ghost made = { λ _ net g p. entry_blank net g p };

    fn make(&self, net: &mut [u8; NET_LENGTH], g: usize, p: usize) {
        let a = form::stretch_at(Mark::Saved, g);
        let n = form::stretch_size(Mark::Saved);
        access::change::write_entry(
            &mut net[a..a + n],
            form::in_stretch(Mark::Saved, p),
            blank(),
        );
    }
}

// The whole net: all zero, but for the plan, the routes and the parents. The plan is the slice that was tested, and no array of it is made: its
// length is asked once.
fn lay(plan: &[u8], net: &mut [u8; NET_LENGTH])
    requires { (length plan.now ≡ plan_length) × (stations plan.now ≤ most_stations) × (groups plan.now ≤ most_groups) }
    ensures { net.new ≡ laid plan.now }
{
    let front = Front { bytes: plan };
    let n = usize::from(front.stations());
    net.fill(0);
    net[..plan.len()].copy_from_slice(plan);
    put(net, 0, NET_LENGTH as u32);
    make_rows(&NoRoute, net, n, n);
    make_rows(&BlankEntry, net, usize::from(front.groups()), n);
}

// A fresh net into any buffer, from any bytes.
pub fn fresh(plan: &[u8], net: &mut [u8]) -> Result<(), Refusal>
    ensures { (outcome_of result ≡ fresh_outcome plan.now net.old) × (net.new ≡ net_after_fresh plan.now net.old) }
{
    let Some(net) = net.as_mut_array() else {
        return Err(Refusal::WrongSize);
    };
    if !plan::whole::plan_shaped(plan) {
        return Err(Refusal::NotAPlan);
    }
    lay(plan, net);
    Ok(())
}
