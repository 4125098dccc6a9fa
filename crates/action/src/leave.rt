// A station that no longer joins leaves.
ghost use Rattle.std.specs.Prelude.{◌≡◌, cond, ◌||◌, ◌<◌, eqb};
ghost use Rattle.protocol.specs.Net.{most_groups, most_stations};
ghost use Rattle.protocol.specs.Entries.{joins, leave};
ghost use Rattle.access.specs.Inner.Nets.{EntryMade};

use access::change::Whole;
use layout::form::Mark;
use protocol::{Entry, NIL};

// Station p has the entry e in group g now: it stays if it is the root, or joins, and else has no parent from now on, and asks for none.
pub fn stay_or_leave(net: &mut Whole, m: Mark, g: u8, p: u8, root: u8, e: Entry)
    requires { (g < most_groups) × (p < most_stations) }
    ensures { EntryMade m net.old net.new g p (λ x. cond (eqb p root || joins e) x (leave x)) }
{
    if !entries::stays(root, p, e) {
        access::change::set_parent(net, m, g, p, NIL);
        access::change::set_tentative(net, m, g, p, NIL);
    }
}
