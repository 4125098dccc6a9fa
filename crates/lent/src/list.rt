// The reach list is "a lent list of exactly 16 entries, one record each".
ghost use Rattle.std.specs.Prelude.{◌≡◌, ◌*◌, ◌≤◌, length, take};
ghost use Rattle.visit.specs.Lists.{reach_bytes};
ghost use Rattle.call.specs.Answers.{called_of};
ghost use Rattle.lent.specs.Lists.{called_on, records_after_call};
ghost use Rattle.lent.specs.Inner.Filling.{FillsList};

use call::Reached;
use protocol::{MOST_STATIONS, NIL, Refusal};
use tree::Reach;
use visit::LIST_LENGTH;

// What the call over bytes gave: its answer, how many records are to be filled, and their bytes.
#[derive(Clone, Copy)]
pub struct Filling {
    pub called: Result<Reached, Refusal>,
    pub fill: usize,
    pub bytes: [u8; LIST_LENGTH],
}

// The call over bytes, for a list of n records: any other number than 16 is a list of the wrong size. On a refusal none is to be filled.
fn call_bytes(net: &[u8], g: u8, c: u8, n: usize) -> Filling
    ensures { FillsList net.now g c n result }
{
    let mut bytes = [NIL; LIST_LENGTH];
    let size = if n == MOST_STATIONS { LIST_LENGTH } else { 0 };
    let called = call::call(net, g, c, &mut bytes[..size]);
    let fill = match called {
        Ok(_) => MOST_STATIONS,
        Err(_) => 0,
    };
    Filling {
        called,
        fill,
        bytes,
    }
}

// The records that have the first bytes of these.
fn fill(list: &mut [Reach], bytes: &[u8])
    requires { 3 * length list.old ≤ length bytes.now }
    ensures { reach_bytes list.new ≡ take (3 * length list.old) bytes.now }
{
    for (i, reach) in list.iter_mut().enumerate() {
        let at = 3 * i;
        *reach = Reach {
            station: bytes[at],
            parent: bytes[at + 1],
            depth: bytes[at + 2],
        };
    }
}

// The call of any station of any group in any bytes, into any list of records.
pub fn call(net: &[u8], g: u8, c: u8, list: &mut [Reach]) -> Result<Reached, Refusal>
    ensures { (called_of result ≡ called_on net.now g c (length list.old))
        × (list.new ≡ records_after_call net.now g c list.old) }
{
    let k = call_bytes(net, g, c, list.len());
    fill(&mut list[..k.fill], &k.bytes);
    k.called
}
