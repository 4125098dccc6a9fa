// The routes.
ghost use Rattle.std.specs.Prelude.{◌≡◌, ◌≤◌, ◌<◌, length};
ghost use Rattle.protocol.specs.Net.{most_stations};
ghost use Rattle.layout.specs.Layout.{net_length};
ghost use Rattle.shape.specs.Shape.{nil_or, route_shaped, route_row_shaped, routes_shaped};

use layout::front::Front;
use layout::offset::{ENTRIES_AT, ROUTE_ROW_SIZE, ROUTES_AT, route_at};
use layout::stretch::zeros;
use protocol::NIL;

// Whether r is nil or one of the neighbours m.
pub fn nil_or(m: u16, r: u8) -> bool
    ensures { result ≡ nil_or m r }
{
    (r == NIL) | bits::mask::has(m, r)
}

// The route at `at`, from p towards d; m are the neighbours of p.
fn route_shaped(s: &[u8], at: usize, m: u16, p: usize, d: usize) -> bool
    requires { at < length s.now }
    ensures { result ≡ route_shaped m p d s.now at }
{
    nil_or(m, s[at]) & (!(p == d) | (s[at] == NIL))
}

fn route_row_shaped(s: &[u8], n: usize, p: usize) -> bool
    requires { (net_length ≤ length s.now) × (n ≤ most_stations) × (p < most_stations) }
    ensures { result ≡ route_row_shaped s.now n p }
{
    let front = Front { bytes: s };
    let m = front.neighbours(p);
    let row = ROUTES_AT + ROUTE_ROW_SIZE * p;
    (0..n).fold(true, |ok, d| ok & route_shaped(s, route_at(p, d), m, p, d))
        & zeros(s, row + n, row + ROUTE_ROW_SIZE)
}

pub fn routes_shaped(s: &[u8], n: usize) -> bool
    requires { (net_length ≤ length s.now) × (n ≤ most_stations) }
    ensures { result ≡ routes_shaped s.now n }
{
    (0..n).all(|p| route_row_shaped(s, n, p)) & zeros(s, ROUTES_AT + ROUTE_ROW_SIZE * n, ENTRIES_AT)
}
