// The cables: each station's mask of neighbours.
ghost use Rattle.std.specs.Prelude.{◌≡◌, ◌≤◌, ◌<◌, length};
ghost use Rattle.protocol.specs.Net.{most_stations};
ghost use Rattle.bits.specs.Below.{all_below};
ghost use Rattle.layout.specs.Bounded.{table};
ghost use Rattle.layout.specs.Layout.{plan_length, masks_at, mask_size};
ghost use Rattle.plan.specs.Planned as planned;

use layout::front::Front;
use layout::offset::{MASK_SIZE, MASKS_AT, ROUTES_AT};
use layout::stretch::zeros;

// Whether q has p for a neighbour if p has q.
fn both_ways(front: &Front, p: usize, q: usize) -> bool
    requires { (p < most_stations) × (q < most_stations) }
    ensures { result ≡ planned.both_ways front.now.bytes.now p q }
{
    !bits::mask::has_at(front.neighbours(p), q) | bits::mask::has_at(front.neighbours(q), p)
}

// Tested to the last: with a branch after each (`all`) a fresh net of sixteen stations with all cables took 1.4 times as long.
fn all_both_ways(front: &Front, n: usize, p: usize) -> bool
    requires { (n ≤ most_stations) × (p < most_stations) }
    ensures { result ≡ all_below n (planned.both_ways front.now.bytes.now p) }
{
    (0..n).fold(true, |ok, q| ok & both_ways(front, p, q))
}

fn station_cabled(front: &Front, n: usize, p: usize) -> bool
    requires { (n ≤ most_stations) × (p < most_stations) }
    ensures { result ≡ planned.station_cabled front.now.bytes.now n p }
{
    let m = front.neighbours(p);
    bits::mask::below(m, n) & !bits::mask::has_at(m, p) & all_both_ways(front, n, p)
}

pub fn cables_shaped(front: &Front, n: usize) -> bool
    requires { n ≤ most_stations }
    ensures { result ≡ table front.now.bytes.now masks_at mask_size most_stations n (planned.station_cabled front.now.bytes.now n) }
{
    (0..n).all(|p| station_cabled(front, n, p))
        & zeros(front.bytes, MASKS_AT + MASK_SIZE * n, ROUTES_AT)
}
