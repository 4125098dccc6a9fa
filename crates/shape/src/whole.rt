// The whole of a net.
ghost use Rattle.std.specs.Prelude.{◌≡◌, length};
ghost use Rattle.layout.specs.Layout.{net_length};
ghost use Rattle.shape.specs.Shape.{laid_out, shaped_as, shaped};

use layout::form::{Mark, mark_byte};
use layout::front::Front;
use layout::offset::NET_LENGTH;

fn laid_out(net: &[u8; NET_LENGTH], m: Mark) -> bool
    ensures { result ≡ laid_out m net.now }
{
    let front = Front { bytes: net };
    if plan::whole::planned(&front, NET_LENGTH as u32, mark_byte(m)) {
        let n = usize::from(front.stations());
        let g = usize::from(front.groups());
        crate::routes::routes_shaped(net, n)
            & crate::station_entries::entries_shaped(net, m, n, g)
            & crate::channels::channels_shaped(net, n, g)
    } else {
        false
    }
}

// Whether the bytes are a well-shaped net in the form of this mark.
pub fn shaped_as(s: &[u8], m: Mark) -> bool
    ensures { result ≡ shaped_as m s.now }
{
    match s.as_array() {
        Some(net) => laid_out(net, m),
        None => false,
    }
}

// In the saved form. `shaped-determined` speaks of it by this name.
pub fn shaped(s: &[u8]) -> bool
    ensures { result ≡ shaped s.now }
{
    shaped_as(s, Mark::Saved)
}
