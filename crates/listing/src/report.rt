// The report on an input: the listing, or the refusal.
ghost use Rattle.std.specs.Prelude.{◌≡◌, ◌≤◌, ◌<◌, length};
ghost use Rattle.bits.specs.Parts.{Wrote};
ghost use Rattle.protocol.specs.Fresh.{fresh};
ghost use Rattle.protocol.specs.Refusals.{outcome_of};
ghost use Rattle.layout.specs.Layout.{net_length};
ghost use Rattle.net.specs.Encode.{bytes_of};
ghost use Rattle.run.specs.Runs.{told};
ghost use Rattle.listing.specs.Bench.{plan_part, text_room, stored_outcome, stored_text};
ghost use Rattle.forms.specs.Plans.{plan_in};

use crate::lines;
use layout::offset::{NET_LENGTH, PLAN_LENGTH};
use protocol::{Refusal, Tally};

// `stored_length` and `text_room` of specs/Bench.antt: a plan and the longest script, and room for every text.
pub const STORED_LENGTH: usize = 16496;

pub const TEXT_ROOM: usize = 16640;

// What the input is refused with; if it is not, the net is fresh from its plan.
fn stored_outcome(stored: &[u8], beyond: usize, net: &mut [u8; NET_LENGTH]) -> Result<(), Refusal>
    requires { beyond < 9223372036854775808 }
    ensures outcome { outcome_of result ≡ stored_outcome stored.now beyond }
    ensures fresh { outcome_of result ≡ 0 → net.new ≡ bytes_of (fresh (plan_in (plan_part stored.now))) }
{
    if stored.len() < PLAN_LENGTH {
        return Err(Refusal::NotAPlan);
    }
    fresh::fresh(&stored[..PLAN_LENGTH], net)?;
    run::check_length(stored.len() - PLAN_LENGTH + beyond)
}

// The counts of a run that are listed: none where it was refused.
fn counts_of(ran: Result<Tally, Refusal>) -> Tally
    ensures { result ≡ (told ran).tally }
{
    ran.unwrap_or_default()
}

// The report on the bytes that are stored of an input, where `beyond` more were counted. It is put at the front of a lent buffer, as its
// theorem has it (`report-determined`).
pub fn report(stored: &[u8], beyond: usize, out: &mut [u8]) -> usize
    requires { (text_room ≤ length out.old) × (beyond < 9223372036854775808) }
    ensures { Wrote out.old out.new 0 result (stored_text stored.now beyond) × (result ≤ text_room) }
{
    let mut net = [0u8; NET_LENGTH];
    match stored_outcome(stored, beyond, &mut net) {
        Ok(()) => {
            let tally = counts_of(run::run(&mut net, &stored[PLAN_LENGTH..]));
            lines::listing(&net, tally, out)
        }
        Err(k) => lines::refused_text(out, k as u8),
    }
}
