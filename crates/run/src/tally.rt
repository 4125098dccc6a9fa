// The tally in bytes.
ghost use Rattle.std.specs.Prelude.{◌≡◌, length};
ghost use Rattle.run.specs.Tallies.{tally_length, tally_bytes};

use bits::number::put as put_number;
use protocol::Tally;

pub const TALLY_LENGTH: usize = 36;

// The nine counts, those of the replies last.
pub fn put(out: &mut [u8], t: Tally)
    requires { length out.old ≡ tally_length }
    ensures { out.new ≡ tally_bytes t }
{
    put_number(out, 0, t.accepted);
    put_number(out, 4, t.refused);
    put_number(out, 8, t.sent);
    put_number(out, 12, t.delivered);
    put_number(out, 16, t.lost);
    put_number(out, 20, t.replies.adopted);
    put_number(out, 24, t.replies.not_tentative);
    put_number(out, 28, t.replies.unconnected);
    put_number(out, 32, t.replies.not_greater);
}
