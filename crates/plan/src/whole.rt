// The whole of a plan, and the part of a net that is as in a plan.
ghost use Rattle.std.specs.Prelude.{◌≡◌, ◌≤◌, length};
ghost use Rattle.layout.specs.Layout.{plan_length};
ghost use Rattle.plan.specs.Planned.{of_version1, planned, plan_shaped};

use layout::front::Front;
use layout::offset::PLAN_LENGTH;

// What a plan and a net have in common.
pub fn planned(front: &Front, size: u32, byte7: u8) -> bool
    ensures { result ≡ planned front.now.bytes.now (of_version1 size byte7) }
{
    if crate::groups::header_shaped(front, size, byte7) {
        let n = usize::from(front.stations());
        let g = usize::from(front.groups());
        crate::groups::groups_shaped(front, n, g)
            & crate::groups::names_distinct(front, g)
            & crate::cables::cables_shaped(front, n)
    } else {
        false
    }
}

// Whether the bytes are a well-shaped plan.
pub fn plan_shaped(s: &[u8]) -> bool
    ensures { result ≡ plan_shaped s.now }
{
    s.len() == PLAN_LENGTH && planned(&Front { bytes: s }, PLAN_LENGTH as u32, 0)
}
