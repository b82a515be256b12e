// A group turned, stone by stone.
ghost use Rattle.std.specs.Prelude.{◌≡◌};
ghost use Rattle.groups.specs.Rotate.{meaning, Turnable, rotated_group};

use crate::turning::rotate_capstone;
use crate::{CapStoneGroup, Oriented};

// Each stone of the group turned by the group's line; none where one of them is flat then (15).
pub fn rotate_group(o: Oriented) -> Option<CapStoneGroup>
    requires { Turnable o }
    ensures { meaning result ≡ rotated_group o }
{
    let group = o.group;
    let last = group.third;
    let h0 = o.h0;
    let hd = o.hd;
    let first = rotate_capstone(group.first, h0, hd)?;
    let second = rotate_capstone(group.second, h0, hd)?;
    let third = rotate_capstone(last, h0, hd)?;
    Some(CapStoneGroup {
        first: first,
        second: second,
        third: third,
    })
}
