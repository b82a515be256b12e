// A group put in order: the second stone lies to the left of the line from the first to the third.
ghost use Rattle.std.specs.Prelude.{◌≡◌};
ghost use Rattle.groups.specs.Group.{Centred};
ghost use Rattle.groups.specs.Orient.{oriented};

use crate::sides::{reversed, side_of};
use crate::{CapStoneGroup, Oriented};
use corners::line_from;

// The group, with its first and third stones swapped where the second lies to the right of the line from one to the other. h0 stays the centre of the stone that came first.
pub fn orient(group: CapStoneGroup) -> Oriented
    requires { Centred group }
    ensures { result ≡ oriented group }
{
    let first = group.first;
    let second = group.second;
    let third = group.third;
    let h0 = first.center;
    let h2 = third.center;
    let hd = line_from(h0, h2);
    if side_of(h0, hd, second.center) > 0 {
        let swapped = CapStoneGroup {
            first: third,
            second: second,
            third: first,
        };
        let back = reversed(hd);
        return Oriented {
            group: swapped,
            h0: h0,
            hd: back,
        };
    }
    Oriented {
        group: group,
        h0: h0,
        hd: hd,
    }
}
