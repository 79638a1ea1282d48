// The search for a lane.
ghost use Rattle.std.specs.Prelude.{◌≡◌, ◌≤◌, length};
ghost use Rattle.lane_yard.specs.Records.{Rising, time_of};

use crate::checks::is_before;
use crate::lane::Lane;

// So few lanes are looked at one by one.
const FEW: usize = 8;

// A few of the rising lanes, among which is the lane between the two places if it is among all of them.
// By hand: the library's search, which goes by halves to the last lane, misses the bar of speed that this one meets.
pub(crate) fn narrow(lanes: &[Lane], places: (u16, u16)) -> &[Lane]
    requires { Rising lanes.now }
    ensures same { time_of result.now places.0 places.1 ≡ time_of lanes.now places.0 places.1 }
    ensures few { length result.now ≤ 8 }
{
    let (from, to) = places;
    // The time does not count in the order.
    let wanted = Lane { from, to, time: 0 };
    let mut part = lanes;
    while part.len() > FEW {
        let (low, high) = part.split_at(part.len() / 2);
        part = if is_before(&wanted, &high[0]) {
            low
        } else {
            high
        };
    }
    part
}
