// A ring as it is written.
ghost use Rattle.std.specs.Prelude.{◌≡◌, ◌<◌, ◌≤◌, length, take, drop, All};
ghost use Rattle.lags.specs.Solved.{at};
ghost use Rattle.lags.specs.Traced.{Turned};

// Where the lowest number stands.
fn lowest(nodes: &[u16]) -> usize
    requires { 0 < length nodes.now }
    ensures within { result < length nodes.now }
    ensures least { All (λ x. at nodes.now result ≤ x) nodes.now }
{
    let (place, _) = nodes
        .iter()
        .enumerate()
        .min_by_key(|(_, node)| **node)
        .unwrap();
    place
}

// Writes the nodes to the front of the page in the opposite order, going round from the lowest.
pub(crate) fn write_from_lowest(nodes: &[u16], page: &mut [u16])
    requires some { 0 < length nodes.now }
    requires room { length nodes.now ≤ length page.old }
    ensures turned { Turned nodes.now (take (length nodes.now) page.new) }
    ensures stands { drop (length nodes.now) page.new ≡ drop (length nodes.now) page.old }
{
    let front = &mut page[..nodes.len()];
    front.copy_from_slice(nodes);
    front.reverse();
    let low = lowest(front);
    front.rotate_left(low);
}
