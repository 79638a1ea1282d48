// A sheet in its yard.
ghost use Rattle.std.specs.Prelude.{◌≡◌};
ghost use Rattle.explain.specs.Lists.{lists_of};

use crate::records::Records;
use lane_yard::yards::LaneYard;
use session::sessions::Session;

// A sheet's records, and the yard that its carriers drive in.
#[derive(Drop)]
pub(crate) struct Site<'a> {
    pub records: Records<'a>,
    pub yard: &'a LaneYard,
}

impl<'a> Site<'a> {
    // Those of this session.
    pub(crate) fn of(session: &'a Session) -> Site<'a>
        ensures sheet { result.records ≡ lists_of session.now.sheet }
        ensures yard { result.yard.now ≡ session.now.yard }
    {
        Site {
            records: Records::of(session.sheet()),
            yard: session.yard(),
        }
    }
}
