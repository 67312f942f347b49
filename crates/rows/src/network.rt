// A network that is known to stand in its row: `find` looks at a header and a row once, and what takes a `Network` need not look
// again.
ghost use Rattle.rows.specs.steps.Holds.{Holds};

use crate::Header;
use frames::Refusal;

// A header within the ceilings, and a row in which its network stands. Where anyone may hand them over they come apart, as C lends
// them. That a number is one of its gates each contract says: a type for it would hold the network again.
#[derive(Clone, Copy)]
pub struct Network<'a> {
    pub header: Header,
    pub row: &'a [u16],
    pub ghost holds: { Holds header row.now },
}

impl<'a> Network<'a> {
    ghost use Rattle.rows.specs.Found.{NetworkFound};

    // The network of a header and a row that were handed over, or what refuses them, as `check` answers.
    pub fn find(header: Header, row: &'a [u16]) -> Result<Network<'a>, Refusal>
        ensures { NetworkFound header row.now result }
    {
        let header = crate::check(header, row)?;
        Ok(Network { header, row })
    }
}
