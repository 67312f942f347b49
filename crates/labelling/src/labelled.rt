// A network with a row of labels: what asks for many clusters looks at the two once.
ghost use Rattle.std.specs.Prelude.{◌≤◌, ◌<◌, length};

use crate::members;
use frames::Refusal;
use rows::network::Network;

// A network, and a row of labels, any numbers, with a place for each of its gates.
#[derive(Clone, Copy)]
pub struct Labelled<'a> {
    pub network: Network<'a>,
    pub labels: &'a [u32],
    pub ghost enough: { network.header.gates ≤ length labels.now },
}

impl<'a> Labelled<'a> {
    ghost use Rattle.model.specs.Drawing.{members as members_of};
    ghost use Rattle.rows.specs.Found.{network_of};
    ghost use Rattle.labelling.specs.WithLabels.{WithLabels};
    ghost use Rattle.labelling.specs.Promises.{Found};

    // The network with the row of labels, or 10 where the row has fewer places than there are gates.
    pub fn new(network: Network<'a>, labels: &'a [u32]) -> Result<Labelled<'a>, Refusal>
        ensures { WithLabels network.entry labels.now result }
    {
        if labels.len() < network.header.gates {
            return Err(Refusal::no_room());
        }
        Ok(Labelled { network, labels })
    }

    // The members of the cluster of `root`, rising, written into the row `members`, which is lent: nothing here allocates. How many.
    pub fn members_of(&self, root: usize, members: &mut [u16]) -> usize
        requires known { root < self.now.network.header.gates }
        requires room { self.now.network.header.gates ≤ length members.old }
        ensures { Found (members_of (network_of self.now.network) self.now.labels.now root) members.old result members.new }
    {
        members::cluster_of(self, root, members)
    }
}
