// The members of one root's cluster, from a row of labels: the same growth as for its label.
ghost use Rattle.std.specs.Prelude.{◌≡◌, cond, ◌+◌, ◌≤◌, ◌<◌, length, set};
ghost use Rattle.model.specs.Ceilings.{most_gates};
ghost use Rattle.model.specs.Label.{cluster};
ghost use Rattle.model.specs.Drawing.{mark, members as members_of};
ghost use Rattle.rows.specs.Found.{network_of};
ghost use Rattle.labelling.specs.Promises.{Found};
ghost use Rattle.labelling.specs.steps.Standing.{Below};
ghost use Rattle.labelling.specs.steps.Members.{marked, marked_below};

use crate::growth::grow;
use crate::labelled::Labelled;
use crate::own::Work;
use units::{GateNumber, PerGate};

// A mark for each gate that joined: 1 and no `bool`, since the model's `mark` puts numbers.
fn mark(inside: &mut PerGate<u8>, gates: &[usize])
    requires { Below most_gates gates.now }
    ensures { inside.new ≡ mark inside.old gates.now }
{
    for &u in gates {
        inside[u] = 1;
    }
}

// A mark for each gate in the cluster of r. An input is alone in its cluster [L1].
fn mark_cluster(labelled: &Labelled, r: usize, inside: &mut PerGate<u8>)
    requires { r < labelled.now.network.header.gates }
    ensures { inside.new ≡ mark inside.old (cluster (network_of labelled.now.network) labelled.now.labels.now r) }
{
    inside[r] = 1;
    if rows::is_input(labelled.network.row, r) {
        return;
    }
    let mut work = Work::new();
    let grown = grow(labelled, r, &mut work);
    mark(inside, &work.ordered[..grown.joined]);
}

// The gates that have a mark, rising. How many.
fn collect(inside: &[u8], members: &mut [u16]) -> usize
    requires { (length inside.now ≤ most_gates) × (length inside.now ≤ length members.old) }
    ensures { Found (marked_below inside.now (length inside.now)) members.old result members.new }
{
    let mut count = 0;
    for (x, &mark) in inside.iter().enumerate() {
        if mark != 0 {
            members[count] = x as u16; // proved to fit: `try_from` would add an error that never is
            count += 1;
        }
    }
    count
}

// The members of the cluster of r, rising. How many.
pub(crate) fn cluster_of(labelled: &Labelled, r: usize, members: &mut [u16]) -> usize
    requires { (r < labelled.now.network.header.gates) × (r < length members.old) }
    ensures { Found (members_of (network_of labelled.now.network) labelled.now.labels.now r) members.old result members.new }
{
    let mut inside = [0; GateNumber::MOST_GATES];
    mark_cluster(labelled, r, &mut inside);
    let reached = &inside[..=r];
    collect(reached, members)
}
