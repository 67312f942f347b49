// Onward delays to one gate, in a row with an entry for each gate: 0 where no path is known, otherwise one tick more than
// the largest sum of delays on a path. From the gate downward each gate passes its entry on to its fan-ins, so that an
// entry is final when its gate is reached. The model's rows are coded so, with no `None`.
ghost use Rattle.std.specs.Prelude.{◌≡◌, ◌<◌, ◌^◌, get_or};
ghost use Rattle.model.specs.Ceilings.{most_gates};
ghost use Rattle.model.specs.Onward.{raise, visit};
ghost use Rattle.rows.specs.Found.{network_of};
ghost use Rattle.labelling.specs.steps.Standing.{Below, Reached};

use rows::network::Network;
use units::{PerGate, Ticks};

// The entries of the fan-ins, each made at least `entry`.
fn raise(onward: &mut PerGate<u64>, entry: Ticks, fanins: &[u16])
    requires { Below most_gates fanins.now }
    ensures { onward.new ≡ raise onward.old entry.0 fanins.now }
{
    for &x in fanins {
        let x = usize::from(x);
        onward[x] = Ticks(onward[x]).larger(entry).0;
    }
}

// The gate y passes its own entry on to its fan-ins, if a path from it is known.
fn visit(onward: &mut PerGate<u64>, network: &Network, y: usize)
    requires { (y < network.now.header.gates) × (get_or onward.old y 0 < 2 ^ 63) }
    ensures { onward.new ≡ visit (network_of network.now) onward.old y }
{
    let here = onward[y];
    if here != 0 {
        let entry = Ticks(here).plus(rows::delay(network.row, y));
        raise(onward, entry, rows::fan_ins(network.row, y));
    }
}

// The onward delays to v: from v downward each gate passes its entry on.
pub(crate) fn reach(onward: &mut PerGate<u64>, network: &Network, v: usize)
    requires { v < network.now.header.gates }
    ensures { Reached (network_of network.now) v onward.new }
{
    let reached = v + 1;
    onward[..reached].fill(0);
    onward[v] = 1;
    for y in (0..reached).rev() {
        visit(onward, network, y);
    }
}
