// Labels: of one gate from the labels below it, and of all gates.
ghost use Rattle.std.specs.Prelude.{◌≡◌, ◌++◌, ◌≤◌, ◌<◌, length, drop, IfSome};
ghost use Rattle.model.specs.Ceilings.{most_gates};
ghost use Rattle.model.specs.Label.{label_from, labels as labels_of};
ghost use Rattle.units.specs.Units.{held_sum};
ghost use Rattle.rows.specs.Found.{network_of};
ghost use Rattle.labelling.specs.steps.Standing.{pull_in};
ghost use Rattle.labelling.specs.steps.Growing.{stop_of, stop_pull};

use crate::growth::grow;
use crate::labelled::Labelled;
use crate::own::Work;
use rows::network::Network;
use units::{PerGate, Ticks};

// The pull of a gate that stays outside, plus D: an input's crossing costs its hop like any other.
fn outside_pull(hop: Ticks, pulls: &PerGate<u64>, u: usize) -> Ticks
    requires { u < most_gates }
    ensures { result.0 ≡ held_sum (pull_in pulls.now u) hop.0 }
{
    Ticks(pulls[u]).plus(hop)
}

// What the gate that stopped growth counts for: its pull and D, 0 if none did [L5].
fn stop_pull(hop: Ticks, pulls: &PerGate<u64>, stop: Option<usize>) -> Ticks
    requires { IfSome stop (λ s. s < most_gates) }
    ensures { result.0 ≡ stop_pull hop.0 pulls.now (stop_of stop) }
{
    match stop {
        Some(u) => outside_pull(hop, pulls, u),
        None => Ticks(0),
    }
}

// The label of v, from the labels of the gates below it.
fn label_one(labelled: &Labelled, v: usize, work: &mut Work) -> Ticks
    requires { v < labelled.now.network.header.gates }
    ensures { result.0 ≡ label_from (network_of labelled.now.network) labelled.now.labels.now v }
{
    let network = &labelled.network;
    if rows::is_input(network.row, v) {
        return rows::delay(network.row, v);
    }
    let grown = grow(labelled, v, work);
    let stopped = stop_pull(network.header.hop, &work.pulls, grown.stop);
    grown.inputs.larger(stopped)
}

// The label of every gate, in the order of the gates.
pub(crate) fn label_all(network: Network, labels: &mut [u32])
    requires { network.header.gates ≤ length labels.old }
    ensures { labels.new ≡ labels_of (network_of network.entry) ++ drop network.entry.header.gates labels.old }
{
    let mut work = Work::new();
    for v in 0..network.header.gates {
        let label = label_one(&Labelled { network, labels }, v, &mut work);
        labels[v] = label.label_place();
    }
}
