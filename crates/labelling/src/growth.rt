// Growth of a cluster: the gates of the cone join by pull, up to the first one that would overfill it.
ghost use Rattle.std.specs.Prelude.{◌≡◌, ◌≤◌, ◌<◌, length, take, drop};
ghost use mathlib.Core.List.{head?};
ghost use Rattle.model.specs.Ceilings.{most_gates};
ghost use Rattle.model.specs.Network.{weight};
ghost use Rattle.model.specs.Label.{grow};
ghost use Rattle.rows.specs.Found.{network_of};
ghost use Rattle.labelling.specs.steps.Standing.{Below};
ghost use Rattle.labelling.specs.steps.Growing.{stop_of, or_input, input_pulls, GrowsBelow, Grew};

use crate::labelled::Labelled;
use crate::order::in_order;
use crate::own::Work;
use rows::network::Network;
use units::{PerGate, Ticks};

// What growth comes to: how many gates of the ordered row joined, the gate that stopped it, if one did, and the largest pull of
// an input among those that joined, 0 if there is none [L5].
#[derive(Clone, Copy)]
pub(crate) struct Grown {
    pub(crate) joined: usize,
    pub(crate) stop: Option<usize>,
    pub(crate) inputs: Ticks,
}

// The larger of a time and the pull of u, if u is a primary input.
fn or_input(network: &Network, pulls: &PerGate<u64>, time: Ticks, u: usize) -> Ticks
    requires { u < network.now.header.gates }
    ensures { result.0 ≡ or_input network.now.row.now pulls.now time.0 u }
{
    if rows::is_input(network.row, u) {
        time.larger(Ticks(pulls[u]))
    } else {
        time
    }
}

// The cluster is v and those that join it in the order, up to the first that would overfill it [L4].
fn walk(network: &Network, v: usize, pulls: &PerGate<u64>, ordered: &[usize]) -> Grown
    requires known { v < network.now.header.gates }
    requires gates { (length ordered.now < most_gates) × Below v ordered.now }
    ensures stop { (result.joined ≤ length ordered.now) × (stop_of result.stop ≡ head? (drop result.joined ordered.now)) }
    ensures grown { grow (network_of network.now) (weight (network_of network.now) v) ordered.now
        ≡ record { joined = take result.joined ordered.now; stop = stop_of result.stop } }
    ensures inputs { result.inputs.0 ≡ input_pulls network.now.row.now pulls.now (take result.joined ordered.now) }
{
    let mut sum = rows::weight(network.row, v);
    let mut inputs = Ticks(0);
    // How many joined is a part of the answer; the break tells what stopped them.
    let mut joined = 0;
    let stop = 'grow: loop {
        for &u in ordered {
            sum = sum.plus(rows::weight(network.row, u));
            if !sum.within(network.header.capacity) {
                break 'grow Some(u);
            }
            inputs = or_input(network, pulls, inputs, u);
            joined += 1;
        }
        break 'grow None;
    };
    Grown {
        joined,
        stop,
        inputs,
    }
}

// The growth of the cluster of v, from the labels of the gates below it.
pub(crate) fn grow(labelled: &Labelled, v: usize, work: &mut Work) -> Grown
    requires { v < labelled.now.network.header.gates }
    ensures grows_below { GrowsBelow v work.new.ordered result }
    ensures grew { Grew (network_of labelled.now.network) labelled.now.labels.now v work.new.pulls work.new.ordered result }
{
    let count = in_order(labelled, v, work);
    walk(&labelled.network, v, &work.pulls, &work.ordered[..count])
}
