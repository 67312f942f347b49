// Which clusters are drawn: those of the primary outputs, and with each cluster those of its inputs. A drawn cluster's root
// has a mark in a row with a place for each gate, 1 for drawn and 0 for not: numbers, as the rules and the model have them.
//
// The marks are written, and a struct with them would have to be taken apart at each write, so that each contract says that they
// have a place a gate.
#![tactic(auto)]

ghost use Rattle.std.specs.Prelude.{◌≡◌, ◌^◌, ◌≤◌, ◌<◌, length, get_or, replicate};
ghost use Rattle.model.specs.Basics.{upto};
ghost use Rattle.model.specs.Ceilings.{most_gates};
ghost use Rattle.model.specs.Drawing.{mark, inputs, select, marks as marks_of};
ghost use Rattle.texts.specs.Reading.{network as a_network};
ghost use Rattle.rows.specs.Found.{network_of};
ghost use Rattle.rows.specs.Spelling.{row_answer};
ghost use Rattle.labelling.specs.steps.Standing.{Below};
ghost use Rattle.selection.specs.Selection.{delay_from, roots, DrawingAnswered};
ghost use Rattle.selection.specs.steps.Marking.{fanins_of, unmarked, unread, largest_label, outside};

use frames::Refusal;
use labelling::labelled::Labelled;
use rows::Header;
use rows::network::Network;
use units::{GateNumber, PerGate, Ticks};

// What is drawn: how many clusters, whose roots the row marks, and the output delay.
#[derive(Clone, Copy)]
pub struct Drawn {
    pub clusters: usize,
    pub delay: Ticks,
}

// A mark for each gate of a list. Labelling's own has gates of another width; one function for both would have to promise by their
// conversion. The casts of gates widen, and each bound would have to be told what a `From` gave.
fn mark(row: &mut PerGate<u8>, gates: &[u16])
    requires { Below most_gates gates.now }
    ensures { row.new ≡ mark row.old gates.now }
{
    for &gate in gates {
        row[gate as usize] = 1;
    }
}

// A mark for each gate that some gate reads.
fn reads(network: &Network) -> PerGate<u8>
    ensures { result ≡ mark (replicate most_gates 0) (fanins_of network.now.row.now (upto network.now.header.gates)) }
{
    let mut read = [0; GateNumber::MOST_GATES];
    for v in 0..network.header.gates {
        mark(&mut read, rows::fan_ins(network.row, v));
    }
    read
}

// A label as a time.
fn time(label: u32) -> Ticks
    ensures { (result.0 ≡ label) × (result.0 < 2 ^ 32) }
{
    Ticks(u64::from(label))
}

// The largest label of a gate without a mark.
fn largest_unmarked(row: &PerGate<u8>, labelled: &Labelled) -> Ticks
    ensures small { result.0 < 2 ^ 32 }
    ensures largest { result.0 ≡ largest_label labelled.now.labels.now (unmarked row.now labelled.now.network.header.gates) }
{
    let labels = &labelled.labels[..labelled.network.header.gates];
    let mut largest = Ticks(0);
    for (&mark, &label) in row.iter().zip(labels) {
        if mark == 0 {
            largest = largest.larger(time(label));
        }
    }
    largest
}

// The largest label of a primary output [S5].
pub fn output_delay(labelled: &Labelled) -> Ticks
    ensures small { result.0 < 2 ^ 32 }
    ensures delay { result.0 ≡ delay_from (network_of labelled.now.network) labelled.now.labels.now }
{
    largest_unmarked(&reads(&labelled.network), labelled)
}

// A mark for each gate that has none in the other row, and for no other.
fn mark_unmarked(row: &PerGate<u8>, marks: &mut [u8])
    requires { length marks.old ≤ most_gates }
    ensures { marks.new
        ≡ mark (replicate (length marks.old) 0) (unmarked row.now (length marks.old)) }
{
    for (v, mark) in marks.iter_mut().enumerate() {
        *mark = u8::from(row[v] == 0);
    }
}

// A mark for each primary output [S1], and for no other gate.
fn mark_outputs(network: &Network, marks: &mut [u8])
    requires { length marks.old ≡ network.now.header.gates }
    ensures { marks.new ≡ mark (replicate network.now.header.gates 0) (unread network.now.row.now network.now.header.gates) }
{
    mark_unmarked(&reads(network), marks);
}

// A mark for each gate of a list that lies outside.
fn mark_outside(marks: &mut [u8], inside: &PerGate<u8>, gates: &[u16])
    requires { Below (length marks.old) gates.now × (length marks.old ≤ most_gates) }
    ensures { marks.new ≡ mark marks.old (outside inside.now gates.now) }
{
    for &gate in gates {
        let x = gate as usize;
        if inside[x] == 0 {
            marks[x] = 1;
        }
    }
}

// A mark for each input of a cluster [S2]: what a member reads and the cluster does not have.
fn mark_inputs(marks: &mut [u8], inside: &PerGate<u8>, network: &Network, members: &[u16])
    requires { (length marks.old ≡ network.now.header.gates) × Below network.now.header.gates members.now }
    ensures { marks.new ≡ mark marks.old (outside inside.now (fanins_of network.now.row.now members.now)) }
{
    for &member in members {
        mark_outside(marks, inside, rows::fan_ins(network.row, member as usize));
    }
}

// How many of so many gates have a mark. A gate past the row's end has none.
pub fn count_marked(gates: usize, marks: &[u8]) -> usize
    ensures { result ≡ length (roots marks.now gates) }
{
    // No chain: what is counted is asked for once a line, and filtered marks took more than twice as many steps.
    let mut count = 0;
    for &mark in &marks[..gates.min(marks.len())] {
        if mark != 0 {
            count += 1;
        }
    }
    count
}

// The marked gate of that index, counted from 0, of so many gates; where there are not so many marks, the number of gates (no `None`: the
// promise fixes it).
pub fn nth_marked(gates: usize, marks: &[u8], index: usize) -> usize
    ensures { result ≡ get_or (roots marks.now gates) index gates }
{
    // No chain here either.
    let mut left = index;
    for (root, &mark) in marks[..gates.min(marks.len())].iter().enumerate() {
        if mark != 0 {
            if left == 0 {
                return root;
            }
            left -= 1;
        }
    }
    gates
}

// The inputs of a root's cluster marked.
fn draw_inputs(labelled: &Labelled, root: usize, marks: &mut [u8])
    requires { (root < labelled.now.network.header.gates) × (length marks.old ≡ labelled.now.network.header.gates) }
    ensures { marks.new ≡ mark marks.old (inputs (network_of labelled.now.network) labelled.now.labels.now root) }
{
    let mut room = [0; GateNumber::MOST_GATES];
    let count = labelled.members_of(root, &mut room);
    let members = &room[..count];
    let mut inside = [0; GateNumber::MOST_GATES];
    mark(&mut inside, members);
    mark_inputs(marks, &inside, &labelled.network, members);
}

// With each marked root a mark for the inputs of its cluster [S2]: from the last gate to the first, since these stand below it.
fn sweep(labelled: &Labelled, marks: &mut [u8])
    requires { length marks.old ≡ labelled.now.network.header.gates }
    ensures { marks.new
        ≡ select (network_of labelled.now.network) labelled.now.labels.now labelled.now.network.header.gates marks.old }
{
    let gates = labelled.network.header.gates;
    for root in (0..gates).rev() {
        if marks[root] != 0 {
            draw_inputs(labelled, root, marks);
        }
    }
}

// The marks of the drawn clusters, in a row with a place for each gate and no more.
fn select(labelled: &Labelled, marks: &mut [u8])
    requires { length marks.old ≡ labelled.now.network.header.gates }
    ensures { marks.new ≡ marks_of (network_of labelled.now.network) labelled.now.labels.now }
{
    mark_outputs(&labelled.network, marks);
    sweep(labelled, marks);
}

// Selection of a network with labels, which stand already.
fn draw_known(labelled: &Labelled, marks: &mut [u8]) -> Result<Drawn, Refusal>
    ensures { DrawingAnswered (a_network (network_of labelled.now.network)) labelled.now.labels.now marks.old result marks.new }
{
    let gates = labelled.network.header.gates;
    if marks.len() < gates {
        return Err(Refusal::no_room());
    }
    select(labelled, &mut marks[..gates]);
    Ok(Drawn {
        clusters: count_marked(gates, marks),
        delay: output_delay(labelled),
    })
}

// The drawn clusters of the network that stands in the row, from its labels: a mark for each root in front of the lent row. A
// header and a row that spell a refused text answer that refusal; a row of labels or marks with fewer places than gates
// answers 10.
pub fn draw(header: Header, row: &[u16], labels: &[u32], marks: &mut [u8]) -> Result<Drawn, Refusal>
    ensures { DrawingAnswered (row_answer header row.now) labels.now marks.old result marks.new }
{
    let network = Network::find(header, row)?;
    let labelled = Labelled::new(network, labels)?;
    draw_known(&labelled, marks)
}
