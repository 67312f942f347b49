// The result, a line at a time: 11, a 12 for each gate, a 13 for each drawn cluster, 1F; or the one 1E of a refusal. Each
// line is written into a lent row from its start. A row too short for the line answers 10 and is left as it was. Casts narrow numbers
// that are proved to fit: `try_from` would add an error that never is.
ghost use Rattle.std.specs.Prelude.{◌≤◌, ◌<◌, ◌^◌, length};
ghost use Rattle.model.specs.Drawing.{members as members_in};
ghost use Rattle.units.specs.Units.{label_place};
ghost use Rattle.frames.specs.Digits.{spell_line};
ghost use Rattle.frames.specs.Put.{LineWritten, line_at};
ghost use Rattle.rows.specs.Found.{network_of};
ghost use Rattle.rows.specs.Spelling.{row_answer};
ghost use Rattle.selection.specs.Selection.{roots};
ghost use Rattle.results.specs.Result.{result_bytes, label_bytes, cluster_bytes, result_end_bytes, refusal_bytes};
ghost use Rattle.results.specs.Line.{told_line, LineAnswered};
ghost use Rattle.results.specs.steps.Line.{later_lines};

use crate::marked::Marked;
use frames::put::{feed, put, put_line, put_words};
use frames::{Kind, Refusal};
use labelling::labelled::Labelled;
use rows::Header;
use selection::{count_marked, nth_marked, output_delay};
use units::{GateNumber, Ticks};

// The first line: the output delay and how many clusters are drawn [F6].
fn result_line(delay: Ticks, clusters: u16, out: &mut [u8]) -> Result<usize, Refusal>
    ensures { LineWritten (spell_line (result_bytes (label_place delay) clusters)) out.old result out.new }
{
    let [a, b, c, d] = delay.label_place().to_be_bytes();
    let [e, f] = clusters.to_be_bytes();
    put_line(out, &[Kind::Result as u8, a, b, c, d, e, f])
}

// A gate and its label [F7].
fn label_line(gate: u16, label: u32, out: &mut [u8]) -> Result<usize, Refusal>
    ensures { LineWritten (spell_line (label_bytes gate label)) out.old result out.new }
{
    let [a, b] = gate.to_be_bytes();
    let [c, d, e, f] = label.to_be_bytes();
    put_line(out, &[Kind::Label as u8, a, b, c, d, e, f])
}

// A root, how many members its cluster has, and they [F8].
// Part by part: `put_line` takes all bytes in one row, and their number varies here.
fn cluster_line(root: u16, members: &[u16], out: &mut [u8]) -> Result<usize, Refusal>
    requires { length members.now < 2 ^ 16 }
    ensures { LineWritten (spell_line (cluster_bytes root members.now)) out.old result out.new }
{
    if out.len() < 11 + 4 * members.len() {
        return Err(Refusal::no_room());
    }
    let at = put(out, 0, &[Kind::Cluster as u8]);
    let at = put(out, at, &root.to_be_bytes());
    let at = put(out, at, &(members.len() as u16).to_be_bytes());
    let at = put_words(out, at, members);
    feed(out, at)
}

// The last line: how many gates there are [F9].
fn end_line(gates: u16, out: &mut [u8]) -> Result<usize, Refusal>
    ensures { LineWritten (spell_line (result_end_bytes gates)) out.old result out.new }
{
    let [high, low] = gates.to_be_bytes();
    put_line(out, &[Kind::ResultEnd as u8, high, low])
}

// A refusal's line [F10]. No text has a line or a column that two bytes do not hold; of a number that they do not hold the two
// lowest bytes are written.
pub fn refusal_line(refusal: Refusal, out: &mut [u8]) -> Result<usize, Refusal>
    ensures { LineWritten (spell_line (refusal_bytes refusal)) out.old result out.new }
{
    let [a, b] = ((refusal.line % 65_536) as u16).to_be_bytes();
    let [c, d] = ((refusal.column % 65_536) as u16).to_be_bytes();
    put_line(out, &[Kind::Refusal as u8, refusal.number, a, b, c, d])
}

// The 13 of a root: its cluster's members, rising.
fn member_line(labelled: &Labelled, root: usize, out: &mut [u8]) -> Result<usize, Refusal>
    requires { root < labelled.now.network.header.gates }
    ensures { LineWritten
        (spell_line (cluster_bytes root (members_in (network_of labelled.now.network) labelled.now.labels.now root)))
        out.old result out.new }
{
    let mut members = [0; GateNumber::MOST_GATES];
    let count = labelled.members_of(root, &mut members);
    cluster_line(root as u16, &members[..count], out)
}

// The line of that index behind the labels: a 13 for each root by rising root, and 1F; past it nothing.
fn later_line(index: usize, drawn: &Marked, out: &mut [u8]) -> Result<usize, Refusal>
    ensures { LineWritten
        (line_at index
        (later_lines (network_of drawn.now.labelled.network) drawn.now.labelled.labels.now
        (roots drawn.now.marks.now drawn.now.labelled.network.header.gates)))
        out.old result out.new }
{
    let gates = drawn.labelled.network.header.gates;
    let clusters = count_marked(gates, drawn.marks);
    if index < clusters {
        let root = nth_marked(gates, drawn.marks, index);
        return member_line(&drawn.labelled, root, out);
    }
    if index == clusters {
        return end_line(gates as u16, out);
    }
    Ok(0)
}

// The line of that index of a network that is known to stand in its row, with its labels and marks.
pub(crate) fn known_line(index: usize, drawn: &Marked, out: &mut [u8]) -> Result<usize, Refusal>
    ensures { LineWritten
        (told_line index (network_of drawn.now.labelled.network) drawn.now.labelled.labels.now drawn.now.marks.now)
        out.old result out.new }
{
    let labels = drawn.labelled.labels;
    let gates = drawn.labelled.network.header.gates;
    if index == 0 {
        let delay = output_delay(&drawn.labelled);
        let clusters = count_marked(gates, drawn.marks);
        return result_line(delay, clusters as u16, out);
    }
    let gate = index - 1;
    if gate < gates {
        return label_line(gate as u16, labels[gate], out);
    }
    later_line(gate - gates, drawn, out)
}

// The line of that index, counted from 0, of the result of the network that stands in the row, from its labels and the
// marks of its roots [F12]; past the last line nothing [R6]. A header and a row that spell a refused text answer that refusal; a
// row of labels or marks with fewer places than gates, or less room than the line needs, answers 10.
pub fn line(
    index: usize,
    header: Header,
    row: &[u16],
    labels: &[u32],
    marks: &[u8],
    out: &mut [u8],
) -> Result<usize, Refusal>
    ensures { LineAnswered index (row_answer header row.now) labels.now marks.now out.old result out.new }
{
    let drawn = Marked::find(header, row, labels, marks)?;
    known_line(index, &drawn, out)
}
