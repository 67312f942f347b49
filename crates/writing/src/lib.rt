// The lines of a network that stands in its row: the header, a line a gate, the end. Each is written into a lent row from its
// start. A row too short for the line answers 10 and is left as it was. Casts narrow numbers that are proved to fit: `try_from`
// would add an error that never is.
#![tactic(auto)]

ghost use Rattle.std.specs.Prelude.{◌<◌};
ghost use Rattle.frames.specs.Digits.{spell_line};
ghost use Rattle.frames.specs.Put.{LineWritten, line_at};
ghost use Rattle.texts.specs.Spelling.{header_bytes, end_bytes};
ghost use Rattle.rows.specs.Spelling.{gate_line, row_lines};
ghost use Rattle.writing.specs.Promises.{RowWritten};

use frames::put::{feed, put, put_line, put_words};
use frames::{Kind, Refusal};
use rows::Header;
use rows::network::Network;

// The header's line [F3]: the digits of seven bytes, and the line feed.
fn spell_header(capacity: u32, hop: u16, out: &mut [u8]) -> Result<usize, Refusal>
    ensures { LineWritten (spell_line (header_bytes capacity hop)) out.old result out.new }
{
    let [a, b, c, d] = capacity.to_be_bytes();
    let [e, f] = hop.to_be_bytes();
    put_line(out, &[Kind::Header as u8, a, b, c, d, e, f])
}

// The end's line [F5].
fn spell_end(gates: u16, out: &mut [u8]) -> Result<usize, Refusal>
    ensures { LineWritten (spell_line (end_bytes gates)) out.old result out.new }
{
    let [high, low] = gates.to_be_bytes();
    put_line(out, &[Kind::End as u8, high, low])
}

// A gate's line [F4].
// Part by part: `put_line` takes all bytes in one row, and their number varies here.
fn spell_gate(network: &Network, gate: usize, out: &mut [u8]) -> Result<usize, Refusal>
    requires { gate < network.now.header.gates }
    ensures { LineWritten (gate_line network.now.row.now gate) out.old result out.new }
{
    let row = network.row;
    let fan_ins = rows::fan_ins(row, gate);
    let count = fan_ins.len();
    if out.len() < 13 + 4 * count {
        return Err(Refusal::no_room());
    }
    let weight = rows::weight(row, gate).weight_place();
    let delay = rows::delay(row, gate).delay_place();
    let at = put(out, 0, &[Kind::Gate as u8]);
    let at = put(out, at, &weight.to_be_bytes());
    let at = put(out, at, &delay.to_be_bytes());
    let at = put(out, at, &[count as u8]);
    let at = put_words(out, at, fan_ins);
    feed(out, at)
}

// The line of that index, counted from 0; past the last line nothing.
fn spell_line(index: usize, network: &Network, out: &mut [u8]) -> Result<usize, Refusal>
    ensures { LineWritten (line_at index (row_lines network.now.header network.now.row.now)) out.old result out.new }
{
    let header = network.header;
    if index == 0 {
        let capacity = header.capacity.capacity_place();
        return spell_header(capacity, header.hop.delay_place(), out);
    }
    let gate = index - 1;
    if gate < header.gates {
        return spell_gate(network, gate, out);
    }
    if gate == header.gates {
        return spell_end(header.gates as u16, out);
    }
    Ok(0)
}

// The line of that index, counted from 0, of the text that the header and the row spell: the header, a line a gate, the end;
// past the last line nothing. What refuses that text is answered before anything is written.
// Whatever form hands a refusal of the check on, the two lemmas say what it has to leave.
#[tactic(auto, using(crate::proofs::WrittenLines::told_answer, crate::proofs::WrittenLines::told_row))]
pub fn write_line(
    index: usize,
    header: Header,
    row: &[u16],
    out: &mut [u8],
) -> Result<usize, Refusal>
    ensures { RowWritten index header row.now out.old result out.new }
{
    let network = Network::find(header, row)?;
    spell_line(index, &network, out)
}
