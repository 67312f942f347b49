// A network in its row: a header by value, and a block of eleven 16-bit places for each gate. The accessors know where in a
// block each number stands; nothing above them does. `check` says what a header and a row handed over answer.
#![tactic(auto)]

ghost use Rattle.std.specs.Prelude.{◌≡◌, ◌&&◌, ◌+◌, ◌^◌, ◌<◌, get_or, leb, ltb};
ghost use Rattle.model.specs.Network.{empty};
ghost use Rattle.frames.specs.Refusal.{number_of, at_line};
ghost use Rattle.frames.specs.Table.{rising_from};
ghost use Rattle.rows.specs.Row.{places, too_short, block, weight_in, delay_in, count_in, fanins_in, gate_put, fanin_put};
ghost use Rattle.rows.specs.Read.{checked, refusal_in};
ghost use Rattle.rows.specs.steps.RowCheck.{
  settled,
  gate_length,
  too_long,
  gate_fault,
  first_fault,
  heavy_fault,
  first_heavy_fault,
  row_fault,
};

pub mod network;

use frames::{Cause, MOST_TEXT, Refusal};
use units::{Cells, FanInCount, GateNumber, Ticks};

// What is said once of a network: the capacity M, the hop delay D and the number of gates. M and D above their ceilings count
// as the ceilings.
#[derive(Clone, Copy)]
pub struct Header {
    pub capacity: Cells,
    pub hop: Ticks,
    pub gates: usize,
}

// The refusal of an answer that refuses; it is asked of no other, which has 10.
pub fn refusal(answer: Result<Header, Refusal>) -> Refusal
    ensures { result ≡ refusal_in answer }
{
    match answer {
        Ok(_) => Refusal::no_room(),
        Err(refusal) => refusal,
    }
}

// Where in its block a gate has its weight.
const WEIGHT: usize = 0;

// Where it has its delay.
const DELAY: usize = 1;

// Where it has its fan-in count.
const COUNT: usize = 2;

// Where it has the first of its fan-ins.
const FAN_INS: usize = 3;

// The places of a block.
pub const PLACES: usize = FAN_INS + FanInCount::MOST;

// 10: whether a row is too short for so many gates. Their elevenfold is not formed, since 64 bits may not hold it.
pub fn too_short(gates: usize, row: &[u16]) -> bool
    ensures { result ≡ too_short gates row.now }
{
    row.len() / PLACES < gates
}

// What stands at place k of the block of gate v; 0 where the row has no block for it.
fn place(row: &[u16], v: usize, k: usize) -> u16
    requires { k < places }
    ensures { result ≡ get_or (block row.now v) k 0 }
{
    if row.len() / PLACES <= v {
        0
    } else {
        row[PLACES * v + k]
    }
}

// The weight of gate v; 0 where the row has no block for it.
pub fn weight(row: &[u16], v: usize) -> Cells
    ensures { result.0 ≡ weight_in row.now v }
{
    Cells(u64::from(place(row, v, WEIGHT)))
}

// The delay of gate v; 0 where the row has no block for it.
pub fn delay(row: &[u16], v: usize) -> Ticks
    ensures { result.0 ≡ delay_in row.now v }
{
    Ticks(u64::from(place(row, v, DELAY)))
}

// The fan-in count of gate v, as its place has it; 0 where the row has no block for it.
fn count(row: &[u16], v: usize) -> usize
    ensures { result ≡ count_in row.now v }
{
    usize::from(place(row, v, COUNT))
}

// The fan-ins of gate v: no more than eight, and none where the row has no block for it.
pub fn fan_ins(row: &[u16], v: usize) -> &[u16]
    ensures { result.now ≡ fanins_in row.now v }
{
    if row.len() / PLACES <= v {
        return &row[..0];
    }
    let many = count(row, v).min(FanInCount::MOST);
    let from = PLACES * v + FAN_INS;
    &row[from..from + many]
}

// Whether gate v is a primary input: it has no fan-ins.
pub fn is_input(row: &[u16], v: usize) -> bool
    ensures { result ≡ empty (fanins_in row.now v) }
{
    count(row, v) == 0
}

// The weight, the delay and the fan-in count of gate v put into its block, with 0 for every fan-in. A row without the block
// stays as it is.
pub fn put_gate(row: &mut [u16], v: usize, weight: Cells, delay: Ticks, count: FanInCount)
    ensures { row.new ≡ gate_put v weight delay count row.old }
{
    if row.len() / PLACES <= v {
        return;
    }
    let from = PLACES * v;
    row[from + WEIGHT] = weight.weight_place();
    row[from + DELAY] = delay.delay_place();
    row[from + COUNT] = u16::from(count.count_place());
    row[from + FAN_INS..from + PLACES].fill(0);
}

// The i-th fan-in of gate v put into its block. A row without the block stays as it is, and so does a block without a place for it.
pub fn put_fan_in(row: &mut [u16], v: usize, i: usize, fanin: u16)
    ensures { row.new ≡ fanin_put v i fanin row.old }
{
    if row.len() / PLACES <= v || FanInCount::MOST <= i {
        return;
    }
    row[PLACES * v + FAN_INS + i] = fanin;
}

// The bytes of the two lines that every network has, its header's and its end's.
const OUTER_LINES: usize = 22;

// The bytes of a gate's line without its fan-ins.
const BARE_GATE: usize = 13;

// The bytes of a fan-in in its gate's line.
const FAN_IN: usize = 4;

// The line of gate 0: the header has the first.
const FIRST_GATE: usize = 2;

// The bytes of the line of gate v: no more than eight fan-ins are spelled.
fn gate_length(row: &[u16], v: usize) -> usize
    ensures { result ≡ gate_length row.now v }
{
    BARE_GATE + FAN_IN * fan_ins(row, v).len()
}

// 1: whether the spelled text is too long. Past the ceiling nothing more is added.
fn too_long(gates: usize, row: &[u16]) -> bool
    ensures { result ≡ too_long gates row.now }
{
    let mut bytes = OUTER_LINES;
    for v in 0..gates {
        bytes += gate_length(row, v);
        if MOST_TEXT < bytes {
            return true;
        }
    }
    false
}

// Whether a fan-in rises above those before it, and is below its gate.
fn in_place(fanin: usize, least: usize, gate: usize) -> bool
    ensures { result ≡ (leb least fanin && ltb fanin gate) }
{
    least <= fanin && fanin < gate
}

// 6: whether all fan-ins of a gate are in place. A text's are read four digits at a time in `frames`, before there is a row; one
// function for both would have to promise by what an iterator yields.
fn rising(fanins: &[u16], gate: usize) -> bool
    ensures { result ≡ rising_from 0 gate fanins.now }
{
    let mut least = 0;
    for &fanin in fanins {
        let fanin = usize::from(fanin);
        if !in_place(fanin, least, gate) {
            return false;
        }
        least = fanin + 1;
    }
    true
}

// A refusal at the line of a gate. Whoever looks at a gate requires that its line has a number: no row of that many gates is that long.
fn at_gate(cause: Cause, gate: usize) -> Refusal
    requires { gate + 2 < 2 ^ 64 }
    ensures { result ≡ at_line (number_of cause) (gate + 2) }
{
    cause.at(gate + FIRST_GATE)
}

// 4, 5 and 6 of one gate, at its line.
fn gate_fault(row: &[u16], gate: usize) -> Result<(), Refusal>
    requires { gate + 2 < 2 ^ 64 }
    ensures { result ≡ gate_fault row.now gate }
{
    FanInCount::new(count(row, gate)).ok_or(at_gate(Cause::WrongLength, gate))?;
    GateNumber::new(gate).ok_or(at_gate(Cause::OneTooMany, gate))?;
    if !rising(fan_ins(row, gate), gate) {
        return Err(at_gate(Cause::Unordered, gate));
    }
    Ok(())
}

// 4, 5 and 6 of the first gate that has one. A loop of its own for each of the two checks is shorter than one over closures.
fn first_fault(gates: usize, row: &[u16]) -> Result<(), Refusal>
    requires { gates + 2 < 2 ^ 64 }
    ensures { result ≡ first_fault row.now 0 gates }
{
    for v in 0..gates {
        gate_fault(row, v)?;
    }
    Ok(())
}

// 9 of one gate, at its line.
fn heavy_fault(gate: usize, weight: Cells, capacity: Cells) -> Result<(), Refusal>
    requires { gate + 2 < 2 ^ 64 }
    ensures { result ≡ heavy_fault gate weight.0 capacity.0 }
{
    if !weight.within(capacity) {
        return Err(at_gate(Cause::TooHeavy, gate));
    }
    Ok(())
}

// 9 of the first gate that is heavier than M.
fn first_heavy(header: Header, row: &[u16]) -> Result<(), Refusal>
    requires { header.gates + 2 < 2 ^ 64 }
    ensures { result ≡ first_heavy_fault header.capacity.0 row.now 0 header.gates }
{
    for v in 0..header.gates {
        heavy_fault(v, weight(row, v), header.capacity)?;
    }
    Ok(())
}

// The fault that decides: 10, 1, those of the gates, 8, 9.
fn row_fault(header: Header, row: &[u16]) -> Result<(), Refusal>
    ensures { result ≡ row_fault header row.now }
{
    let gates = header.gates;
    if too_short(gates, row) {
        return Err(Refusal::no_room());
    }
    if too_long(gates, row) {
        return Err(Refusal::at_no_line(Cause::TooLong as u8));
    }
    first_fault(gates, row)?;
    if gates == 0 {
        return Err(at_gate(Cause::NoGates, 0));
    }
    first_heavy(header, row)
}

impl Header {
    // The header with M and D within their ceilings.
    fn settled(self) -> Header
        ensures { result ≡ settled self }
    {
        Header {
            capacity: Cells(u64::from(self.capacity.capacity_place())),
            hop: Ticks(u64::from(self.hop.delay_place())),
            gates: self.gates,
        }
    }
}

// What a header and a row handed over answer: the header of the network that stands in the row, or what refuses the text that they
// spell [R5], and 10 where the row is too short for the gates that the header claims.
// Whatever form tells what `row_fault` found, the two lemmas say what it has to be.
#[tactic(auto, using(crate::proofs::Checked::network_told, crate::proofs::Checked::fault_told))]
pub fn check(header: Header, row: &[u16]) -> Result<Header, Refusal>
    ensures { result ≡ checked header row.now }
{
    let known = header.settled();
    row_fault(known, row)?;
    Ok(known)
}
