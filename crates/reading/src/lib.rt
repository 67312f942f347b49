// A network's text read into a lent row. `look` goes over the text once and writes nothing; where it finds a network for
// which the row has room, `fill_row` goes over the gate lines once more and puts each gate into its block.
#![tactic(auto)]

ghost use Rattle.std.specs.Prelude.{◌≡◌, ℕ, ◌+◌, ◌≤◌, ◌<◌, drop};
ghost use Rattle.model.specs.Ceilings.{most_gates};
ghost use Rattle.model.specs.Network.{Network};
ghost use Rattle.frames.specs.Text.{lines};
ghost use Rattle.frames.specs.Frames.{fan_in_from};
ghost use Rattle.frames.specs.declared.Place.TheVariants.{AfterGates, Closed};
ghost use Rattle.texts.specs.Reading.{reading, walk, weigh};
ghost use Rattle.rows.specs.Read.{shown, filled};
ghost use Rattle.reading.specs.ReadInto.{ReadInto};
ghost use Rattle.reading.specs.steps.Passes.{Known, header_only, one_more, with_fan_ins, FitsInto};

use frames::{Cause, LineRead, MOST_TEXT, Place, Refusal};
use rows::Header;
use units::{Cells, Ticks};

// What is known of a network whose header and first gates were read: the header with the gates so far, and the line of the
// first gate heavier than M.
#[derive(Clone, Copy)]
struct Seen {
    header: Header,
    heavy: Option<usize>,
}

impl Seen {
    // One gate more; gate v stands in line v + 2.
    fn with_gate(self, weight: Cells) -> Seen
        requires { self.header.gates < most_gates }
        ensures { result ≡ one_more self weight }
    {
        let header = self.header;
        let told = (!weight.within(header.capacity)).then_some(header.gates + 2);
        Seen {
            header: Header {
                gates: header.gates + 1,
                ..header
            },
            heavy: self.heavy.or(told),
        }
    }
}

// The text behind the end frame: nothing may stand there. Then a gate heavier than M is told.
fn look_end(text: &[u8], at: usize, seen: Seen) -> Result<Header, Refusal>
    requires { seen.header.gates ≤ most_gates }
    ensures { (n : Network) → Known seen n → result ≡ shown (weigh (walk Closed (seen.header.gates + 3) n (lines (drop at text.now)))) }
{
    let missing = seen.header.gates + 3;
    let LineRead::Nothing = frames::read_line(text, at, Place::Closed, missing)? else {
        return Err(Cause::Misplaced.at(missing));
    };
    match seen.heavy {
        Some(line) => Err(Cause::TooHeavy.at(line)),
        None => Ok(seen.header),
    }
}

// The gate lines from `first` on, up to the end frame, and what stands behind it.
fn look_gates(text: &[u8], first: usize, capacity: Cells, hop: Ticks) -> Result<Header, Refusal>
    ensures { result ≡ shown (weigh (walk (AfterGates 0) 2 (header_only capacity hop) (lines (drop first text.now)))) }
{
    // Each turn goes on at the next line: where it begins only reading tells.
    let mut at = first;
    let mut seen = Seen {
        header: Header {
            capacity,
            hop,
            gates: 0,
        },
        heavy: None,
    };
    loop {
        let gates = seen.header.gates;
        let read = frames::read_line(text, at, Place::AfterGates(gates), gates + 2)?;
        let LineRead::Gate { weight, next, .. } = read else {
            let LineRead::End { next } = read else {
                return Err(Cause::Misplaced.at(gates + 2));
            };
            return look_end(text, next, seen);
        };
        seen = seen.with_gate(weight);
        at = next;
    }
}

// What the text answers, the row left out.
pub fn look(text: &[u8]) -> Result<Header, Refusal>
    ensures { result ≡ shown (reading text.now) }
{
    if MOST_TEXT < text.len() {
        return Err(Refusal::at_no_line(Cause::TooLong as u8));
    }
    let LineRead::Header {
        capacity,
        hop,
        next,
    } = frames::read_line(text, 0, Place::Opening, 1)?
    else {
        return Err(Cause::Misplaced.at(1));
    };
    look_gates(text, next, capacity, hop)
}

// Puts the fan-ins of the gate line that begins at `at` into the block of gate v. The cast is proved to fit: `try_from` would add
// an error that never is.
fn fill_fan_ins(text: &[u8], at: usize, count: usize, row: &mut [u16], v: usize)
    requires { (i : ℕ) → i < count → fan_in_from text.now at i < 65_536 }
    ensures { row.new ≡ with_fan_ins text.now at v 0 count row.old }
{
    for i in 0..count {
        rows::put_fan_in(row, v, i, frames::fan_in(text, at, i) as u16);
    }
}

// Puts the gates of a text into their blocks; the text is a network's, and the row has room for it.
#[tactic(auto, using(crate::proofs::Filling::opens_unrefused, crate::proofs::LinesRead::refused_there))]
fn fill_row(text: &[u8], row: &mut [u16])
    requires { FitsInto text.now row.old }
    ensures { row.new ≡ filled (reading text.now) row.old }
{
    let Ok(LineRead::Header { next: first, .. }) = frames::read_line(text, 0, Place::Opening, 1)
    else {
        // never: the text is a network's
        return;
    };
    // Each turn goes on at the next line: where it begins only reading tells.
    let mut at = first;
    let mut gates = 0;
    loop {
        let Ok(
            LineRead::Gate {
                weight,
                delay,
                count,
                next,
            },
        ) = frames::read_line(text, at, Place::AfterGates(gates), gates + 2)
        else {
            return;
        };
        rows::put_gate(row, gates, weight, delay, count);
        fill_fan_ins(text, at, count.0, row, gates);
        at = next;
        gates += 1;
    }
}

// Reads a network's text into the row. A refusal leaves the row as it was; a network stands in it gate by gate, and every
// other place keeps its content.
pub fn read(text: &[u8], row: &mut [u16]) -> Result<Header, Refusal>
    ensures { ReadInto text.now row.old row.new result }
{
    let header = look(text)?;
    if rows::too_short(header.gates, row) {
        return Err(Refusal::no_room());
    }
    fill_row(text, row);
    Ok(header)
}
