// A line cut out of a text. `Cut::first` finds where it ends and judges its form; a `Cut` is a line whose form is right, and
// answers by what stood before it.
ghost use Rattle.std.specs.Prelude.{◌≡◌, ◌+◌, ◌^◌, ◌<◌, ◌==◌, not, length, position};
ghost use Rattle.std.proofs.Math.Option.{none};
ghost use Rattle.std.proofs.Props.{props};
ghost use Rattle.std.specs.List.{take_while};
ghost use Rattle.frames.specs.Text.{digit, bytes, words};
ghost use Rattle.frames.specs.Table.{rising_from};
ghost use Rattle.frames.specs.Frames.{byte_from, word_from};
ghost use Rattle.frames.specs.steps.Cut.{ended_line, form_fault};
ghost use Rattle.frames.specs.declared.Place.TheVariants.{Opening, AfterGates};

use crate::{
    BEFORE_FAN_INS, Cause, Kind, LineRead, NO_DIGIT, Place, Refusal, byte_at, digit, long_at,
    word_at,
};
use units::{Cells, FanInCount, GateNumber, Ticks};

// The line feed, 0A.
const LINE_FEED: u8 = 10;

// The types of a text's frames as they are read: a pattern takes a constant, and no cast.
const HEADER: u64 = Kind::Header as u64;

const GATE: u64 = Kind::Gate as u64;

const END: u64 = Kind::End as u64;

// Digits of a whole header: two for its type, eight for M and four for D.
const HEADER_DIGITS: usize = 14;

// Digits of a whole end: two for its type and four for the number of gates.
const END_DIGITS: usize = 6;

// How many bytes stand before the first line feed, or in all.
fn line_length(bytes: &[u8]) -> usize
    ensures { result ≡ length (take_while (λ b. not (b == 10)) bytes.now) }
{
    bytes.iter().take_while(|&&b| b != LINE_FEED).count()
}

// The place of the first byte that is no digit, if there is one.
fn first_bad(bytes: &[u8]) -> Option<usize>
    ensures { result ≡ position (λ b. digit b == 16) bytes.now }
{
    bytes.iter().position(|&b| digit(b) == NO_DIGIT)
}

// Whether the fan-ins that some digits spell, four each, rise strictly and are all below a gate's own number.
fn rising(fan_ins: &[u8], gate: GateNumber) -> bool
    ensures { result ≡ rising_from 0 gate.0 (words (bytes fan_ins.now)) }
{
    // No `From` goes from `usize` to `u64`.
    let bound = gate.0 as u64;
    let mut least = 0;
    for fan_in in fan_ins.chunks_exact(4) {
        let x = word_at(fan_in, 0);
        if x < least || bound <= x {
            return false;
        }
        least = x + 1;
    }
    true
}

// The digits of an ended line, where the next line begins, and the line's number. It is not empty, has digits alone, and an
// even number of them.
#[derive(Clone, Copy)]
pub(crate) struct Cut<'a> {
    digits: &'a [u8],
    next: usize,
    line: usize,
    ghost formed: { form_fault (ended_line digits.now) ≡ none } by { Prim.hlevel props },
}

impl<'a> Cut<'a> {
    ghost use Rattle.frames.specs.steps.CutOut.{cut_answer, CutOut};

    // The first line of what is left of a text from `at` on. Its form is refused by 23 where it is empty, and otherwise by the
    // first of 21, 22 and 24 that it gives.
    pub(crate) fn first(rest: &'a [u8], at: usize, line: usize) -> Result<Cut<'a>, Refusal>
        requires { (0 < length rest.now) × (at + length rest.now < 2 ^ 64) }
        ensures { CutOut rest.now at line result }
    {
        let length = line_length(rest);
        if length == 0 {
            return Err(Cause::EmptyLine.at(line));
        }
        let digits = &rest[..length];
        if let Some(bad) = first_bad(digits) {
            // Columns count from 1.
            return Err(Refusal::at_column(Cause::BadDigit as u8, line, bad + 1));
        }
        if length % 2 != 0 {
            return Err(Cause::OddDigits.at(line));
        }
        if rest.len() <= length {
            return Err(Cause::NotEnded.at(line));
        }
        Ok(Cut {
            digits,
            next: at + length + 1,
            line,
        })
    }

    // What the line answers by what stood before it: a frame, or 3 where its type is unknown or misplaced.
    pub(crate) fn read(&self, place: Place) -> Result<LineRead, Refusal>
        ensures { result ≡ cut_answer self.now place }
    {
        match (place, byte_at(self.digits, 0)) {
            (Place::Opening, HEADER) => self.header(),
            (Place::AfterGates(gates), GATE) => self.gate(gates),
            (Place::AfterGates(gates), END) => self.end(gates),
            _ => Err(Cause::Misplaced.at(self.line)),
        }
    }

    // A header: 4 by its length.
    fn header(&self) -> Result<LineRead, Refusal>
        requires { byte_from self.now.digits.now 0 ≡ 0x01 }
        ensures { result ≡ cut_answer self.now Opening }
    {
        let wrong_length = Cause::WrongLength.at(self.line);
        if self.digits.len() != HEADER_DIGITS {
            return Err(wrong_length);
        }
        // M stands behind the type, D behind M. D is always made: two bytes say at most 65,535.
        let hop = Ticks::delay(word_at(self.digits, 10)).ok_or(wrong_length)?;
        Ok(LineRead::Header {
            capacity: Cells(long_at(self.digits, 2)),
            hop,
            next: self.next,
        })
    }

    // A gate, after so many: 4 by its count or length, 5 by its number, 6 by its fan-ins.
    fn gate(&self, gates: usize) -> Result<LineRead, Refusal>
        requires { byte_from self.now.digits.now 0 ≡ 0x02 }
        ensures { result ≡ cut_answer self.now (AfterGates gates) }
    {
        let wrong_length = Cause::WrongLength.at(self.line);
        // The count of fan-ins stands behind type, weight and delay.
        let fan_ins = byte_at(self.digits, 10) as usize; // proved to fit: `try_from` would add an error that never is
        let count = FanInCount::new(fan_ins).ok_or(wrong_length)?;
        if self.digits.len() != BEFORE_FAN_INS + 4 * fan_ins {
            return Err(wrong_length);
        }
        let gate = GateNumber::new(gates).ok_or(Cause::OneTooMany.at(self.line))?;
        if !rising(&self.digits[BEFORE_FAN_INS..], gate) {
            return Err(Cause::Unordered.at(self.line));
        }
        // The weight stands behind the type, the delay behind the weight. Both are always made: two bytes say at most 65,535.
        let weight = Cells::weight(word_at(self.digits, 2)).ok_or(wrong_length)?;
        let delay = Ticks::delay(word_at(self.digits, 6)).ok_or(wrong_length)?;
        Ok(LineRead::Gate {
            weight,
            delay,
            count,
            next: self.next,
        })
    }

    // An end, after so many gates: 4 by its length, 7 by its count, 8 where there was no gate.
    fn end(&self, gates: usize) -> Result<LineRead, Refusal>
        requires { byte_from self.now.digits.now 0 ≡ 0x0F }
        ensures { result ≡ cut_answer self.now (AfterGates gates) }
    {
        if self.digits.len() != END_DIGITS {
            return Err(Cause::WrongLength.at(self.line));
        }
        // The number of gates stands behind the type.
        // No `From` goes from `usize` to `u64`.
        if word_at(self.digits, 2) != gates as u64 {
            return Err(Cause::Miscounted.at(self.line));
        }
        if gates == 0 {
            return Err(Cause::NoGates.at(self.line));
        }
        Ok(LineRead::End { next: self.next })
    }
}
