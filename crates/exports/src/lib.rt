// The library for programs in other languages. Numbers pass as themselves, a slice as a pointer and then its length, and the
// answer is a struct by value: the compiler exports a function that returns a struct only where it is `#[repr(C)]`, and hands
// it over as C does on x86-64. The guides do not say the latter; every run of `second/` rests on it. A caller in C declares
//
//     struct lykophene_answer { uint8_t number; size_t line; size_t column; size_t length; };
//     struct lykophene_answer lykophene_label(uint32_t capacity, uint16_t hop, size_t gates,
//         const uint16_t *row, size_t row_length, uint32_t *labels, size_t labels_length);
//     struct lykophene_answer lykophene_line(const uint8_t *text, size_t text_length, size_t index,
//         uint8_t *out, size_t out_length);
#![tactic(auto)]

ghost use Rattle.std.specs.Prelude.{◌≡◌};
ghost use Rattle.exports.specs.Exported.{header_from, line_told, LabelledOut, LineOut};

use drawing::Prepared;
use frames::Refusal;
use rows::Header;
use units::{Cells, GateNumber, Ticks};

// A refusal's number, line and column, and length 0; or three times 0, for no refusal, and the length of the line written:
// C has no `Result`. Line and column are as wide as those of a refusal, so that none is cut.
#[repr(C)]
#[derive(Clone, Copy)]
pub struct Answer {
    pub number: u8,
    pub line: usize,
    pub column: usize,
    pub length: usize,
}

impl From<Result<usize, Refusal>> for Answer {
    ghost from_gives = { λ r answer. answer ≡ line_told r };

    fn from(told: Result<usize, Refusal>) -> Answer {
        match told {
            Ok(length) => Answer {
                number: 0,
                line: 0,
                column: 0,
                length,
            },
            Err(refusal) => Answer {
                number: refusal.number,
                line: refusal.line,
                column: refusal.column,
                length: 0,
            },
        }
    }
}

// [R1] The labels of the network that stands in the row, eleven places a gate, one label a gate, in front of the lent row. No
// line is written: the length is 0.
#[unsafe(no_mangle)]
pub extern "C" fn lykophene_label(
    capacity: u32,
    hop: u16,
    gates: usize,
    row: &[u16],
    labels: &mut [u32],
) -> Answer
    ensures { LabelledOut (header_from capacity hop gates) row.now labels.old result labels.new }
{
    let header = Header {
        capacity: Cells(u64::from(capacity)),
        hop: Ticks(u64::from(hop)),
        gates,
    };
    Answer::from(labelling::label(header, row, labels).and(Ok(0)))
}

// [R6] The line of that index, counted from 0, of what a text answers, in front of the lent row, and its length; past the last
// line length 0. A row too short for the line answers 10 and is left as it was.
#[unsafe(no_mangle)]
pub extern "C" fn lykophene_line(text: &[u8], index: usize, out: &mut [u8]) -> Answer
    ensures { LineOut text.now index out.old result out.new }
{
    // The program makes the same rows; each has them on its own stack, and lends them.
    let mut row = [0u16; rows::PLACES * GateNumber::MOST_GATES];
    let mut labels = [0u32; GateNumber::MOST_GATES];
    let mut marks = [0u8; GateNumber::MOST_GATES];
    let answer = drawing::prepare(text, &mut row, &mut labels, &mut marks);
    let prepared = Prepared {
        answer,
        row: &row,
        labels: &labels,
        marks: &marks,
    };
    Answer::from(prepared.tell(index, out))
}
