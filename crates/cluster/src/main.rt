// Reads one network's text from standard input and prints its result, or the one frame of its refusal, a block of lines at a
// time. What every text answers is decided in the crates below; here is the reading, the printing and the room for both.
//
// Proved here: no text finds a row too short [B9], one that is too long is never taken for a shorter one [N1], and the blocks
// are, one behind the other, all the lines that the text answers. No contract can say what C's `read` and `write` do: that
// every block is handed to `show`, and by it to standard output, and that `main` answers the bytes that were read, is seen in
// `print_block`, `show` and `main`.
#![tactic(auto)]

ghost use Rattle.std.specs.Prelude.{◌<◌, ◌≡◌, length};
ghost use Rattle.io.specs.Counts.{IsPrefixLen};
ghost use Rattle.texts.specs.Reading.{most_text};
ghost use Rattle.drawing.specs.Answer.{answer_lines};
ghost use Rattle.drawing.specs.Prepared.{lent_in};
ghost use Rattle.cluster.specs.Printing.{Prepared as Printable, Unprinted, BlockBytes, Prints, BlockPrinted, AllPrinted};

use drawing::Prepared;
use units::GateNumber;

// [B5] One byte more than a text may have, so that a longer one is seen to be longer.
const TEXT: usize = frames::MOST_TEXT + 1;

// A block of lines. [B7] The longest line has 2,059 bytes, so that a block has a line wherever one is left; the network's row
// is looked at once a block.
const BLOCK: usize = 8_192;

// A write failed.
#[derive(Clone, Copy)]
struct WriteFailed;

// The bytes of a block of so many lines, printed; how many.
fn show(bytes: &[u8], count: usize) -> Result<usize, WriteFailed>
    requires { BlockBytes count bytes.now }
    ensures { Prints count result }
{
    if io::write_all(1, bytes) {
        Ok(count)
    } else {
        Err(WriteFailed)
    }
}

// [R7] The lines from that index on that have room in the last row, printed; how many, 0 only past the last line. That index
// is the first line's that is not printed yet.
fn print_block(prepared: &Prepared, index: usize, out: &mut [u8]) -> Result<usize, WriteFailed>
    requires { Unprinted (length out.old) prepared.now.answer (lent_in prepared.now) index }
    ensures { BlockPrinted (length out.old) prepared.now.answer (lent_in prepared.now) index result }
{
    let Ok(told) = prepared.tell_lines(index, out) else {
        return Err(WriteFailed);
    };
    show(&out[..told.length], told.count)
}

// Every line printed, from the first to the last; how many.
fn print(prepared: &Prepared) -> Result<usize, WriteFailed>
    requires { Printable prepared.now.answer (lent_in prepared.now) }
    ensures { AllPrinted prepared.now.answer (lent_in prepared.now) result }
{
    let mut out = [0; BLOCK];
    // Each turn goes on by as many lines as were printed.
    let mut index = 0;
    loop {
        let count = print_block(prepared, index, &mut out)?;
        if count == 0 {
            return Ok(index);
        }
        index += count;
    }
}

// The answer to a text, printed; how many lines. [B9] The rows suffice for every text.
fn answer(text: &[u8]) -> Result<usize, WriteFailed>
    ensures { Prints (length (answer_lines text.now)) result }
{
    let mut row = [0u16; rows::PLACES * GateNumber::MOST_GATES];
    let mut labels = [0u32; GateNumber::MOST_GATES];
    let mut marks = [0u8; GateNumber::MOST_GATES];
    let answer = drawing::prepare(text, &mut row, &mut labels, &mut marks);
    print(&Prepared {
        answer,
        row: &row,
        labels: &labels,
        marks: &marks,
    })
}

// Standard input, as far as the row has room; how many bytes. [N1] A text that fills the row is too long, whatever is left
// unread of it.
fn read_text(text: &mut [u8]) -> usize
    requires { most_text < length text.old }
    ensures prefix_len { IsPrefixLen result text.new }
    ensures lower_bound { result ≡ length text.new → most_text < result }
{
    io::read_full(0, text)
}

fn main() {
    let mut text = [0u8; TEXT];
    let length = read_text(&mut text);
    let _ = answer(&text[..length]);
}
