// A run of lines in one call: as many whole lines, from an index on, as the lent row has room for, one behind the other. The
// network in its row is looked at once a call. A row too short for the first of the lines answers 10 and is left as it was.
ghost use Rattle.std.specs.Prelude.{◌≤◌, length, drop};
ghost use Rattle.frames.specs.Put.{line_at};
ghost use Rattle.rows.specs.Found.{network_of};
ghost use Rattle.rows.specs.Spelling.{row_answer};
ghost use Rattle.results.specs.Block.{drawn_lines, refusal_lines, LinesWritten, BlockAnswered};
ghost use Rattle.results.specs.steps.Block.{Added, Begun, Ran};

use crate::line::{known_line, refusal_line};
use crate::marked::Marked;
use frames::Refusal;
use rows::Header;

// A run of lines: how many stand in the row, and their bytes.
#[derive(Clone, Copy)]
pub struct Block {
    pub count: usize,
    pub length: usize,
}

// The one line of a refusal; past it nothing.
pub fn refusal_lines(index: usize, refusal: Refusal, out: &mut [u8]) -> Result<Block, Refusal>
    ensures { LinesWritten (drop index (refusal_lines refusal)) out.old result out.new }
{
    if index > 0 {
        return Ok(Block {
            count: 0,
            length: 0,
        });
    }
    let length = refusal_line(refusal, out)?;
    Ok(Block { count: 1, length })
}

// The line of that index put into the row from a place on: its bytes, 0 where no line is left or it has no room. Both end a block alike, so
// that an `Option` would only be turned into 0 again.
fn line_from(index: usize, at: usize, drawn: &Marked, out: &mut [u8]) -> usize
    requires { at ≤ length out.old }
    ensures { Added
        (line_at index
        (drawn_lines (network_of drawn.now.labelled.network) drawn.now.labelled.labels.now drawn.now.marks.now))
        at out.old result out.new }
{
    known_line(index, drawn, &mut out[at..]).unwrap_or(0)
}

// The lines behind the first one, which stands in front of the row with so many bytes: as many as have room.
fn lines_behind(index: usize, first: usize, drawn: &Marked, out: &mut [u8]) -> Block
    requires { Begun
        (drop index
        (drawn_lines (network_of drawn.now.labelled.network) drawn.now.labelled.labels.now drawn.now.marks.now))
        first out.old }
    ensures { Ran
        (drop index
        (drawn_lines (network_of drawn.now.labelled.network) drawn.now.labelled.labels.now drawn.now.marks.now))
        out.old result out.new }
{
    // Each turn goes on by a line's bytes: there is no row to go over.
    let mut length = first;
    let mut at = 0;
    let mut count = 0;
    while length > 0 {
        at += length;
        count += 1;
        length = line_from(index + count, at, drawn, out);
    }
    Block { count, length: at }
}

// The lines from that index on of the result of the network that stands in the row, from its labels and the marks of its
// roots. A header and a row that spell a refused text answer that refusal; a row of labels or marks with fewer places than
// gates answers 10.
pub fn lines(
    index: usize,
    header: Header,
    row: &[u16],
    labels: &[u32],
    marks: &[u8],
    out: &mut [u8],
) -> Result<Block, Refusal>
    ensures { BlockAnswered index (row_answer header row.now) labels.now marks.now out.old result out.new }
{
    let drawn = Marked::find(header, row, labels, marks)?;
    let first = known_line(index, &drawn, out)?;
    Ok(lines_behind(index, first, &drawn, out))
}
