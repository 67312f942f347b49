// Whole texts. A network stands in its row, its labels and the marks of its drawn clusters in rows of their own: `prepare`
// reads, labels and selects, `tell` writes a line of the result, or the one line of the refusal, and `tell_lines` as many as
// have room.
#![tactic(auto)]

ghost use Rattle.std.specs.Prelude.{◌≡◌};
ghost use Rattle.texts.specs.Reading.{reading};
ghost use Rattle.drawing.specs.Prepared.{lent_of, lent_in, any_short, prepared_lent, PreparedInto, Told, ToldLines};
ghost use Rattle.drawing.specs.steps.Preparing.{Readable};

use frames::Refusal;
use results::block::{self, Block};
use results::line;
use rows::Header;

// Whether a row is shorter than so many gates need. The three rows are lent one by one: what lends them may be C, and a struct
// of three `&mut` would only be taken apart again.
fn too_short(gates: usize, row: &[u16], labels: &[u32], marks: &[u8]) -> bool
    ensures { result ≡ any_short gates (lent_of row.now labels.now marks.now) }
{
    rows::too_short(gates, row) || labels.len() < gates || marks.len() < gates
}

// The network of a text, its labels and the marks of its drawn clusters put into the rows.
fn fill(text: &[u8], header: Header, row: &mut [u16], labels: &mut [u32], marks: &mut [u8])
    requires { Readable text.now header (lent_of row.old labels.old marks.old) }
    ensures { lent_of row.new labels.new marks.new
        ≡ prepared_lent (reading text.now) (lent_of row.old labels.old marks.old) }
{
    // None refuses: the text is a network's, and every row has room for it.
    let _ = reading::read(text, row);
    let _ = labelling::label(header, row, labels);
    let _ = selection::draw(header, row, labels, marks);
}

// Reads a text into its row, labels its network and selects its clusters: the header of the network, which stands in the row
// with its labels and the marks of its roots beside it, or a refusal, which leaves every row as it was.
pub fn prepare(
    text: &[u8],
    row: &mut [u16],
    labels: &mut [u32],
    marks: &mut [u8],
) -> Result<Header, Refusal>
    ensures { PreparedInto text.now
        (lent_of row.old labels.old marks.old)
        result
        (lent_of row.new labels.new marks.new) }
{
    let header = reading::look(text)?;
    if too_short(header.gates, row, labels, marks) {
        return Err(Refusal::no_room());
    }
    fill(text, header, row, labels, marks);
    Ok(header)
}

// What a text came to: the answer, and the rows that were lent for it.
#[derive(Clone, Copy)]
pub struct Prepared<'a> {
    pub answer: Result<Header, Refusal>,
    pub row: &'a [u16],
    pub labels: &'a [u32],
    pub marks: &'a [u8],
}

impl Prepared<'_> {
    // The line of that index, counted from 0, of what a text came to: of its result, or the one line of its refusal; past the
    // last line nothing. A row too short for the line answers 10 and is left as it was.
    pub fn tell(&self, index: usize, out: &mut [u8]) -> Result<usize, Refusal>
        ensures { Told self.now.answer index (lent_in self.now) out.old result out.new }
    {
        match self.answer {
            Ok(header) => line::line(index, header, self.row, self.labels, self.marks, out),
            Err(refusal) if index == 0 => line::refusal_line(refusal, out),
            Err(_) => Ok(0),
        }
    }

    // As many whole lines of what a text came to as the row has room for, from the line of that index on; past the last line
    // none. A row too short for the first of them answers 10 and is left as it was.
    pub fn tell_lines(&self, index: usize, out: &mut [u8]) -> Result<Block, Refusal>
        ensures { ToldLines self.now.answer index (lent_in self.now) out.old result out.new }
    {
        match self.answer {
            Ok(header) => block::lines(index, header, self.row, self.labels, self.marks, out),
            Err(refusal) => block::refusal_lines(index, refusal, out),
        }
    }
}
