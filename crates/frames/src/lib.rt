// One line of a text, in both directions: hexadecimal read into a frame, or the number of its refusal with its line; and,
// in `put`, bytes and words written as digits.
//
// `read_line` has the line that begins at a place of the text cut out by `cut`, and answers by the table of refusal numbers: 21
// to 24 for the line's form, then by what stood before it 3 for its type, 4 for its length, 5 and 6 for a gate, 7 and 8 for the
// end.
// `fan_in` reads one fan-in of a gate line. Numbers are read with digits that are none counting 16, so that no number
// has to be refused before its line is.
#![tactic(auto)]

ghost use Rattle.std.specs.Prelude.{◌≡◌, ◌+◌, ◌^◌, ◌<◌};
ghost use Rattle.frames.specs.Text.{digit};
ghost use Rattle.frames.specs.Frames.{line_read, digit_at, byte_from, word_from, fan_in_from};
ghost use Rattle.frames.specs.steps.Cut.{long_from};
ghost use Rattle.frames.specs.Refusal.{number_of, at_column, at_line, at_no_line, no_room};

use cut::Cut;
use units::{Cells, FanInCount, Ticks};

mod cut;
pub mod put;

// What stood before a line: nothing; the header and so many gates; the end frame.
#[derive(Clone, Copy)]
pub enum Place {
    Opening,
    AfterGates(usize),
    Closed,
}

// A refusal [O1]: which it is, and where: at what line, and at what column of it. Its number is any of 8 bits and no `Cause`: the makers
// and whoever tells a refusal promise something for every number. Line and column count from 1, and 0 is none, as [O1] has it.
#[derive(Clone, Copy)]
pub struct Refusal {
    pub number: u8,
    pub line: usize,
    pub column: usize,
}

// What reading a line gives where it is not refused: a frame and where the next line begins, or that the text ends here.
#[derive(Clone, Copy)]
pub enum LineRead {
    Header {
        capacity: Cells,
        hop: Ticks,
        next: usize,
    },
    Gate {
        weight: Cells,
        delay: Ticks,
        count: FanInCount,
        next: usize,
    },
    End {
        next: usize,
    },
    Nothing,
}

// The bytes that a text may have [B5].
pub const MOST_TEXT: usize = 24_576;

// Why a text or a row is refused: the table's causes, each with the number that a refusal tells.
#[derive(Clone, Copy)]
pub enum Cause {
    // A text above its ceiling.
    TooLong = 1,
    // An unknown or misplaced type.
    Misplaced = 3,
    // A frame length wrong for its type or count, or a count above 8.
    WrongLength = 4,
    // A 513th gate.
    OneTooMany = 5,
    // A fan-in not rising or not below its gate.
    Unordered = 6,
    // An 0F count that differs.
    Miscounted = 7,
    // An 0F with no gates before it.
    NoGates = 8,
    // A gate heavier than M.
    TooHeavy = 9,
    // A lent row too short for the network, or for what was asked to be written.
    TooShort = 10,
    // A byte that is no digit.
    BadDigit = 21,
    // An odd number of digits.
    OddDigits = 22,
    // An empty line.
    EmptyLine = 23,
    // A last line that is not ended.
    NotEnded = 24,
}

impl Cause {
    // The refusal of that cause, told at a line.
    pub fn at(self, line: usize) -> Refusal
        ensures { result ≡ at_line (number_of self) line }
    {
        Refusal::at_line(self as u8, line)
    }
}

// The types of frames, those of a text and those of a result.
#[derive(Clone, Copy)]
pub enum Kind {
    Header = 0x01,
    Gate = 0x02,
    End = 0x0F,
    Result = 0x11,
    Label = 0x12,
    Cluster = 0x13,
    Refusal = 0x1E,
    ResultEnd = 0x1F,
}

impl Refusal {
    pub fn at_column(number: u8, line: usize, column: usize) -> Refusal
        ensures { result ≡ at_column number line column }
    {
        Refusal {
            number,
            line,
            column,
        }
    }

    // Column 0: no place of the line is pointed at.
    pub fn at_line(number: u8, line: usize) -> Refusal
        ensures { result ≡ at_line number line }
    {
        Refusal::at_column(number, line, 0)
    }

    // Line 0: no line of the text is at fault.
    pub fn at_no_line(number: u8) -> Refusal
        ensures { result ≡ at_no_line number }
    {
        Refusal::at_line(number, 0)
    }

    // A lent row is too short.
    pub fn no_room() -> Refusal
        ensures { result ≡ no_room }
    {
        Refusal::at_no_line(Cause::TooShort as u8)
    }
}

// What a byte counts for that is no digit: a number and no `None`, as the specification's `digit` has it.
const NO_DIGIT: u8 = 16;

// What a byte counts for as a digit.
fn digit(b: u8) -> u8
    ensures { result ≡ digit b }
{
    match b {
        b'0'..=b'9' => b - b'0',
        // A counts ten.
        b'A'..=b'F' => b - b'A' + 10,
        _ => NO_DIGIT,
    }
}

// The digit at a place of the text; a place past its end holds 0, which is none.
fn digit_at(text: &[u8], k: usize) -> u64
    ensures { result ≡ digit_at text.now k }
{
    u64::from(digit(text.get(k).copied().unwrap_or(0)))
}

// Two, four and eight digits each have a function, as each has a definition: a loop over digits needs a power of 16 for its bound.
// The byte that two digits spell.
fn byte_at(text: &[u8], k: usize) -> u64
    requires { k + 2 < 2 ^ 64 }
    ensures { result ≡ byte_from text.now k }
{
    16 * digit_at(text, k) + digit_at(text, k + 1)
}

// The number that two bytes spell.
fn word_at(text: &[u8], k: usize) -> u64
    requires { k + 4 < 2 ^ 64 }
    ensures { result ≡ word_from text.now k }
{
    256 * byte_at(text, k) + byte_at(text, k + 2)
}

// The number that four bytes spell.
fn long_at(text: &[u8], k: usize) -> u64
    requires { k + 8 < 2 ^ 64 }
    ensures { result ≡ long_from text.now k }
{
    65_536 * word_at(text, k) + word_at(text, k + 4)
}

// Digits of a gate before its fan-ins: two for its type, four for the weight, four for the delay and two for the count
// of fan-ins. Each fan-in has four.
const BEFORE_FAN_INS: usize = 12;

// Four digits that are none, each counting 16: a number and no `None`, since `fan_in` promises one for every place.
const NO_FAN_IN: u32 = 69_904;

// The i-th fan-in of the gate line that begins at `at`: the number of its four digits, missing ones counting 16.
pub fn fan_in(text: &[u8], at: usize, i: usize) -> u32
    ensures { result ≡ fan_in_from text.now at i }
{
    // The cast is proved to fit: `try_from` would add an error that never is.
    let len = text.len();
    if at < len && i < (len - at) / 4 {
        return word_at(text, at + BEFORE_FAN_INS + 4 * i) as u32;
    }
    NO_FAN_IN
}

// The line that begins at `at`, by what stood before it: its frame and where the next line begins, or the first number of
// the table that it gives, with its line and column. A place past the text's end counts as its end.
pub fn read_line(text: &[u8], at: usize, place: Place, line: usize) -> Result<LineRead, Refusal>
    ensures { result ≡ line_read text.now at place line }
{
    if text.len() <= at {
        return Ok(LineRead::Nothing);
    }
    let cut = Cut::first(&text[at..], at, line)?;
    cut.read(place)
}
