// Lines of hexadecimal written into a lent row. The puts write bytes and words as digits, from a place on: all of what they
// were handed or, without room for it, nothing. `feed` ends a line, and `put_line` writes a whole one.
ghost use Rattle.std.specs.Prelude.{◌≡◌, ◌+◌, ◌<◌, ◌≤◌, ◌↔◌, IsTrue};
ghost use Rattle.model.specs.Basics.{gather};
ghost use Rattle.frames.specs.Digits.{figure, word_bytes, spell_line};
ghost use Rattle.frames.specs.Put.{Put, Fed, LineWritten};

use crate::Refusal;

// The digit that says d.
fn figure(d: u8) -> u8
    requires { d < 16 }
    ensures { result ≡ figure d }
{
    if d < 10 { b'0' + d } else { b'A' + d - 10 }
}

// Whether a row of that length has so many places from a place on.
fn has_room(length: usize, at: usize, needed: usize) -> bool
    ensures { IsTrue result ↔ (at + needed ≤ length) }
{
    at.checked_add(needed).is_some_and(|end| end <= length)
}

// The digits of some bytes, two each and the higher one first, put at a place; the answer is the place past them. Without
// room for all of them nothing is written, and the answer is the place itself (no `None`: `Put` promises the place).
pub fn put(out: &mut [u8], at: usize, bytes: &[u8]) -> usize
    ensures { Put bytes.now at out.old result out.new }
{
    if !has_room(out.len(), at, 2 * bytes.len()) {
        return at;
    }
    // The answer, which `put` hands on.
    let mut next = at;
    for &b in bytes {
        out[next] = figure(b / 16);
        out[next + 1] = figure(b % 16);
        next += 2;
    }
    next
}

// The digits of some words, four each and the higher byte first, as `put` puts them.
pub fn put_words(out: &mut [u8], at: usize, words: &[u16]) -> usize
    ensures { Put (gather word_bytes words.now) at out.old result out.new }
{
    if !has_room(out.len(), at, 4 * words.len()) {
        return at;
    }
    let mut next = at;
    for &word in words {
        next = put(out, next, &word.to_be_bytes());
    }
    next
}

// The line feed, put past a line's digits; the answer is the line's length. Without room for it nothing is written.
pub fn feed(out: &mut [u8], at: usize) -> Result<usize, Refusal>
    ensures { Fed at out.old result out.new }
{
    if at < out.len() {
        out[at] = b'\n';
        Ok(at + 1)
    } else {
        Err(Refusal::no_room())
    }
}

// A frame's bytes as a line, from the row's start. A row too short for it answers 10 and is left as it was.
pub fn put_line(out: &mut [u8], bytes: &[u8]) -> Result<usize, Refusal>
    ensures { LineWritten (spell_line bytes.now) out.old result out.new }
{
    if out.len() <= 2 * bytes.len() {
        return Err(Refusal::no_room());
    }
    let end = put(out, 0, bytes);
    feed(out, end)
}
