// A file of cases, and the parts of a case: each is its length in decimal, a `:`, its bytes and a `,`.
#![tactic(auto)]

ghost use Rattle.std.specs.Prelude.{◌≤◌, length};
ghost use Rattle.std.specs.Io.{ReadsAtMost};

use std::io;
use std::io::{Cursor, Write};
use std::ops::Range;
use std::rt::Files;

// A part that is a number, and where the next part begins.
#[derive(Drop)]
pub struct Numbered {
    pub value: usize,
    pub next: usize,
}

// Says why a file can't be opened, in the system's words, without the number that stands in brackets behind them.
fn say_why(errors: &impl Print, e: &io::Error) -> io::Result<()> {
    let mut said = Cursor::new([0u8; 320]);
    write!(said, "{e}")?;
    let text = said.into_inner();
    for end in 0..text.len() {
        if text[end] == 0 || text[end..].starts_with(b" (os error ") {
            return errors.write_all(&text[..end]);
        }
    }
    errors.write_all(&text)
}

// What a file of cases holds, as much as the buffer takes; nothing, and a line on standard error, where it can't be opened.
pub fn load<R: Files>(
    rt: &R,
    errors: &impl Print,
    path: &[u8],
    buffer: &mut [u8],
) -> io::Result<usize>
    ensures { ReadsAtMost result buffer.new }
{
    match run_reading::open(rt, path) {
        Ok(mut file) => run_reading::fill(&mut file, buffer),
        Err(e) => {
            errors.write_all(path)?;
            errors.write_all(b": ")?;
            say_why(errors, &e)?;
            errors.write_all(b"\n")?;
            Ok(0)
        }
    }
}

// The number that these digits are, or the largest of 64 bits where it is larger.
// (`leaf_numbers::number` stops at fifteen digits.)
fn number(digits: &[u8]) -> usize {
    digits.iter().fold(
        0usize,
        |n, &digit| n.saturating_mul(10).saturating_add(usize::from(digit & 15)),
    )
}

// Where the part stands whose length begins at an offset; at the end of the file, and empty, where none does.
pub fn part_at(s: &[u8], at: usize) -> Range<usize>
    ensures { (result.start ≤ result.end) × (result.end ≤ length s.now) }
{
    let from = at.min(s.len());
    let rest = &s[from..];
    let colon = rest
        .iter()
        .position(|b| !b.is_ascii_digit())
        .unwrap_or(rest.len());
    let size = number(&rest[..colon]);
    if rest.len() - colon <= size {
        return s.len()..s.len();
    }
    let start = from + colon + 1;
    start..start + size
}

// The number that is the part at an offset.
pub fn number_at(s: &[u8], at: usize) -> Numbered {
    let digits = part_at(s, at);
    let next = digits.end + 1;
    Numbered {
        value: number(&s[digits]),
        next,
    }
}
