// The lines that the programs write, as docs/RULES.md (11) shows them.
#![tactic(auto)]

use std::io;
use verdict_answers::{OfMessage, OfRegrouping};

pub fn text(rt: &impl Print, s: &[u8]) -> io::Result<()> {
    rt.write_all(s)
}

pub fn number(rt: &impl Print, n: u64) -> io::Result<()> {
    rt.print(n)
}

// A part of the message, where it is there.
pub fn part(rt: &impl Print, s: &[u8], start: usize, size: usize) -> io::Result<()> {
    match s.get(start..).and_then(|rest| rest.get(..size)) {
        Some(part) => text(rt, part),
        None => Ok(()),
    }
}

// `REFUSED 12 element=6 offset=147`
fn refused(rt: &impl Print, number: u64, element: u64, offset: u64) -> io::Result<()> {
    println!(rt; "REFUSED {number} element={element} offset={offset}")
}

// The same, or `ACCEPTED blocks=2 payments=2 cents=3510`.
// (It takes the numbers for C, as it is called by name for any of them.)
pub fn message(rt: &impl Print, answer: OfMessage) -> io::Result<()> {
    let OfMessage {
        number,
        element,
        offset,
        blocks,
        payments,
        cents,
    } = answer;
    if number > 0 {
        return refused(rt, number, element, offset);
    }
    println!(rt; "ACCEPTED blocks={blocks} payments={payments} cents={cents}")
}

// `FIRST REFUSED 12 element=6 offset=147`, or `SECOND` with the like, `REFUSED 20 k=1 field=13`, or `ACCEPTED`.
pub fn regrouping(rt: &impl Print, answer: OfRegrouping) -> io::Result<()> {
    let OfRegrouping {
        whose,
        number,
        element,
        offset,
        k,
        field,
    } = answer;
    match whose {
        0 if number == 0 => return println!(rt; "ACCEPTED"),
        0 => return println!(rt; "REFUSED {number} k={k} field={field}"),
        1 => print!(rt; "FIRST ")?,
        2 => print!(rt; "SECOND ")?,
        _ => {}
    }
    refused(rt, number, element, offset)
}
