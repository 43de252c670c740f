// The verdict on the message on standard input: one line, and where it is accepted one more for each payment: ordinal, block, debtor IBAN, creditor IBAN, cents
// and end-to-end id.
#![tactic(auto)]

ghost use Rattle.std.specs.Prelude.{◌≡◌, length};

use paper::Profile;
use std::io;
use std::io::Input;
use verdict_answers::OfMessage;

// The part of the message that starts there and is so long. (No `From` leads to a `usize` from more than 16 bits: `as`.)
fn part(rt: &impl Print, message: &[u8], start: u32, size: u32) -> io::Result<()> {
    run_printing::part(rt, message, start as usize, size as usize)
}

// The line of payment i, whose numbers in the table are these.
fn payment(rt: &impl Print, message: &[u8], i: usize, row: &[u32]) -> io::Result<()>
    requires { length row.now ≡ 20 }
{
    print!(rt; "{i} {} ", row[0])?;
    part(rt, message, row[11], row[12])?;
    print!(rt; " ")?;
    part(rt, message, row[3], row[4])?;
    print!(rt; " ")?;
    run_printing::number(rt, u64::from(row[13]) * 100 + u64::from(row[14]))?;
    print!(rt; " ")?;
    part(rt, message, row[1], row[2])?;
    println!(rt)
}

// (A refused message has 0 payments, as C has it.)
fn report(rt: &impl Print, profile: Profile, message: &[u8], table: &mut [u32]) -> io::Result<()> {
    let answer = OfMessage::from(verdict_reader::verdict(profile, message, table));
    run_printing::message(rt, answer)?;
    let rows = table.chunks_exact(paper::NUMBERS_PER_PAYMENT);
    for (i, row) in rows.take(answer.payments as usize).enumerate() {
        payment(rt, message, i, row)?;
    }
    Ok(())
}

// What is on standard input, read in a profile.
pub fn on_input(rt: &(impl Input + Print), profile: Profile) -> io::Result<()> {
    let mut message = [0u8; 32769];
    let mut table = [0u32; paper::LEAST_TABLE];
    let n = run_reading::fill(&mut rt.reader(), &mut message)?;
    report(rt, profile, &message[..n], &mut table)
}
