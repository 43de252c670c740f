// Judges the values that the source documents print, a line each, and tries the neighbours of accounts. A line of `stdin` is row, parent, longest
// length, currency and text, in fixed columns; or `=` and an account, each character of which is changed to every other capital or digit.
#![tactic(auto)]

ghost use Rattle.std.specs.Prelude.{◌≡◌, ◌<◌, ◌≤◌, length};

use leaf_values::Unfit;
use std::io;
use std::io::Input;

// What a character of an account is changed to.
const OTHERS: &[u8; 36] = b"ABCDEFGHIJKLMNOPQRSTUVWXYZ0123456789";

// Prints the answer on a line's value, of which nothing is known before, and the line. (No `From` leads from a `u64` to a `usize`: `as`.)
fn judge(rt: &impl Print, line: &[u8]) -> io::Result<()> {
    if line.len() < 14 {
        return Ok(());
    }
    let row = leaf_numbers::number(&line[0..2]) as usize;
    let parent = leaf_numbers::number(&line[3..5]) as usize;
    let longest = leaf_numbers::number(&line[6..9]) as usize;
    match leaf_values::leaf(parent, row, longest, &line[10..13], &line[14..], 0) {
        Ok(()) => print!(rt; "fine ")?,
        Err(Unfit::EmptyOrTooLong) => print!(rt; "6 ")?,
        Err(Unfit::NotInTheSet { at }) => print!(rt; "7@{at} ")?,
        Err(Unfit::NotAllowed) => print!(rt; "8 ")?,
    }
    rt.write_all(line)?;
    println!(rt)
}

// The account with another character at a place: prints it where it is an account too, and says whether it is.
fn changed(rt: &impl Print, w: &mut [u8], i: usize, c: u8) -> io::Result<bool>
    requires { i < length w.old }
    ensures { length w.new ≡ length w.old }
{
    let own = w[i];
    if own == c {
        return Ok(false);
    }
    w[i] = c;
    let is_account = leaf_accounts::iban(w);
    if is_account {
        rt.write_all(w)?;
        println!(rt)?;
    }
    w[i] = own;
    Ok(is_account)
}

// How many accounts stand beside this one.
fn changed_everywhere(rt: &impl Print, w: &mut [u8]) -> io::Result<u64>
    requires { length w.old ≤ 34 }
{
    let mut n = 0u64;
    for i in 0..w.len() {
        for &c in OTHERS {
            if changed(rt, w, i, c)? {
                n += 1;
            }
        }
    }
    Ok(n)
}

fn neighbours(rt: &impl Print, s: &[u8]) -> io::Result<()> {
    let mut w = [0u8; 34];
    if s.len() > w.len() {
        return Ok(());
    }
    let account = &mut w[..s.len()];
    account.copy_from_slice(s);
    let n = changed_everywhere(rt, account)?;
    print!(rt; "{n} accounts beside ")?;
    rt.write_all(s)?;
    println!(rt)
}

fn main(rt: HostRuntime) -> io::Result<()> {
    let mut buf = [0u8; 65536];
    let n = run_reading::fill(&mut rt.reader(), &mut buf)?;
    for line in buf[..n].split(|&b| b == b'\n') {
        match line {
            [b'=', account @ ..] => neighbours(&rt, account)?,
            _ => judge(&rt, line)?,
        }
    }
    Ok(())
}
