// Runs `form::form_of` over each case of the file `cases` and over each beginning of it, and writes what was found.
// A case is a name and a text, as parts, and a line feed.
// What it must write, `stdout`, was worked out from the rules (docs/RULES.md, 2) and not by a run.
#![tactic(auto)]

use std::io;
use tree::Tree;

// Whether a text is refused because it ends too early.
fn ends_early(s: &[u8], tree: &mut Tree) -> bool {
    form::form_of(s, tree).is_err_and(|stop| stop.at == s.len())
}

// How many beginnings of a text are refused because they end too early.
fn early(s: &[u8], tree: &mut Tree) -> usize {
    let mut n = 0;
    for k in 0..s.len() {
        if ends_early(&s[..k], tree) {
            n += 1;
        }
    }
    n
}

fn show(rt: &impl Print, name: &[u8], s: &[u8], tree: &mut Tree) -> io::Result<()> {
    rt.write_all(name)?;
    match form::form_of(s, tree) {
        Ok(()) => print!(rt; ": of the form; ")?,
        Err(stop) => print!(rt; ": refused at {}; ", stop.at)?,
    }
    let n = early(s, tree);
    println!(rt; "{n} of {} beginnings end too early", s.len())
}

// The case at an offset. Answers the offset of the next.
fn case_at(rt: &impl Print, s: &[u8], at: usize, tree: &mut Tree) -> io::Result<usize> {
    let name = run_frames::part_at(s, at);
    let text = run_frames::part_at(s, name.end + 1);
    let next = text.end + 2;
    show(rt, &s[name], &s[text], tree)?;
    Ok(next)
}

// The first 10000 cases of the file. (Each program that reads cases has such a loop over its own: one for all would take what is done with a case as a closure with a contract.)
fn run(rt: &impl Print, s: &[u8], tree: &mut Tree) -> io::Result<()> {
    let mut at = 0;
    for _ in 0..10000 {
        if at >= s.len() {
            return Ok(());
        }
        at = case_at(rt, s, at, tree)?;
    }
    Ok(())
}

fn main(rt: HostRuntime) -> io::Result<()> {
    let mut buffer = [0u8; 65536];
    let n = run_frames::load(&rt, &rt.stderr(), b"cases", &mut buffer)?;
    let mut tree = [0u16; tree::NUMBERS];
    run(&rt, &buffer[..n], &mut tree)
}
