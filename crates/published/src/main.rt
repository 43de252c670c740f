// Runs the verdict and the regrouping over what the source documents print, and over M1 to M3 and messages of the instant scheme, and writes two lines for each example: what
// the first profile gives, and the instant one. In the four files a case is `V` with name and message, or `R` with name, first, second and list, and a line feed. A case that
// begins with `v` or `r` has two lines more: what they give where the message, or the first message, is archived.
#![tactic(auto)]

use paper::Profile;
use std::io;
use std::rt::Files;
use verdict_answers::{OfMessage, OfRegrouping};

// What a case asks for.
#[derive(Clone, Copy)]
enum Asked<'a> {
    Verdict {
        message: &'a [u8],
    },
    Regrouping {
        first: &'a [u8],
        second: &'a [u8],
        list: &'a [u8],
    },
}

#[derive(Clone, Copy)]
struct Case<'a> {
    name: &'a [u8],
    archived_too: bool,
    asked: Asked<'a>,
}

// The messages that a case of this kind has at an offset, and the offset of the next case.
fn asked_at(s: &[u8], kind: u8, at: usize) -> (Asked<'_>, usize) {
    let first = run_frames::part_at(s, at);
    if !matches!(kind, b'R' | b'r') {
        let next = first.end + 2;
        return (Asked::Verdict { message: &s[first] }, next);
    }
    let second = run_frames::part_at(s, first.end + 1);
    let list = run_frames::part_at(s, second.end + 1);
    let next = list.end + 2;
    let asked = Asked::Regrouping {
        first: &s[first],
        second: &s[second],
        list: &s[list],
    };
    (asked, next)
}

// The case at an offset, if one begins there, and the offset of the next.
fn case_at(s: &[u8], at: usize) -> Option<(Case<'_>, usize)> {
    let kind = *s.get(at)?;
    let name = run_frames::part_at(s, at + 1);
    let (asked, next) = asked_at(s, kind, name.end + 1);
    let case = Case {
        name: &s[name],
        archived_too: matches!(kind, b'v' | b'r'),
        asked,
    };
    Some((case, next))
}

// The line of a case in a profile: its name, some more words, and the answer.
fn answer(
    rt: &impl Print,
    case: Case<'_>,
    words: &[u8],
    profile: Profile,
    table: &mut [u32],
) -> io::Result<()> {
    run_printing::text(rt, case.name)?;
    run_printing::text(rt, words)?;
    match case.asked {
        Asked::Verdict { message } => {
            let verdict = verdict_reader::verdict(profile, message, table);
            run_printing::message(rt, OfMessage::from(verdict))
        }
        Asked::Regrouping {
            first,
            second,
            list,
        } => {
            let regrouping = move_regrouping::regroup(profile, first, second, list);
            run_printing::regrouping(rt, OfRegrouping::from(regrouping))
        }
    }
}

// All lines of a case.
fn answers(rt: &impl Print, case: Case<'_>, table: &mut [u32]) -> io::Result<()> {
    let of = |instant, archived| Profile { instant, archived };
    answer(rt, case, b": ", of(false, false), table)?;
    answer(rt, case, b", instant: ", of(true, false), table)?;
    if case.archived_too {
        answer(rt, case, b", archived: ", of(false, true), table)?;
        answer(rt, case, b", instant, archived: ", of(true, true), table)?;
    }
    Ok(())
}

// The first 10000 cases of a file. (`run_form` says why each program has such a loop of its own.)
fn run(rt: &impl Print, s: &[u8], table: &mut [u32]) -> io::Result<()> {
    let mut at = 0;
    for _ in 0..10000 {
        let Some((case, next)) = case_at(s, at) else {
            break;
        };
        answers(rt, case, table)?;
        at = next;
    }
    Ok(())
}

fn main(rt: HostRuntime) -> io::Result<()> {
    let errors = rt.stderr();
    let mut buffer = [0u8; 65536];
    let mut table = [0u32; paper::LEAST_TABLE];
    let files: [&[u8]; 4] = [b"whole-6.1", b"whole-6.2", b"snippets", b"regroupings"];
    for path in files {
        let n = run_frames::load(&rt, &errors, path, &mut buffer)?;
        run(&rt, &buffer[..n], &mut table)?;
    }
    Ok(())
}
