// Runs `verdict_reader::field` and `move_regrouping::differing` over the files `cases` and `archived`, and writes for each answer the length and the bytes of what is handed back.
// Messages of the second file, and the first ones of its regroupings, are archived.
// A case is `F` with name, profile (1 is the instant one), payment, first and last field and message, which asks for each of these fields; or `D` with name, profile, first, second
// and list, which asks for the second regrouped from the first and for the first regrouped from the second; and a line feed.
#![tactic(auto)]

use paper::Profile;
use std::io;
use verdict_answers::OfRegrouping;

// What a case asks for.
#[derive(Clone, Copy)]
enum Asked<'a> {
    Fields {
        message: &'a [u8],
        payment: usize,
        first: usize,
        last: usize,
    },
    Regroupings {
        first: &'a [u8],
        second: &'a [u8],
        list: &'a [u8],
    },
}

#[derive(Clone, Copy)]
struct Case<'a> {
    name: &'a [u8],
    profile: Profile,
    asked: Asked<'a>,
}

// The fields that are asked for at an offset, and the offset of the next case.
fn fields_at(s: &[u8], at: usize) -> (Asked<'_>, usize) {
    let payment = run_frames::number_at(s, at);
    let first = run_frames::number_at(s, payment.next);
    let last = run_frames::number_at(s, first.next);
    let message = run_frames::part_at(s, last.next);
    let next = message.end + 2;
    let asked = Asked::Fields {
        message: &s[message],
        payment: payment.value,
        first: first.value,
        last: last.value,
    };
    (asked, next)
}

// The regroupings that are asked for at an offset, and the offset of the next case.
// (`published` reads the same three parts: one for both would be public, with a promise and wrong programs, for five lines.)
fn regroupings_at(s: &[u8], at: usize) -> (Asked<'_>, usize) {
    let first = run_frames::part_at(s, at);
    let second = run_frames::part_at(s, first.end + 1);
    let list = run_frames::part_at(s, second.end + 1);
    let next = list.end + 2;
    let asked = Asked::Regroupings {
        first: &s[first],
        second: &s[second],
        list: &s[list],
    };
    (asked, next)
}

// The case at an offset, if one begins there, and the offset of the next.
fn case_at(s: &[u8], archived: bool, at: usize) -> Option<(Case<'_>, usize)> {
    let kind = *s.get(at)?;
    let name = run_frames::part_at(s, at + 1);
    let number = run_frames::number_at(s, name.end + 1);
    let (asked, next) = match kind {
        b'D' => regroupings_at(s, number.next),
        _ => fields_at(s, number.next),
    };
    let case = Case {
        name: &s[name],
        profile: Profile {
            instant: number.value == 1,
            archived,
        },
        asked,
    };
    Some((case, next))
}

// `8 "Study 12"`
fn quoted(rt: &impl Print, s: &[u8]) -> io::Result<()> {
    print!(rt; "{} \"", s.len())?;
    run_printing::text(rt, s)?;
    print!(rt; "\"")
}

// What is handed back of a field that differs, and the answer.
fn regrouping_line(
    rt: &impl Print,
    profile: Profile,
    first: &[u8],
    second: &[u8],
    list: &[u8],
) -> io::Result<()> {
    quoted(rt, move_regrouping::differing(profile, first, second, list))?;
    print!(rt; " ")?;
    let answer = move_regrouping::regroup(profile, first, second, list);
    run_printing::regrouping(rt, OfRegrouping::from(answer))
}

// The lines of a case: each field that it asks for; or the second message regrouped from the first, and the first from the second.
fn answers(rt: &impl Print, case: Case<'_>) -> io::Result<()> {
    let Case {
        name,
        profile,
        asked,
    } = case;
    match asked {
        Asked::Fields {
            message,
            payment,
            first,
            last,
        } => {
            for field in first..=last {
                run_printing::text(rt, name)?;
                print!(rt; ", payment {payment}, field {field}: ")?;
                quoted(rt, verdict_reader::field(profile, message, payment, field))?;
                println!(rt)?;
            }
            Ok(())
        }
        Asked::Regroupings {
            first,
            second,
            list,
        } => {
            run_printing::text(rt, name)?;
            print!(rt; ": ")?;
            regrouping_line(rt, profile, first, second, list)?;
            run_printing::text(rt, name)?;
            print!(rt; ", back: ")?;
            regrouping_line(rt, profile, second, first, list)
        }
    }
}

// The first 10000 cases of a file. (`run_form` says why each program has such a loop of its own.)
fn run(rt: &impl Print, archived: bool, s: &[u8]) -> io::Result<()> {
    let mut at = 0;
    for _ in 0..10000 {
        let Some((case, next)) = case_at(s, archived, at) else {
            break;
        };
        answers(rt, case)?;
        at = next;
    }
    Ok(())
}

fn main(rt: HostRuntime) -> io::Result<()> {
    let errors = rt.stderr();
    let mut buffer = [0u8; 262144];
    let files: [(&[u8], bool); 2] = [(b"cases", false), (b"archived", true)];
    for (path, archived) in files {
        let n = run_frames::load(&rt, &errors, path, &mut buffer)?;
        run(&rt, archived, &buffer[..n])?;
    }
    Ok(())
}
