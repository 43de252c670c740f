// The words that a program is started with.
#![tactic(auto)]

use paper::Profile;
use std::env::FillError;
use std::io;
use std::rt::Env;

// What a word says.
#[derive(Clone, Copy)]
enum Word {
    Instant,
    Archived,
    Unknown,
}

// Word i, where there is one: `archived`, or `instant` where that may be said; any other is said on standard error. (`may_name` stays a flag: it guards one pattern, which a closure
// would only repeat.)
fn word_at<R: Env>(
    rt: &R,
    errors: &impl Print,
    i: usize,
    may_name: bool,
) -> io::Result<Option<Word>> {
    let mut text = [0u8; 4096];
    let n = match rt.arg(i, &mut text) {
        Ok(n) => n,
        Err(FillError::NotPresent) => return Ok(None),
        Err(FillError::TooLong) => 0,
    };
    match &text[..n] {
        b"archived" => Ok(Some(Word::Archived)),
        b"instant" if may_name => Ok(Some(Word::Instant)),
        unknown => {
            errors.write_all(b"this word is not known: ")?;
            errors.write_all(unknown)?;
            errors.write_all(b"\n")?;
            Ok(Some(Word::Unknown))
        }
    }
}

// The profile that a program reads in by itself, or the instant one where its words may and do name it; none where a word is not known. The message is archived where they say so.
pub fn asked<R: Env>(
    rt: &R,
    errors: &impl Print,
    own: Profile,
    may_name: bool,
) -> io::Result<Option<Profile>> {
    let mut profile = own;
    for i in 1..usize::MAX {
        match word_at(rt, errors, i, may_name)? {
            Some(Word::Instant) => profile.instant = true,
            Some(Word::Archived) => profile.archived = true,
            Some(Word::Unknown) => return Ok(None),
            None => break,
        }
    }
    Ok(Some(profile))
}
