// Parts of the written form, read from an offset on: white space, names, text, fixed bytes, tags.
#![tactic(auto)]

ghost use Rattle.std.specs.Prelude.{◌≡◌, Bool, true, false, List, ℕ, ◌+◌, ◌≤◌, ◌<◌, length, get_or};
ghost use Rattle.paper.specs.Bytes.{bytes, letter_or_digit};
ghost use Rattle.paper.specs.declared.Fault.TheVariants.{NotOfTheForm};
ghost use Rattle.paper.specs.Form.{end_tag};
ghost use Rattle.paper.specs.Computed.Reading.{naming};
ghost use Rattle.form_ranks.specs.Ranks.{RanksAre};
ghost use Rattle.form_names.specs.Names.{name_number};
ghost use Rattle.form_scans.specs.Scans.{Word, Opened, Ranked, IsClass, Run, White, Name, Values, Text, CapitalAt, Capitals, opens_currency};

use form_ranks::Ranks;
use paper::Fault;

// The message stops at an offset: its byte there cannot be.
#[derive(Clone, Copy)]
pub struct Stop {
    pub at: usize,
}

impl From<Stop> for Fault {
    ghost from_gives = { λ stop fault. fault ≡ NotOfTheForm stop.at };

    fn from(stop: Stop) -> Fault {
        Fault::NotOfTheForm { offset: stop.at }
    }
}

// Some part of the message was read to an offset, or the message stops.
pub type Scan = Result<usize, Stop>;

// `s` and `ranks` stay parameters: the public functions take them so, for any table (docs/PROMISES.md), and call one or two private ones.

// Four bytes stand at an offset whose ranks lie from low to high.
fn four_ranked(s: &[u8], ranks: &Ranks, at: usize, low: u8, high: u8) -> bool
    requires { at + 4 ≤ length s.now }
    ensures { RanksAre ranks.now → result ≡ true → Ranked s.now at (at + 4) low high }
{
    form_ranks::ranked(ranks, s[at], low, high)
        && form_ranks::ranked(ranks, s[at + 1], low, high)
        && form_ranks::ranked(ranks, s[at + 2], low, high)
        && form_ranks::ranked(ranks, s[at + 3], low, high)
}

// The bytes from an offset on whose ranks lie from low to high, up to another offset at most: often none, so the first by itself, and then four at a time.
fn run_end(s: &[u8], ranks: &Ranks, at: usize, stop: usize, low: u8, high: u8) -> usize
    requires { (at ≤ stop) × (stop ≤ length s.now) }
    ensures { RanksAre ranks.now → (class : ℕ → Bool) → IsClass class low high → Run s.now at stop class result }
{
    if at == stop || !form_ranks::ranked(ranks, s[at], low, high) {
        return at;
    }
    let mut from = at + 1;
    for _ in 0..(stop - from) / 4 {
        if !four_ranked(s, ranks, from, low, high) {
            break;
        }
        from += 4;
    }
    for i in from..stop {
        if !form_ranks::ranked(ranks, s[i], low, high) {
            return i;
        }
    }
    stop
}

// Four ends by one walk, `run_end`, and not one generic function: their contracts (White, Name, Values, Text) say different things.
// The white space at an offset ends at the first other byte.
pub fn white_end(s: &[u8], ranks: &Ranks, at: usize) -> usize
    ensures { RanksAre ranks.now → at ≤ length s.now → White s.now at result }
{
    if s.len() < at {
        return at;
    }
    run_end(s, ranks, at, s.len(), 2, 3)
}

// The name that begins with the letter at an offset ends at the first byte that is no letter or digit, or is its 33rd.
pub fn name_end(s: &[u8], ranks: &Ranks, at: usize) -> usize
    ensures { RanksAre ranks.now → at < length s.now → Name s.now at result }
{
    if s.len() <= at {
        return at;
    }
    if s.len() - at < 32 {
        return run_end(s, ranks, at + 1, s.len(), 5, 255);
    }
    run_end(s, ranks, at + 1, at + 32, 5, 255)
}

// The characters of values at an offset end at the first other byte.
pub fn value_end(s: &[u8], ranks: &Ranks, at: usize) -> usize
    ensures { RanksAre ranks.now → at ≤ length s.now → Values s.now at result }
{
    if s.len() < at {
        return at;
    }
    run_end(s, ranks, at, s.len(), 3, 255)
}

// Text ends at the first other byte.
pub fn text_end(s: &[u8], ranks: &Ranks, at: usize) -> usize
    ensures { RanksAre ranks.now → at ≤ length s.now → Text s.now at result }
{
    if s.len() < at {
        return at;
    }
    run_end(s, ranks, at, s.len(), 1, 255)
}

// These very bytes. (`p` goes along by itself: `at + i` of any `at` might pass what a number holds.)
pub fn word(s: &[u8], at: usize, w: &[u8]) -> Scan
    ensures { at ≤ length s.now → Word s.now at w.now result }
{
    let mut p = at;
    for b in w {
        if s.len() <= p {
            return Err(Stop { at: p });
        }
        if s[p] != *b {
            return Err(Stop { at: p });
        }
        p += 1;
    }
    Ok(p)
}

// An end tag.
pub fn end_tag(s: &[u8], name: &[u8], at: usize) -> Scan
    ensures { at ≤ length s.now → Word s.now at (end_tag name.now) result }
{
    let p = word(s, at, b"</")?;
    let q = word(s, p, name)?;
    word(s, q, b">")
}

// Whether a capital stands at an offset.
fn capital_at(s: &[u8], ranks: &Ranks, at: usize) -> bool
    ensures { RanksAre ranks.now → CapitalAt s.now at result }
{
    at < s.len() && 7 <= form_ranks::rank(ranks, s[at])
}

// The letters of a currency.
fn three_capitals(s: &[u8], ranks: &Ranks, at: usize) -> Scan
    requires { at ≤ length s.now }
    ensures { RanksAre ranks.now → Capitals s.now at result }
{
    for k in at..at + 3 {
        if !capital_at(s, ranks, k) {
            return Err(Stop { at: k });
        }
    }
    Ok(at + 3)
}

// The start tag of an amount, behind `<InstdAmt `.
fn currency(s: &[u8], ranks: &Ranks, at: usize) -> Scan
    requires { at ≤ length s.now }
    ensures { RanksAre ranks.now → (depth lt : ℕ) → at ≡ lt + 10
        → Opened s.now at (bytes "InstdAmt") depth lt (opens_currency depth lt) result }
{
    let p = word(s, at, b"Ccy=\"")?;
    let q = three_capitals(s, ranks, p)?;
    word(s, q, b"\">")
}

// A start tag behind its name, of which the number is known.
pub fn tag_end(s: &[u8], ranks: &Ranks, number: usize, at: usize) -> Scan
    ensures { RanksAre ranks.now → at < length s.now → letter_or_digit (get_or s.now at 0) ≡ false
        → (name : List ℕ) (depth lt room : ℕ) → number ≡ name_number name → at ≡ lt + 1 + length name
        → Opened s.now at name depth lt (naming depth lt name room) result }
{
    let Some(&byte) = s.get(at) else {
        return Err(Stop { at });
    };
    match byte {
        b'>' if number != 42 => Ok(at + 1),
        b' ' if number == 42 => currency(s, ranks, at + 1),
        _ => Err(Stop { at }),
    }
}
