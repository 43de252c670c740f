// The ranks of bytes (specs/Ranks.antt), so ordered that each class of bytes is those from one rank to another: 0 no text, 1 text, 2 tab and line ends, 3 space,
// 4 punctuation of the characters of values, 5 digit, 6 small letter, 7 capital.
#![tactic(auto)]

ghost use Rattle.std.specs.Prelude.{◌≡◌};
ghost use Rattle.paper.specs.Bytes.{white};
ghost use Rattle.paper.specs.Values.{lies_from};
ghost use Rattle.form_ranks.specs.Ranks.{rank, RanksAre};

// Ranks are numbers and no enum: callers lend them, and give the lowest and the highest of a class as numbers, 255 among them, so an enum would be narrower.
// The rank of each byte, sixteen a line. A const table is made anew wherever it is used: make it once, and lend it.
// No type carries the fact `RanksAre`: `rank` and the scans answer for any table that is lent (docs/PROMISES.md), and such a type would ask more of their callers.
pub type Ranks = [u8; 256];

const RANKS: Ranks = *b"\
    \x00\x00\x00\x00\x00\x00\x00\x00\x00\x02\x02\x00\x00\x02\x00\x00\
    \x00\x00\x00\x00\x00\x00\x00\x00\x00\x00\x00\x00\x00\x00\x00\x00\
    \x03\x01\x01\x01\x01\x01\x00\x04\x04\x04\x01\x04\x04\x04\x04\x04\
    \x05\x05\x05\x05\x05\x05\x05\x05\x05\x05\x04\x01\x00\x01\x01\x04\
    \x01\x07\x07\x07\x07\x07\x07\x07\x07\x07\x07\x07\x07\x07\x07\x07\
    \x07\x07\x07\x07\x07\x07\x07\x07\x07\x07\x07\x01\x01\x01\x01\x01\
    \x01\x06\x06\x06\x06\x06\x06\x06\x06\x06\x06\x06\x06\x06\x06\x06\
    \x06\x06\x06\x06\x06\x06\x06\x06\x06\x06\x06\x01\x01\x01\x01\x01\
    \x01\x01\x01\x01\x01\x01\x01\x01\x01\x01\x01\x01\x01\x01\x01\x01\
    \x01\x01\x01\x01\x01\x01\x01\x01\x01\x01\x01\x01\x01\x01\x01\x01\
    \x01\x01\x01\x01\x01\x01\x01\x01\x01\x01\x01\x01\x01\x01\x01\x01\
    \x01\x01\x01\x01\x01\x01\x01\x01\x01\x01\x01\x01\x01\x01\x01\x01\
    \x01\x01\x01\x01\x01\x01\x01\x01\x01\x01\x01\x01\x01\x01\x01\x01\
    \x01\x01\x01\x01\x01\x01\x01\x01\x01\x01\x01\x01\x01\x01\x01\x01\
    \x01\x01\x01\x01\x01\x01\x01\x01\x01\x01\x01\x01\x01\x01\x01\x01\
    \x01\x01\x01\x01\x01\x01\x01\x01\x01\x01\x01\x01\x01\x01\x01\x01\
";

pub fn ranks() -> Ranks
    ensures { RanksAre result }
{
    RANKS
}

pub fn rank(ranks: &Ranks, b: u8) -> u8
    ensures { RanksAre ranks.now → result ≡ rank b }
{
    ranks[usize::from(b)]
}

// The rank of a byte lies from low to high.
// (Two comparisons are as plain as `contains`.)
pub fn ranked(ranks: &Ranks, b: u8, low: u8, high: u8) -> bool
    ensures { RanksAre ranks.now → result ≡ lies_from low high (rank b) }
{
    let r = rank(ranks, b);
    low <= r && r <= high
}

pub fn is_white(ranks: &Ranks, b: u8) -> bool
    ensures { RanksAre ranks.now → result ≡ white b }
{
    ranked(ranks, b, 2, 3)
}
