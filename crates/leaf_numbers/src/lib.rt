// Numbers that digits spell, and counts. A text is a part of the message.
#![tactic(auto)]

ghost use Rattle.std.specs.Prelude.{◌≡◌, ◌-◌, ◌<◌, ◌*◌};
ghost use Rattle.paper.specs.Values.{lies_from, number, count, digits};
ghost use Rattle.leaf_numbers.specs.Readings.{Spells, as_count};

// The number lies from low to high.
#[tactic(auto, unfolding(paper::specs::Values::lies_from))]
pub fn lies_from(low: u64, high: u64, n: u64) -> bool
    ensures { result ≡ lies_from low high n }
{
    (low..=high).contains(&n)
}

// How far the byte lies above the first of its kind; 0 where it lies below.
pub fn above(first: u8, b: u8) -> u64
    ensures { (result ≡ b - first) × (result < 256) }
{
    u64::from(b.saturating_sub(first))
}

// The number that the first fifteen bytes spell.
pub fn number(s: &[u8]) -> u64
    ensures { Spells s.now result }
{
    let first = &s[..s.len().min(15)];
    let mut n = 0;
    for &b in first {
        n = n * 10 + above(b'0', b);
    }
    n
}

// So many digits and nothing else.
#[tactic(auto, unfolding(paper::specs::Values::digits, paper::specs::Values::lies_from, leaf_texts::specs::Shapes::fits_byte, paper::specs::Bytes::is))]
pub fn digits(low: usize, high: usize, s: &[u8]) -> bool
    ensures { result ≡ digits low high s.now }
{
    (low..=high).contains(&s.len()) && leaf_texts::every(b'0', s)
}

// Rows 6, 14: digits; leading zeros allowed.
#[tactic(auto, unfolding(paper::specs::Values::count, leaf_texts::specs::Shapes::fits_byte, paper::specs::Bytes::is))]
pub fn count(s: &[u8]) -> bool
    ensures { result ≡ count s.now }
{
    !s.is_empty() && leaf_texts::every(b'0', s)
}

// The number of a count of at most fifteen digits.
pub fn count_number(s: &[u8]) -> Option<u64>
    ensures { result ≡ as_count s.now }
{
    digits(1, 15, s).then(|| number(s))
}
