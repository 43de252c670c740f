// Money, in cents. A text is a part of the message.
#![tactic(auto)]

ghost use Rattle.std.specs.Prelude.{◌≡◌, ◌<◌, ◌*◌, length, take, ◌++◌};
ghost use Rattle.paper.specs.Bytes.{bytes};
ghost use Rattle.paper.specs.Values.{number, before_point, money, amount};
ghost use Rattle.leaf_numbers.specs.Readings.{in_cents};

// Where the point stands; the length, and no None, where there is none: that of what stands before it.
fn point(s: &[u8]) -> usize
    ensures { result ≡ length (before_point s.now) }
{
    s.iter().position(|&b| b == b'.').unwrap_or(s.len())
}

// The two digits behind the point, zeros where they are not written.
fn hundredths(s: &[u8]) -> u64
    ensures { (result ≡ number (take 2 (s.now ++ bytes "00"))) × (result < 3000) }
{
    match s {
        [] => 0,
        [tenths] => leaf_numbers::above(b'0', *tenths) * 10,
        [tenths, hundredths, ..] => {
            leaf_numbers::above(b'0', *tenths) * 10 + leaf_numbers::above(b'0', *hundredths)
        }
    }
}

// Rows 7, 15, 42: money in cents.
pub fn money_cents(s: &[u8]) -> Option<u64>
    ensures { result ≡ in_cents s.now }
{
    let p = point(s);
    let euros = leaf_numbers::count_number(&s[..p])?;
    if p == s.len() {
        return Some(euros * 100);
    }
    let behind = &s[p + 1..];
    if !leaf_numbers::digits(1, 2, behind) {
        return None;
    }
    Some(euros * 100 + hundredths(behind))
}

pub fn money(s: &[u8]) -> bool
    ensures { result ≡ money s.now }
{
    money_cents(s).is_some()
}

// Row 42 lies from 0.01 to 999999999.99.
pub fn amount(s: &[u8]) -> bool
    ensures { result ≡ amount s.now }
{
    money_cents(s).is_some_and(|cents| leaf_numbers::lies_from(1, 99999999999, cents))
}
