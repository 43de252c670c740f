// Texts compared with shapes and with one another. A text is a part of the message.
#![tactic(auto)]

ghost use Rattle.std.specs.Prelude.{◌≡◌, true, ◌&&◌, ◌||◌, leb, ◌≤◌, length, get_or};
ghost use Rattle.std.specs.Cmp.Lexicographic.{pointwise};
ghost use Rattle.paper.specs.Bytes.{capital, digit, capital_or_digit, every, same};
ghost use Rattle.leaf_texts.specs.Shapes.{fits_byte};

// The byte lies from low to high. (`leaf_numbers::lies_from` says it of numbers, by a test of the definitions; both are the library's `contains`,
// and promised by name.)
pub fn between(low: u8, high: u8, b: u8) -> bool
    ensures { result ≡ (leb low b && leb b high) }
{
    (low..=high).contains(&b)
}

#[tactic(auto, unfolding(paper::specs::Bytes::digit, paper::specs::Bytes::from_to))]
pub fn digit(b: u8) -> bool
    ensures { result ≡ digit b }
{
    between(b'0', b'9', b)
}

#[tactic(auto, unfolding(paper::specs::Bytes::capital, paper::specs::Bytes::from_to))]
fn capital(b: u8) -> bool
    ensures { result ≡ capital b }
{
    between(b'A', b'Z', b)
}

#[tactic(auto, unfolding(paper::specs::Bytes::capital_or_digit))]
pub fn capital_or_digit(b: u8) -> bool
    ensures { result ≡ capital_or_digit b }
{
    capital(b) || digit(b)
}

// The byte fits one character of a shape: `0` is any digit, `A` any capital, `X` any capital or digit, every other itself.
#[tactic(auto, unfolding(crate::specs::Shapes::fits_byte, paper::specs::Bytes::is))]
fn fits_byte(shape: u8, b: u8) -> bool
    ensures { result ≡ fits_byte shape b }
{
    match shape {
        b'0' => digit(b),
        b'A' => capital(b),
        b'X' => capital_or_digit(b),
        _ => b == shape,
    }
}

// Every byte fits this character of a shape.
// (A class is told by a character, and no enum or closure: a shape is a text of them, and callers give any byte.)
pub fn every(shape: u8, s: &[u8]) -> bool
    ensures { result ≡ every (fits_byte shape) s.now }
{
    s.iter().all(|&b| fits_byte(shape, b))
}

// The text fits a whole shape.
pub fn shaped(shape: &[u8], s: &[u8]) -> bool
    ensures { result ≡ pointwise fits_byte shape.now s.now }
{
    s.len() == shape.len() && shape.iter().zip(s).all(|(&c, &b)| fits_byte(c, b))
}

// The two texts are equal, byte for byte.
// Stays beside `==`: it is promised by name (docs/PROMISES.md).
#[tactic(auto, using(crate::proofs::Laws::same_is))]
pub fn same(s: &[u8], t: &[u8]) -> bool
    ensures { result ≡ same s.now t.now }
{
    s == t
}

// The text is the one or the other.
pub fn either(s: &[u8], one: &[u8], other: &[u8]) -> bool
    ensures { result ≡ (same s.now one.now || same s.now other.now) }
{
    same(s, one) || same(s, other)
}

// The byte at a place, 0 past the end.
// (No Option: it is promised as a number.)
pub fn byte_at(s: &[u8], i: usize) -> u8
    ensures { result ≡ get_or s.now i 0 }
{
    s.get(i).copied().unwrap_or(0)
}
