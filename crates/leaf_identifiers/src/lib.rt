// Ids, by the slash rule, and purpose codes. A text is a part of the message.
#![tactic(auto)]

ghost use Rattle.std.specs.Prelude.{◌≡◌};
ghost use Rattle.paper.specs.Values.{two_slashes, id, purpose};

fn two_slashes(s: &[u8]) -> bool
    ensures { result ≡ two_slashes s.now }
{
    s.iter()
        .zip(s.iter().skip(1))
        .any(|(&a, &b)| a == b'/' && b == b'/')
}

// Rows 4, 11, 39, 40: no `/` first or last, no `//`.
#[tactic(auto, using(crate::proofs::Slashes::slash_first, crate::proofs::Slashes::slash_last), unfolding(paper::specs::Values::id))]
pub fn id(s: &[u8]) -> bool
    ensures { result ≡ id s.now }
{
    !s.starts_with(b"/") && !s.ends_with(b"/") && !two_slashes(s)
}

// Row 21: one to four capitals or digits.
#[tactic(auto, unfolding(paper::specs::Values::purpose, paper::specs::Values::lies_from, leaf_texts::specs::Shapes::fits_byte, paper::specs::Bytes::is))]
pub fn purpose(s: &[u8]) -> bool
    ensures { result ≡ purpose s.now }
{
    (1..=4).contains(&s.len()) && leaf_texts::every(b'X', s)
}
