// The character set of values. A text is a part of the message.
#![tactic(auto)]

ghost use Rattle.std.specs.Prelude.{◌≡◌};
ghost use Rattle.paper.specs.Bytes.{value_character, is, every};
ghost use Rattle.paper.specs.Refusals.{first_not};

// The place of the first character that is not in the set; the length, and no None, where there is none, since that is what `first_not` of the definitions is.
pub fn first_outside(s: &[u8]) -> usize
    ensures { result ≡ first_not value_character s.now }
{
    let ranks = form_ranks::ranks();
    s.iter()
        .position(|&b| form_ranks::rank(&ranks, b) < 3)
        .unwrap_or(s.len())
}

#[tactic(auto, unfolding(leaf_texts::specs::Shapes::fits_byte, paper::specs::Bytes::is))]
pub fn spaces_alone(s: &[u8]) -> bool
    ensures { result ≡ every (is " ") s.now }
{
    leaf_texts::every(b' ', s)
}
