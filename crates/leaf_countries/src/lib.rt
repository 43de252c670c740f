// The countries of IBANs, each with the whole length of its accounts.
#![tactic(auto)]

ghost use Rattle.std.specs.Prelude.{◌≡◌};
ghost use Rattle.paper.specs.Values.{countries};
ghost use Rattle.paper.specs.Refusals.{among_texts};
ghost use Rattle.leaf_countries.specs.Letters.{letters_of};

// The country's letters go with this whole length.
#[tactic(auto, unfolding(crate::specs::Letters::letters_of, paper::specs::Values::countries, paper::specs::Values::country, paper::specs::Bytes::bytes, paper::specs::Refusals::among_texts))]
pub fn country(letters: &[u8], size: usize) -> bool
    ensures { result ≡ among_texts letters.now (letters_of countries size) }
{
    match size {
        16 => leaf_texts::same(letters, b"BE"),
        18 => leaf_texts::either(letters, b"FI", b"NL"),
        20 => leaf_texts::either(letters, b"AT", b"LU"),
        22 => leaf_texts::either(letters, b"DE", b"IE"),
        24 => leaf_texts::same(letters, b"ES"),
        25 => leaf_texts::same(letters, b"PT"),
        27 => leaf_texts::same(letters, b"FR") || leaf_texts::either(letters, b"GR", b"IT"),
        _ => false,
    }
}
