// BICs. A text is a part of the message.
#![tactic(auto)]

ghost use Rattle.std.specs.Prelude.{◌≡◌};
ghost use Rattle.paper.specs.Values.{bic};

// Row 31: four capitals or digits, two capitals, two or five capitals or digits; never `NOTPROVIDED`.
#[tactic(auto, using(leaf_texts::proofs::Laws::shaped_is), unfolding(paper::specs::Values::bic, paper::specs::Bytes::bytes))]
pub fn bic(s: &[u8]) -> bool
    ensures { result ≡ bic s.now }
{
    let is_shaped = leaf_texts::shaped(b"XXXXAAXX", s) || leaf_texts::shaped(b"XXXXAAXXXXX", s);
    is_shaped && !leaf_texts::same(s, b"NOTPROVIDED")
}
