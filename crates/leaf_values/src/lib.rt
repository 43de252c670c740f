// What a value may be: refusals 6, 7 and 8 for one leaf.
#![tactic(auto)]

ghost use Rattle.std.specs.Prelude.{◌≡◌, ◌&&◌, [], ◌∷◌, eqb, if◌then◌else◌};
ghost use Rattle.paper.specs.Bytes.{bytes, same, value_character, Every};
ghost use Rattle.paper.specs.Values.{among, right_for, amount};
ghost use Rattle.paper.specs.Refusals.{first_not};
ghost use Rattle.leaf_values.specs.Judgements.{Judges};

// Why a leaf's text is refused; specs/Judgements.antt gives the paper's refusal for each case.
#[derive(Clone, Copy)]
pub enum Unfit {
    EmptyOrTooLong,
    NotInTheSet { at: usize },
    NotAllowed,
}

// Row 19: SEPA, and under row 53 SCOR.
#[tactic(auto, unfolding(paper::specs::Bytes::bytes))]
fn service(parent: usize, s: &[u8]) -> bool
    ensures { result ≡ same s.now (if eqb parent 53 then bytes "SCOR" else bytes "SEPA") }
{
    if parent == 53 {
        leaf_texts::same(s, b"SCOR")
    } else {
        leaf_texts::same(s, b"SEPA")
    }
}

// Row 42: the amount and its currency.
#[tactic(auto, unfolding(paper::specs::Bytes::bytes))]
fn amount_in(currency: &[u8], s: &[u8]) -> bool
    ensures { result ≡ (amount s.now && same currency.now (bytes "EUR")) }
{
    leaf_money::amount(s) && leaf_texts::same(currency, b"EUR")
}

// Rows without a rule of their own: names, free text, issuers, references.
#[tactic(auto, unfolding(paper::specs::Values::among))]
fn is_free(row: usize) -> bool
    ensures { result ≡ among row (9 ∷ 25 ∷ 35 ∷ 49 ∷ 54 ∷ 55 ∷ []) }
{
    matches!(row, 9 | 25 | 35 | 49 | 54 | 55)
}

// The rule of the leaf's row.
#[tactic(auto, unfolding(paper::specs::Bytes::bytes, paper::specs::Values::right_for, paper::specs::Values::among))]
fn right_for(parent: usize, row: usize, currency: &[u8], s: &[u8]) -> bool
    ensures { result ≡ right_for parent row currency.now s.now }
{
    match row {
        4 | 11 | 39 | 40 => leaf_identifiers::id(s),
        12 => leaf_texts::same(s, b"TRF"),
        13 => leaf_texts::either(s, b"true", b"false"),
        17 => leaf_texts::either(s, b"NORM", b"HIGH"),
        19 => service(parent, s),
        33 => leaf_texts::same(s, b"NOTPROVIDED"),
        36 => leaf_texts::same(s, b"SLEV"),
        21 => leaf_identifiers::purpose(s),
        23 => leaf_days::date(s),
        5 => leaf_days::date_and_time(s),
        57 => leaf_texts::same(s, b"INST"),
        58 => leaf_days::date_time_zone(s),
        6 | 14 => leaf_numbers::count(s),
        7 | 15 => leaf_money::money(s),
        42 => amount_in(currency, s),
        31 => leaf_bics::bic(s),
        28 => leaf_accounts::iban(s),
        _ => is_free(row),
    }
}

// The place of the first character that is not in the set; the length where there is none, as `first_not` of the definitions. Where it is known that the text is of the characters of values
// alone (3, crates/tree/specs/Laid.antt), they are not looked at again. What is known stays a number, as the tree holds it and `leaf` takes it: an enum would be narrower.
fn first_outside(s: &[u8], known: usize) -> usize
    ensures { (known ≡ 3 → Every value_character s.now) → result ≡ first_not value_character s.now }
{
    if known == 3 {
        return s.len();
    }
    leaf_characters::first_outside(s)
}

// One leaf, tried 6, 7, 8: empty or too long; a character not in the set, with its place in the text; a value not allowed.
pub fn leaf(
    parent: usize,
    row: usize,
    longest: usize,
    currency: &[u8],
    s: &[u8],
    known: usize,
) -> Result<(), Unfit>
    ensures { (known ≡ 3 → Every value_character s.now) → Judges parent row longest currency.now s.now result }
{
    if s.is_empty() || longest < s.len() {
        return Err(Unfit::EmptyOrTooLong);
    }
    let at = first_outside(s, known);
    if at < s.len() {
        return Err(Unfit::NotInTheSet { at });
    }
    if leaf_characters::spaces_alone(s) || !right_for(parent, row, currency, s) {
        return Err(Unfit::NotAllowed);
    }
    Ok(())
}
