// Elements of two payments that may be absent, compared: by their texts, by the text that absence means, in cents; and remittance (field 17).
#![tactic(auto)]

ghost use Rattle.std.specs.Prelude.{◌≡◌, true, List, ℕ, ◌∷◌, MatchOption};
ghost use Rattle.std.proofs.Math.Option.{Option, none};
ghost use Rattle.paper.specs.Bytes.{every};
ghost use Rattle.paper.specs.Form.{Element};
ghost use Rattle.paper.specs.Payments.{Payment, in_payment};
ghost use Rattle.paper.specs.Fields.{absent, a_text, in_cents, text_value, text_value_or, cents_value, remittance_value, same_value};
ghost use Rattle.form_names.specs.Names.{is_sought};
ghost use Rattle.tree_routes.specs.Finds.{Finds, ByName, rows_in};
ghost use Rattle.tree_leaves.specs.Readable.{ReadMoney};
ghost use Rattle.move_alike.specs.Alike.{free_of, issuer_of, reference_of};

use tree::Tree;
use tree_routes::Children;

// A message, and the tree in which its elements are laid out.
#[derive(Clone, Copy)]
pub struct Side<'a> {
    pub bytes: &'a [u8],
    pub tree: &'a Tree,
}

impl<'a> Side<'a> {
    // The text of an element that may be absent.
    fn text(self, found: Option<usize>) -> Option<&'a [u8]>
        ensures { (o : Option Element) → Finds self.entry.bytes.now self.entry.tree.now o found
            → MatchOption result (text_value o ≡ absent) (λ w. text_value o ≡ a_text w.now) }
    {
        Some(tree_leaves::text(self.bytes, self.tree, found?))
    }

    // The cents of an amount that may be absent.
    fn cents(self, found: Option<usize>) -> Option<u64>
        ensures { (o : Option Element) → Finds self.entry.bytes.now self.entry.tree.now o found → ReadMoney o
            → MatchOption result (cents_value o ≡ absent) (λ n. cents_value o ≡ in_cents n) }
    {
        Some(tree_leaves::cents_at(self.bytes, self.tree, found?))
    }
}

// Two elements that may be absent have the same text, where absence means this text.
pub fn same_or(
    one: Side,
    found1: Option<usize>,
    other: Side,
    found2: Option<usize>,
    otherwise: &[u8],
) -> bool
    ensures { (o u : Option Element) → Finds one.entry.bytes.now one.entry.tree.now o found1 → Finds other.entry.bytes.now other.entry.tree.now u found2
        → result ≡ same_value (text_value_or otherwise.now o) (text_value_or otherwise.now u) }
{
    one.text(found1).unwrap_or(otherwise) == other.text(found2).unwrap_or(otherwise)
}

// Both are absent, or both are there with the same text.
// (It and `same_cents` stay two: each is one line, and promised by name. An element found stays beside its message: a struct would be taken apart at once.)
pub fn same_given(one: Side, found1: Option<usize>, other: Side, found2: Option<usize>) -> bool
    ensures { (o u : Option Element) → Finds one.entry.bytes.now one.entry.tree.now o found1 → Finds other.entry.bytes.now other.entry.tree.now u found2
        → result ≡ same_value (text_value o) (text_value u) }
{
    one.text(found1) == other.text(found2)
}

// Both amounts are absent, or both are there with the same number of cents.
pub fn same_cents(one: Side, found1: Option<usize>, other: Side, found2: Option<usize>) -> bool
    ensures { (o u : Option Element) → Finds one.entry.bytes.now one.entry.tree.now o found1 → Finds other.entry.bytes.now other.entry.tree.now u found2
        → ReadMoney o → ReadMoney u → result ≡ same_value (cents_value o) (cents_value u) }
{
    one.cents(found1) == other.cents(found2)
}

// What a route leads to in remittance, row 48 of a payment.
fn remittance(tree: &Tree, own: &Children, route: &[u16]) -> Option<usize>
    ensures { (s : List ℕ) (p : Payment) → every is_sought (rows_in route.now) ≡ true → ByName s tree.now p.own own.now
        → Finds s tree.now (in_payment (48 ∷ rows_in route.now) p) result }
{
    tree_routes::follow(tree, tree_routes::first(own, 48), route)
}

// Remittance: the free text, the issuer, the reference.
const FREE: [u16; 1] = [49];

const ISSUER: [u16; 4] = [50, 51, 52, 54];

const REFERENCE: [u16; 3] = [50, 51, 55];

// Field 17 where neither has a free text: the reference and its issuer.
fn same_structured(one: Side, own1: &Children, other: Side, own2: &Children) -> bool
    ensures { (p q : Payment) → ByName one.entry.bytes.now one.entry.tree.now p.own own1.now
        → ByName other.entry.bytes.now other.entry.tree.now q.own own2.now
        → result ≡ same_value (remittance_value none (issuer_of p) (reference_of p)) (remittance_value none (issuer_of q) (reference_of q)) }
{
    let reference1 = remittance(one.tree, own1, &REFERENCE);
    let reference2 = remittance(other.tree, own2, &REFERENCE);
    if !same_given(one, reference1, other, reference2) {
        return false;
    }
    if reference1.is_none() {
        return true;
    }
    let issuer1 = remittance(one.tree, own1, &ISSUER);
    let issuer2 = remittance(other.tree, own2, &ISSUER);
    same_given(one, issuer1, other, issuer2)
}

// Field 17: its kind with its text, or with issuer and reference.
pub fn same_remittance(one: Side, own1: &Children, other: Side, own2: &Children) -> bool
    ensures { (p q : Payment) → ByName one.entry.bytes.now one.entry.tree.now p.own own1.now
        → ByName other.entry.bytes.now other.entry.tree.now q.own own2.now
        → result ≡ same_value (remittance_value (free_of p) (issuer_of p) (reference_of p)) (remittance_value (free_of q) (issuer_of q) (reference_of q)) }
{
    let free1 = remittance(one.tree, own1, &FREE);
    let free2 = remittance(other.tree, own2, &FREE);
    match (free1, free2) {
        (None, None) => same_structured(one, own1, other, own2),
        _ => same_given(one, free1, other, free2),
    }
}
