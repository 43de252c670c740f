// What elements of the laid-out tree hold, as parts of the message; the text of a leaf, and the number that the text says.
#![tactic(auto)]

ghost use Rattle.std.specs.Prelude.{◌≡◌, true, ℕ, ◌<◌, ◌^◌};
ghost use Rattle.paper.specs.Bytes.{bytes};
ghost use Rattle.paper.specs.Form.{Head, Element};
ghost use Rattle.paper.specs.Values.{number, cents, digits, money};
ghost use Rattle.paper.specs.Payments.{text_of};
ghost use Rattle.tree.specs.Laid.{between, Entry, LaidAt};

use tree::Tree;

// The message and its tree stay two parameters: one message is at work here, in a struct each contract would say `message.entry.bytes.now` for `s.now`,
// and a part that is handed back lives as long as the message, not the tree.

// A part of the message, as much of it as there is.
// (The empty part, and no Option, where there is none: what is held is promised as bytes.)
fn part(s: &[u8], from: usize, to: usize) -> &[u8]
    ensures { result.now ≡ between from to s.now }
{
    s.get(from..to.min(s.len())).unwrap_or(&[])
}

// What element i holds, as it stands in the message.
pub fn held<'a>(s: &'a [u8], tree: &Tree, i: usize) -> &'a [u8]
    ensures { (h : Head) (next : ℕ) → Entry s.now tree.now i h next → result.now ≡ between h.start h.close s.now }
{
    part(s, tree::cell(tree, i, 2), tree::cell(tree, i, 3))
}

// The currency of element i, an amount: three bytes of its start tag, `<InstdAmt Ccy="EUR">`.
pub fn currency<'a>(s: &'a [u8], tree: &Tree, i: usize) -> &'a [u8]
    ensures { (h : Head) (next : ℕ) → Entry s.now tree.now i h next → h.name ≡ bytes "InstdAmt" → result.now ≡ h.currency }
{
    let at = tree::cell(tree, i, 0);
    if s.len() <= at {
        return &[];
    }
    part(s, at + 15, at + 18)
}

// The text that element i holds; the empty part where it holds elements.
pub fn text<'a>(s: &'a [u8], tree: &Tree, i: usize) -> &'a [u8]
    ensures { (t : Element) → LaidAt s.now tree.now i t → result.now ≡ text_of t }
{
    let next = tree::cell(tree, i, 4);
    if next <= i {
        return &[];
    }
    if next - i != 1 {
        return &[];
    }
    held(s, tree, i)
}

// The number of the count that element i holds. (Beside `cents_at`, and no generic one: what is read, and where it is read right, is another rule for each.)
// (A number, and no Option, where it is no count: a caller that keeps the condition never sees it. So it is with `cents_at`.)
pub fn count_at(s: &[u8], tree: &Tree, i: usize) -> u64
    ensures { (t : Element) → LaidAt s.now tree.now i t → digits 1 15 (text_of t) ≡ true → result ≡ number (text_of t) }
{
    leaf_numbers::count_number(text(s, tree, i)).unwrap_or(0)
}

// The cents of the money that element i holds; below 10^17 whatever is given.
pub fn cents_at(s: &[u8], tree: &Tree, i: usize) -> u64
    ensures { (result < 10 ^ 17) × ((t : Element) → LaidAt s.now tree.now i t → money (text_of t) ≡ true → result ≡ cents (text_of t)) }
{
    leaf_money::money_cents(text(s, tree, i)).unwrap_or(0)
}
