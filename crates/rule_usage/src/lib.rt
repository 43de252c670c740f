// Refusals 9 and 10: rows 16, 36 and 34 in a payment and in its block.
#![tactic(auto)]

ghost use Rattle.std.specs.Prelude.{◌≡◌, List, true, ℕ, ◌≤◌, length};
ghost use Rattle.paper.specs.Form.{Element};
ghost use Rattle.paper.specs.Payments.{Payment, payments as all_payments};
ghost use Rattle.paper.specs.Refusals.{in_both, in_neither, usage_of, usage_refusal};
ghost use Rattle.paper.specs.Answers.{refusal_found};
ghost use Rattle.form_names.specs.Names.{is_sought};
ghost use Rattle.tree.specs.Laid.{LaidAt};
ghost use Rattle.tree_routes.specs.Finds.{ByName};
ghost use Rattle.rule_limits.specs.Ordered.{Ordered};

use paper::Fault;
use rule_limits::Order;
use tree::Tree;
use tree_routes::Children;

// First children of the payment and of its block stay two parameters: a struct of two that are lent would be read as `of.entry.own.now` in each contract, which is no plainer.

// 9: the row stands in the payment and in its block.
fn in_both(tree: &Tree, own: &Children, block: &Children, row: usize) -> Result<(), Fault>
    ensures { (s : List ℕ) (p : Payment) → is_sought row ≡ true → ByName s tree.now p.own own.now
        → ByName s tree.now p.block block.now → refusal_found result ≡ in_both row p }
{
    let Some(i) = tree_routes::first(own, row) else {
        return Ok(());
    };
    let theirs = tree_routes::first(block, row);
    if theirs.is_none() {
        return Ok(());
    }
    Err(Fault::InPaymentAndBlock {
        element: row,
        offset: tree::cell(tree, i, 0),
    })
}

// 10: row 16 stands in neither. The payment's element is `at`.
fn in_neither(tree: &Tree, at: usize, own: &Children, block: &Children) -> Result<(), Fault>
    ensures { (s : List ℕ) (p : Payment) → LaidAt s tree.now at p.own → ByName s tree.now p.own own.now
        → ByName s tree.now p.block block.now → refusal_found result ≡ in_neither 16 p }
{
    let mine = tree_routes::first(own, 16);
    if mine.is_some() {
        return Ok(());
    }
    let theirs = tree_routes::first(block, 16);
    if theirs.is_some() {
        return Ok(());
    }
    Err(Fault::InNeither {
        offset: tree::cell(tree, at, 0),
    })
}

// 9 and 10 of the payment whose element is `at`: 16, 36, 34.
fn in_payment(tree: &Tree, at: usize, block: &Children) -> Result<(), Fault>
    ensures { (s : List ℕ) (p : Payment) → LaidAt s tree.now at p.own → ByName s tree.now p.block block.now
        → refusal_found result ≡ usage_of p }
{
    let own = tree_routes::by_name(tree, at);
    in_both(tree, &own, block, 16)?;
    in_neither(tree, at, &own, block)?;
    in_both(tree, &own, block, 36)?;
    in_both(tree, &own, block, 34)
}

// 9 and 10: one walk over the payments, in their order. The first children of a block are known while the block stays the same; of no element at first. (No Option for no
// element: `by_name_again` takes the number of the one that is known.)
pub fn usage_refusal(tree: &Tree, order: &Order, payments: usize) -> Result<(), Fault>
    ensures { (s : List ℕ) (root : Element) → Ordered s tree.now order.now root → payments ≡ length (all_payments root) → payments ≤ 64
        → refusal_found result ≡ usage_refusal root }
{
    let mut known = tree::ELEMENTS;
    let mut block = tree_routes::by_name(tree, known);
    for k in 0..payments {
        let payment = rule_limits::payment(order, k);
        block = tree_routes::by_name_again(tree, payment.block, known, block);
        known = payment.block;
        in_payment(tree, payment.own, &block)?;
    }
    Ok(())
}
