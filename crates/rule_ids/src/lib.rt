// Refusal 11: a block id that an earlier block has.
#![tactic(auto)]

ghost use Rattle.std.specs.Prelude.{◌≡◌, List, [], true, ◌<◌, ◌≤◌, length, get_or};
ghost use Rattle.paper.specs.Form.{Element};
ghost use Rattle.paper.specs.Payments.{text_of, child, blocks as all_blocks};
ghost use Rattle.paper.specs.Refusals.{among_texts, ids_refusal};
ghost use Rattle.paper.specs.Answers.{refusal_found};
ghost use Rattle.tree.specs.Laid.{LaidAt};
ghost use Rattle.rule_limits.specs.Ordered.{BlocksAt, Ordered};
ghost use Rattle.rule_ids.specs.Ids.{with_id, with_ids, id_refusal};

use paper::Fault;
use rule_limits::Order;
use tree::Tree;

// Message, tree and order stay parameters: one message is at work here, so nothing can be taken for another's, and in a struct
// of what is lent each contract would say `message.entry.tree.now` for `tree.now`.

// The block at element `block` has the id that element `id` holds.
fn has_id(s: &[u8], tree: &Tree, block: usize, id: usize) -> bool
    ensures { (b t : Element) → LaidAt s.now tree.now block b → LaidAt s.now tree.now id t
        → result ≡ among_texts (text_of t) (with_id [] (child 11 b)) }
{
    let Some(i) = tree_routes::child(tree, block, 11) else {
        return false;
    };
    leaf_texts::same(
        tree_leaves::text(s, tree, id),
        tree_leaves::text(s, tree, i),
    )
}

// One of the first k blocks has the id that element `id` holds.
fn among_earlier(s: &[u8], tree: &Tree, order: &Order, k: usize, id: usize) -> bool
    ensures { (bs : List Element) (t : Element) → BlocksAt s.now tree.now order.now 0 bs → k ≡ length bs → k ≤ 16
        → LaidAt s.now tree.now id t → result ≡ among_texts (text_of t) (with_ids [] bs) }
{
    for j in 0..k {
        if has_id(s, tree, rule_limits::block(order, j), id) {
            return true;
        }
    }
    false
}

// 11 at block k.
// (Offset 0 where no id stands, as the definition has it; a message that the rows accept always has one.)
fn id_at(s: &[u8], tree: &Tree, order: &Order, k: usize) -> Result<(), Fault>
    ensures { (bs : List Element) (b : Element) → BlocksAt s.now tree.now order.now 0 bs → k ≡ length bs → k < 16
        → LaidAt s.now tree.now (get_or order.now k 0) b → refusal_found result ≡ id_refusal (with_ids [] bs) b }
{
    let Some(id) = tree_routes::child(tree, rule_limits::block(order, k), 11) else {
        return Err(Fault::BlockIdRepeated { offset: 0 });
    };
    if among_earlier(s, tree, order, k, id) {
        return Err(Fault::BlockIdRepeated {
            offset: tree::cell(tree, id, 0),
        });
    }
    Ok(())
}

// 11: a block id equal, byte for byte, to an earlier block's.
pub fn ids_refusal(s: &[u8], tree: &Tree, order: &Order, blocks: usize) -> Result<(), Fault>
    ensures { (root : Element) → Ordered s.now tree.now order.now root → blocks ≡ length (all_blocks root) → blocks ≤ 16
        → refusal_found result ≡ ids_refusal root }
{
    for k in 0..blocks {
        id_at(s, tree, order, k)?;
    }
    Ok(())
}
