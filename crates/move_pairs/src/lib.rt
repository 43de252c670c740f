// The walk over the pairs of payments that the regrouping list names.
#![tactic(auto)]

ghost use Rattle.std.specs.Prelude.{◌≡◌, List, [], ℕ, ◌<◌, length};
ghost use Rattle.std.proofs.Math.Option.{some};
ghost use Rattle.paper.specs.Answers.{perhaps};
ghost use Rattle.paper.specs.Form.{Element};
ghost use Rattle.paper.specs.Payments.{Payment};
ghost use Rattle.paper.specs.Fields.{values_of, differ_from};
ghost use Rattle.paper.specs.Regrouping.{ordinals_of, pairing, all_values};
ghost use Rattle.tree_fields.specs.Routes.{RoutesAre};
ghost use Rattle.move_pairs.specs.Pairs.{InOrder, Marked, Known, Taken, IsThere, not_regrouped, pairs_say};

use move_alike::Side;
use move_compared::Place;
use paper::NotRegrouped;
use rule_limits::Order;
use std::mem;
use tree::Tree;
use tree_fields::Routes;
use tree_routes::Children;

// Why payments are not paired as a list says.
#[derive(Clone, Copy)]
pub enum Unpaired {
    OrdinalTooLarge { k: usize },
    NamedBefore { k: usize },
    FieldsDiffer { k: usize, field: usize },
}

impl From<Unpaired> for NotRegrouped {
    ghost from_gives = { λ why given. given ≡ not_regrouped why };

    fn from(why: Unpaired) -> NotRegrouped {
        match why {
            Unpaired::OrdinalTooLarge { k } => NotRegrouped::OrdinalTooLarge { k },
            Unpaired::NamedBefore { k } => NotRegrouped::NamedBefore { k },
            Unpaired::FieldsDiffer { k, field } => NotRegrouped::FieldsDiffer { k, field },
        }
    }
}

// A message, and where its payments stand, in their order.
#[derive(Clone, Copy)]
pub struct Ordered<'a> {
    pub side: Side<'a>,
    pub order: &'a Order,
}

// Payment o is marked as named; whether it was named before.
fn mark(marks: &mut [bool; 64], o: usize) -> bool
    ensures { Marked marks.old o marks.new result }
{
    if paper::MOST_PAYMENTS <= o {
        return true;
    }
    mem::replace(&mut marks[o], true)
}

// A payment in its block: its own element, its block's element, and the first children of its block.
#[derive(Clone, Copy)]
struct InBlock {
    own: usize,
    block: usize,
    children: Children,
}

// No payment: where no element stands. (As an Option it would have to be taken apart at each payment, and the first be read by a call of its own.)
fn nowhere(tree: &Tree) -> InBlock
    ensures { Known tree.now result }
{
    InBlock {
        own: tree::ELEMENTS,
        block: tree::ELEMENTS,
        children: tree_routes::by_name(tree, tree::ELEMENTS),
    }
}

// Payment k. Where its block is that of the payment before, the first children of the block are known.
fn payment(message: Ordered, k: usize, before: InBlock) -> InBlock
    ensures { Known message.entry.side.tree.now before
        → Known message.entry.side.tree.now result × Taken message.entry.side.tree.now message.entry.order.now k result }
{
    let at = rule_limits::payment(message.order, k);
    let children = before.children;
    InBlock {
        own: at.own,
        block: at.block,
        children: tree_routes::by_name_again(message.side.tree, at.block, before.block, children),
    }
}

// The lowest field in which a payment of the first message and a payment of the second differ.
fn differing_pair(
    routes: &Routes,
    one: Side,
    first: InBlock,
    other: Side,
    second: InBlock,
) -> Option<usize>
    ensures { (p q : Payment) → RoutesAre routes.now → IsThere one.entry.bytes.now one.entry.tree.now first p
        → IsThere other.entry.bytes.now other.entry.tree.now second q → perhaps result ≡ differ_from 1 (values_of p) (values_of q) }
{
    let own1 = tree_routes::by_name(one.tree, first.own);
    let block1 = first.children;
    let own2 = tree_routes::by_name(other.tree, second.own);
    let block2 = second.children;
    move_compared::differing(
        routes,
        Place {
            side: one,
            own: &own1,
            block: &block1,
        },
        Place {
            side: other,
            own: &own2,
            block: &block2,
        },
    )
}

// For each k in turn: the ordinal is too large, its payment was named before, a field differs. Named payments are marked by their ordinals.
pub fn pairing(one: Ordered, other: Ordered, list: &[u8], payments: usize) -> Result<(), Unpaired>
    ensures { (root1 root2 : Element) (ks : List ℕ) → InOrder one.entry.side.bytes.now one.entry.side.tree.now one.entry.order.now payments root1
        → InOrder other.entry.side.bytes.now other.entry.side.tree.now other.entry.order.now payments root2
        → ordinals_of list.now ≡ some ks → length ks ≡ payments
        → pairs_say result ≡ pairing (all_values root1) 0 [] ks (all_values root2) }
{
    let routes = tree_fields::routes();
    let mut marks = [false; 64];
    let mut first = nowhere(one.side.tree);
    let mut second = nowhere(other.side.tree);
    for k in 0..payments {
        let o = move_lists::ordinal(list, k);
        if payments <= o {
            return Err(Unpaired::OrdinalTooLarge { k });
        }
        if mark(&mut marks, o) {
            return Err(Unpaired::NamedBefore { k });
        }
        first = payment(one, o, first);
        second = payment(other, k, second);
        let compared = differing_pair(&routes, one.side, first, other.side, second);
        if let Some(field) = compared {
            return Err(Unpaired::FieldsDiffer { k, field });
        }
    }
    Ok(())
}
