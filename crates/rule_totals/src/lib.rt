// The amount of a payment, and the sum of amounts, exact.
#![tactic(auto)]

ghost use Rattle.std.specs.Prelude.{◌≡◌, List, [], ◌∷◌, map, ◌+◌, ◌≤◌, ◌<◌, ◌^◌, length};
ghost use Rattle.paper.specs.Form.{Element};
ghost use Rattle.paper.specs.Payments.{Payment, follow, amount_of, sum_of};
ghost use Rattle.paper.specs.Accepted.{All};
ghost use Rattle.tree.specs.Laid.{LaidAt};
ghost use Rattle.rule_limits.specs.Ordered.{PaymentsAt};
ghost use Rattle.tree_leaves.specs.Readable.{ReadMoney, ReadPayment};

use rule_limits::Order;
use tree::Tree;

// Message, tree and order stay parameters: one message is at work here, so nothing can be taken for another's, and in a struct
// of what is lent each contract would say `message.entry.tree.now` for `tree.now`.

// The instructed amount of the payment at element `own`, in cents; below 10^17 whatever is given.
// (0, and no Option, where there is none: promised below 10^17 whatever is given.)
pub fn amount(s: &[u8], tree: &Tree, own: usize) -> u64
    ensures { (result < 10 ^ 17) × ((t : Element) → LaidAt s.now tree.now own t → ReadMoney (follow (41 ∷ 42 ∷ []) t) → result ≡ amount_of t) }
{
    match tree_routes::follow(tree, Some(own), &[41, 42]) {
        None => 0,
        Some(i) => tree_leaves::cents_at(s, tree, i),
    }
}

// The sum of the amounts of the payments from one up to another; 0 where that lies past the 64th, the limit of a message. So at most 64 amounts below 10^17 are added: no addition
// overflows, whatever is given.
pub fn sum_of(s: &[u8], tree: &Tree, order: &Order, from: usize, to: usize) -> u64
    ensures { (ps : List Payment) → PaymentsAt s.now tree.now order.now from ps → to ≡ from + length ps → to ≤ 64
        → All ReadPayment ps → result ≡ sum_of (map (λ p. p.own) ps) }
{
    if paper::MOST_PAYMENTS < to {
        return 0;
    }
    let mut sum: u64 = 0;
    for k in from..to {
        sum += amount(s, tree, rule_limits::payment(order, k).own);
    }
    sum
}
