// The text of a field of a payment that stands in the order, as a part of the message.
#![tactic(auto)]

ghost use Rattle.std.specs.Prelude.{◌+◌, ◌≤◌, ◌<◌, length};
ghost use Rattle.paper.specs.Form.{Element};
ghost use Rattle.paper.specs.Payments.{payments as all_payments};
ghost use Rattle.rule_limits.specs.Ordered.{Ordered};
ghost use Rattle.verdict_parts.specs.Parts.{HandsBack};
ghost use Rattle.paper.specs.Fields.{field_of};

use rule_limits::Order;
use tree::Tree;
use verdict_table::Span;

// The bytes of a span of the message; the empty part at 0 where the message ends before it. (`tree_leaves` has a part too, of which
// nobody needs to know where it lies.)
fn part(message: &[u8], of: Span) -> &[u8]
    ensures { of.start + of.size ≤ length message.now → HandsBack message.entry result (record { start = of.start; size = of.size }) }
{
    let end = of.start.saturating_add(of.size);
    if message.len() < end {
        return &message[0..0];
    }
    &message[of.start..end]
}

// Message, tree and order stay parameters: one message is at work here, so nothing can be taken for another's, and in a struct
// of what is lent each contract would say `message.entry.tree.now` for `tree.now`.
// The text of a field of payment k, whose element and block stand in the order; the empty part at 0 where there is no such element.
pub fn field_in<'a>(
    message: &'a [u8],
    tree: &Tree,
    order: &Order,
    k: usize,
    field: usize,
) -> &'a [u8]
    ensures { (root : Element) → Ordered message.now tree.now order.now root → k < length (all_payments root) → k < 64
        → HandsBack message.entry result (field_of (all_payments root) k field) }
{
    if paper::MOST_PAYMENTS <= k {
        return &message[0..0];
    }
    let payment = rule_limits::payment(order, k);
    let own = tree_routes::by_name(tree, payment.own);
    let block = tree_routes::by_name(tree, payment.block);
    let routes = tree_fields::routes();
    let span = verdict_table::field_span(tree, &routes, &own, &block, field);
    part(message, span)
}
