// The stages of the verdict, one after the other: what comes of a message where no table is lent.
#![tactic(auto)]

ghost use Rattle.std.specs.Prelude.{◌≡◌, true, ◌≤◌, ◌<◌, length};
ghost use Rattle.std.proofs.Math.Option.{none};
ghost use Rattle.paper.specs.Form.{Element};
ghost use Rattle.paper.specs.Payments.{blocks as all_blocks, payments as all_payments};
ghost use Rattle.paper.specs.Refusals.{tree_refusal, rows_refusal, values_refusal, counts_refusal};
ghost use Rattle.paper.specs.Answers.{profile_named, refusal_of, refusal_found};
ghost use Rattle.paper.specs.declared.Profile as named;
ghost use Rattle.tree.specs.Laid.{LaidAt};
ghost use Rattle.rule_limits.specs.Ordered.{Ordered};
ghost use Rattle.verdict_stages.specs.Decided.{from_values, Passes, Decided};

use paper::{Accepted, Fault, Profile, Verdict};
use rule_limits::{Many, Order};
use tree::Tree;

// The message, its tree and its order stay apart in what follows: the walks that it calls take one, two or three of them, and one message is at work.

// 12 and 13, with the total of the amounts.
fn sums(s: &[u8], tree: &Tree, order: &Order, many: Many) -> Verdict
    ensures { (p : named.Profile) (root : Element) → LaidAt s.now tree.now 0 root
        → Ordered s.now tree.now order.now root → many.blocks ≡ length (all_blocks root) → many.payments ≡ length (all_payments root)
        → many.payments ≤ 64 → values_refusal (profile_named p) root ≡ none → many.blocks ≤ 16
        → Passes s.now tree.now order.now root (counts_refusal root) result }
{
    let cents = rule_totals::sum_of(s, tree, order, 0, many.payments);
    rule_counts::counts_refusal(s, tree, order, many.blocks, many.payments, cents)?;
    Ok(Accepted {
        blocks: many.blocks,
        payments: many.payments,
        cents,
    })
}

// 6 to 8 and 28, as a walk over the rows found them; then 9 and 10, 11, and what follows.
fn judged(s: &[u8], tree: &Tree, order: &Order, many: Many, values: Result<(), Fault>) -> Verdict
    ensures { (p : named.Profile) (root : Element) → LaidAt s.now tree.now 0 root → refusal_found values ≡ values_refusal (profile_named p) root
        → Ordered s.now tree.now order.now root → many.blocks ≡ length (all_blocks root) → many.payments ≡ length (all_payments root)
        → many.payments ≤ 64 → many.blocks ≤ 16 → Passes s.now tree.now order.now root (from_values (profile_named p) root) result }
{
    values?;
    rule_usage::usage_refusal(tree, order, many.payments)?;
    rule_ids::ids_refusal(s, tree, order, many.blocks)?;
    sums(s, tree, order, many)
}

// 5, and what follows.
fn limited(s: &[u8], tree: &Tree, order: &mut Order, values: Result<(), Fault>) -> Verdict
    ensures { (p : named.Profile) (root : Element) → LaidAt s.now tree.now 0 root → 208 ≤ length order.old
        → rows_refusal (profile_named p) root ≡ none → refusal_found values ≡ values_refusal (profile_named p) root
        → Passes s.now tree.now order.new root (tree_refusal (profile_named p) root) result }
{
    let many = rule_limits::limits_refusal(tree, order)?;
    judged(s, tree, order, many, values)
}

// A fault that is one of 3 or 4.
#[tactic(auto, unfolding(paper::specs::Answers::refusal_of, paper::specs::Answers::numbered))]
fn of_rows(fault: Fault) -> bool
    ensures { result ≡ true → (refusal_of fault).number < 5 }
{
    matches!(fault, Fault::NotAllowedThere { .. } | Fault::Missing { .. })
}

// 3 and 4, and what follows. The walk for 6 to 8 and 28 finds those of 3 and 4 as well. What it finds of its own waits until another walk has found none of 3 and 4,
// which come first wherever they stand.
fn stages(profile: Profile, s: &[u8], tree: &Tree, order: &mut Order) -> Verdict
    ensures { (root : Element) → LaidAt s.now tree.now 0 root → 208 ≤ length order.old
        → Passes s.now tree.now order.new root (tree_refusal (profile_named profile) root) result }
{
    let values = rows::rows_refusal(profile, s, tree, true);
    if let Err(fault) = values {
        if of_rows(fault) {
            return Err(fault);
        }
        rows::rows_refusal(profile, s, tree, false)?;
    }
    limited(s, tree, order, values)
}

// What comes of a message, in a profile, where no table is lent: 1, 2, and what follows. The two buffers are lent to work in: the tree is laid out in one, the order of
// payments in the other.
pub fn outcome(profile: Profile, s: &[u8], tree: &mut Tree, order: &mut Order) -> Verdict
    ensures { 28200 ≤ length tree.old → 208 ≤ length order.old
        → Decided (profile_named profile) s.now tree.new order.new result }
{
    if paper::LARGEST_MESSAGE < s.len() {
        return Err(Fault::MessageTooLong);
    }
    form::form_of(s, tree)?;
    stages(profile, s, tree, order)
}
