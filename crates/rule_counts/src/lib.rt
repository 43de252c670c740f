// Refusals 12 and 13: counts and sums, of the header and of each block.
#![tactic(auto)]

ghost use Rattle.std.specs.Prelude.{◌≡◌, List, ◌++◌, map, ℕ, ◌+◌, ◌≤◌, length, eqb, Bool};
ghost use Rattle.std.proofs.Math.Option.{Option};
ghost use Rattle.paper.specs.Form.{Element};
ghost use Rattle.paper.specs.Values.{number, cents};
ghost use Rattle.paper.specs.Payments.{Payment, all_of, of_header, blocks as all_blocks, payments as all_payments, total as total_of};
ghost use Rattle.paper.specs.Refusals.{unless, counts_refusal, block_counts};
ghost use Rattle.paper.specs.Answers.{refusal_found};
ghost use Rattle.paper.specs.Accepted.{All};
ghost use Rattle.tree.specs.Laid.{LaidAt};
ghost use Rattle.tree_routes.specs.Finds.{Finds};
ghost use Rattle.rule_limits.specs.Ordered.{PaymentsAt, Ordered};
ghost use Rattle.tree_leaves.specs.Readable.{ReadCount, ReadMoney, ReadBlock, ReadPayment, Readable};
ghost use Rattle.rule_counts.specs.Counted.{InBlock, BehindBlock, BlocksFrom, Asks, Makes, block_refusal, header_refusal};

use paper::Fault;
use rule_limits::Order;
use tree::Tree;

// Message, tree and order stay parameters: one message is at work here, so nothing can be taken for another's, and in a struct
// of what is lent each contract would say `message.entry.tree.now` for `tree.now`.

// What was found is right, or else it makes this fault of its offset: of 0 where nothing was found.
// (Offset 0, as the definition has it where nothing stands; a message that the rows accept always has it.)
fn stated<R: FnOnce(usize) -> bool, F: FnOnce(usize) -> Fault>(
    tree: &Tree,
    found: Option<usize>,
    right: R,
    fault: F,
) -> Result<(), Fault>
    requires right { R.IsAlwaysCallable right }
    requires fault { F.IsAlwaysCallable fault }
    ensures { (s : List ℕ) (o : Option Element) (test : List ℕ → Bool) (number row : ℕ) → Finds s tree.now o found
        → Asks s tree.now o test (R.post right) → Makes number row (F.post fault) → refusal_found result ≡ unless test number row o }
{
    let Some(i) = found else {
        return Err(fault(0));
    };
    if right(i) {
        return Ok(());
    }
    Err(fault(tree::cell(tree, i, 0)))
}

// 12: the count that was found is not n. (No `From` leads from a `usize` to a `u64`: `as`.)
fn count_is(s: &[u8], tree: &Tree, found: Option<usize>, row: usize, n: usize) -> Result<(), Fault>
    ensures { (o : Option Element) → Finds s.now tree.now o found → ReadCount o → refusal_found result ≡ unless (λ w. eqb (number w) n) 12 row o }
{
    stated(
        tree,
        found,
        |i| tree_leaves::count_at(s, tree, i) == n as u64,
        |offset| Fault::CountDiffers {
            element: row,
            offset,
        },
    )
}

// 13: the sum that was found is not this one.
fn sum_is(s: &[u8], tree: &Tree, found: Option<usize>, row: usize, sum: u64) -> Result<(), Fault>
    ensures { (o : Option Element) → Finds s.now tree.now o found → ReadMoney o → refusal_found result ≡ unless (λ w. eqb (cents w) sum) 13 row o }
{
    stated(
        tree,
        found,
        |i| tree_leaves::cents_at(s, tree, i) == sum,
        |offset| Fault::SumDiffers {
            element: row,
            offset,
        },
    )
}

// Where the payments of block k end that stand from payment `from` on.
fn block_end(order: &Order, k: usize, from: usize, payments: usize) -> usize
    ensures { (s tree : List ℕ) (ps rest : List Payment) → PaymentsAt s tree order.now from (ps ++ rest) → payments ≡ from + length (ps ++ rest)
        → payments ≤ 64 → All (InBlock k) ps → All (BehindBlock k) rest → result ≡ from + length ps }
{
    for at in from..payments {
        if rule_limits::payment(order, at).number != k {
            return at;
        }
    }
    payments
}

// 12 and 13 of the block at element `block`, whose payments stand from one up to another.
fn in_block(
    s: &[u8],
    tree: &Tree,
    order: &Order,
    block: usize,
    from: usize,
    to: usize,
) -> Result<(), Fault>
    ensures { (b : Element) (ps : List Payment) → LaidAt s.now tree.now block b
        → PaymentsAt s.now tree.now order.now from ps → to ≡ from + length ps → to ≤ 64 → map (λ p. p.own) ps ≡ all_of 37 b → ReadBlock b
        → All ReadPayment ps → refusal_found result ≡ block_refusal b }
{
    if to < from {
        return Ok(());
    }
    let stated_count = tree_routes::child(tree, block, 14);
    count_is(s, tree, stated_count, 14, to - from)?;
    let stated_sum = tree_routes::child(tree, block, 15);
    sum_is(
        s,
        tree,
        stated_sum,
        15,
        rule_totals::sum_of(s, tree, order, from, to),
    )
}

// 12 and 13 of each block.
fn in_blocks(
    s: &[u8],
    tree: &Tree,
    order: &Order,
    blocks: usize,
    payments: usize,
) -> Result<(), Fault>
    ensures { (bs : List Element) → BlocksFrom s.now tree.now order.now 0 0 blocks payments bs → refusal_found result ≡ block_counts bs }
{
    let mut from = 0;
    for k in 0..blocks {
        let to = block_end(order, k, from, payments);
        in_block(s, tree, order, rule_limits::block(order, k), from, to)?;
        from = to;
    }
    Ok(())
}

// 12 and 13 of the header, whose numbers cover the whole message.
fn in_header(s: &[u8], tree: &Tree, payments: usize, total: u64) -> Result<(), Fault>
    ensures { (root : Element) → LaidAt s.now tree.now 0 root → ReadCount (of_header 6 root) → ReadMoney (of_header 7 root)
        → refusal_found result ≡ header_refusal payments total root }
{
    let stated_count = tree_routes::follow(tree, Some(0), &[2, 3, 6]);
    count_is(s, tree, stated_count, 6, payments)?;
    let stated_sum = tree_routes::follow(tree, Some(0), &[2, 3, 7]);
    sum_is(s, tree, stated_sum, 7, total)
}

// 12 and 13: header count, header sum, then each block's count and sum.
pub fn counts_refusal(
    s: &[u8],
    tree: &Tree,
    order: &Order,
    blocks: usize,
    payments: usize,
    total: u64,
) -> Result<(), Fault>
    ensures { (root : Element) → LaidAt s.now tree.now 0 root
        → Ordered s.now tree.now order.now root → blocks ≡ length (all_blocks root) → payments ≡ length (all_payments root)
        → payments ≤ 64 → blocks ≤ 16
        → total ≡ total_of root → Readable root → refusal_found result ≡ counts_refusal root }
{
    in_header(s, tree, payments, total)?;
    in_blocks(s, tree, order, blocks, payments)
}
