// The lent table after acceptance: twenty numbers for each payment.
#![tactic(auto)]

ghost use Rattle.std.specs.Prelude.{◌≡◌, List, ◌++◌, ℕ, ◌+◌, ◌*◌, ◌≤◌, length, drop};
ghost use Rattle.std.proofs.Math.Option.{Option};
ghost use Rattle.paper.specs.Bytes.{each};
ghost use Rattle.paper.specs.Sizes.{numbers_per_payment, least_table};
ghost use Rattle.paper.specs.Form.{Element};
ghost use Rattle.paper.specs.Payments.{Payment, payments as all_payments};
ghost use Rattle.paper.specs.Table.{part_of, numbers_of};
ghost use Rattle.paper.specs.Fields.{field_element};
ghost use Rattle.paper.specs.Accepted.{All};
ghost use Rattle.tree_routes.specs.Finds.{Finds, ByName};
ghost use Rattle.tree_fields.specs.Routes.{RoutesAre};
ghost use Rattle.rule_limits.specs.Ordered.{Ordered, IsPayment};
ghost use Rattle.verdict_table.specs.Rows.{SpanIs, SpansOf, cut, row_of, Fitting};

use rule_limits::{Order, PaymentAt};
use tree::Tree;
use tree_fields::Routes;
use tree_routes::Children;

// Message, tree, order and the first children of a payment and of its block stay parameters: one message is at work here, so nothing can be taken for another's, and in a struct
// of what is lent each contract would say `message.entry.tree.now` for `tree.now`.

// A part of the message: numbers, and no slice, as the lent table has them.
#[derive(Clone, Copy)]
pub struct Span {
    pub start: usize,
    pub size: usize,
}

// The parts of a payment's row: end-to-end id, creditor IBAN, creditor name, ultimate debtor's name, contents of row 16, debtor IBAN; creditor BIC, remittance.
#[derive(Clone, Copy)]
pub struct Spans {
    pub id: Span,
    pub creditor: Span,
    pub name: Span,
    pub ultimate: Span,
    pub kind: Span,
    pub debtor: Span,
    pub bic: Span,
    pub remittance: Span,
}

// The numbers of a payment.
type Numbers = [u32; paper::NUMBERS_PER_PAYMENT];

// The part that an element holds; 0, 0 and no None where there is none, as the lent table has it.
fn span_of(tree: &Tree, found: Option<usize>) -> Span
    ensures { (s : List ℕ) (o : Option Element) → Finds s tree.now o found → SpanIs s (part_of o) result }
{
    let Some(i) = found else {
        return Span { start: 0, size: 0 };
    };
    let start = tree::cell(tree, i, 2);
    let close = tree::cell(tree, i, 3);
    Span {
        start,
        size: close.saturating_sub(start),
    }
}

// The part that a field of a payment holds, where the payment's first children are known, and its block's.
pub fn field_span(
    tree: &Tree,
    routes: &Routes,
    own: &Children,
    block: &Children,
    field: usize,
) -> Span
    ensures { (s : List ℕ) (p : Payment) → RoutesAre routes.now → ByName s tree.now p.own own.now
        → ByName s tree.now p.block block.now → SpanIs s (part_of (field_element field p)) result }
{
    span_of(tree, tree_fields::field_at(tree, routes, own, block, field))
}

fn spans_of(tree: &Tree, routes: &Routes, own: &Children, block: &Children) -> Spans
    ensures { (s : List ℕ) (p : Payment) → RoutesAre routes.now → ByName s tree.now p.own own.now
        → ByName s tree.now p.block block.now → SpansOf s p result }
{
    Spans {
        id: field_span(tree, routes, own, block, 10),
        creditor: field_span(tree, routes, own, block, 14),
        name: field_span(tree, routes, own, block, 13),
        ultimate: field_span(tree, routes, own, block, 8),
        kind: span_of(
            tree,
            tree_routes::first(own, 16).or(tree_routes::first(block, 16)),
        ),
        debtor: field_span(tree, routes, own, block, 6),
        bic: field_span(tree, routes, own, block, 12),
        remittance: field_span(tree, routes, own, block, 17),
    }
}

// A number's low 32 bits. (`as`, which is proved to fit: `try_from` would have an error to answer. So it is with cents below.)
// (Cents are of 64 bits: one for both would need a trait for one `%`.)
fn low_32(n: usize) -> u32
    ensures { result ≡ cut n }
{
    (n % 4294967296) as u32
}

// The numbers, each of 32 bits.
fn row(number: usize, of: Spans, cents: u64, at: usize) -> Numbers
    ensures { result ≡ row_of number of cents at }
{
    [
        low_32(number),
        low_32(of.id.start),
        low_32(of.id.size),
        low_32(of.creditor.start),
        low_32(of.creditor.size),
        low_32(of.name.start),
        low_32(of.name.size),
        low_32(of.ultimate.start),
        low_32(of.ultimate.size),
        low_32(of.kind.start),
        low_32(of.kind.size),
        low_32(of.debtor.start),
        low_32(of.debtor.size),
        (cents / 100 % 4294967296) as u32,
        (cents % 100) as u32,
        low_32(at),
        low_32(of.bic.start),
        low_32(of.bic.size),
        low_32(of.remittance.start),
        low_32(of.remittance.size),
    ]
}

// The numbers of a payment.
fn numbers_of(
    s: &[u8],
    tree: &Tree,
    routes: &Routes,
    payment: PaymentAt,
    block: &Children,
) -> Numbers
    ensures { length s.now ≤ 32768 → RoutesAre routes.now → (p : Payment) → IsPayment s.now tree.now payment p
        → ByName s.now tree.now p.block block.now → Fitting p → result ≡ numbers_of p }
{
    let own = tree_routes::by_name(tree, payment.own);
    let of = spans_of(tree, routes, &own, block);
    let cents = rule_totals::amount(s, tree, payment.own);
    row(payment.number, of, cents, tree::cell(tree, payment.own, 0))
}

// Each payment's numbers, in the order of the payments; every later number stays. The first children of a block are known while the block stays the same; of
// no element at first. (No Option for that, and no walk shared with `rule_usage`: a generic one would say in its contract what each step keeps, which is no plainer than two loops.)
pub fn fill(s: &[u8], tree: &Tree, order: &Order, payments: usize, table: &mut [u32])
    ensures { length s.now ≤ 32768 → (root : Element) → Ordered s.now tree.now order.now root
        → payments ≡ length (all_payments root) → payments ≤ 64 → All Fitting (all_payments root) → least_table ≤ length table.old
        → table.new ≡ each numbers_of (all_payments root) ++ drop (numbers_per_payment * length (all_payments root)) table.old }
{
    if table.len() < paper::LEAST_TABLE || paper::MOST_PAYMENTS < payments {
        return;
    }
    let routes = tree_fields::routes();
    let mut known = tree::ELEMENTS;
    let mut block = tree_routes::by_name(tree, known);
    for k in 0..payments {
        let payment = rule_limits::payment(order, k);
        block = tree_routes::by_name_again(tree, payment.block, known, block);
        known = payment.block;
        let numbers = numbers_of(s, tree, &routes, payment, &block);
        let at = paper::NUMBERS_PER_PAYMENT * k;
        table[at..at + paper::NUMBERS_PER_PAYMENT].copy_from_slice(&numbers);
    }
}
