// Refusal 5, and where blocks and payments stand in the laid-out tree of a message: their order, numbers in a buffer whose layout this crate alone knows.
#![tactic(auto)]

ghost use Rattle.std.specs.Prelude.{◌≡◌, List, ℕ, ◌+◌, ◌*◌, ◌≤◌, ◌<◌, length, get_or, set};
ghost use Rattle.std.proofs.Math.Option.{some};
ghost use Rattle.paper.specs.Form.{Element};
ghost use Rattle.paper.specs.Payments.{child};
ghost use Rattle.tree.specs.Laid.{LaidAt};
ghost use Rattle.rule_limits.specs.Ordered.{Limited, Few, FiveAlone, payment_in};

use paper::Fault;
use tree::Tree;

// The elements of at most 16 blocks, and for each of at most 64 payments its own element, its block's element and its block's number.
// One list of numbers, not arrays of structs: `payment_in` and `PaymentsAt` of specs/Ordered.antt, on which the promises of the crates above rest, read this list.
pub const NUMBERS: usize = paper::MOST_BLOCKS + 3 * paper::MOST_PAYMENTS;

// No type carries `Ordered`, nor the length 208, which is a premise where it is written to: what is promised holds for any order that is lent (docs/PROMISES.md).
pub type Order = [u16; NUMBERS];

// Where a payment stands: its own element and its block's element; and its block's number.
#[derive(Clone, Copy)]
pub struct PaymentAt {
    pub own: usize,
    pub block: usize,
    pub number: usize,
}

// How many blocks and payments a message has.
#[derive(Clone, Copy)]
pub struct Many {
    pub blocks: usize,
    pub payments: usize,
}

fn narrow(x: usize) -> u16
    ensures { x < 65536 → result ≡ x }
{
    u16::try_from(x).unwrap_or_default()
}

// The element of block k.
// (0, and no Option, past the last, as in `payment`: promised as numbers, which a caller that keeps the condition never sees.)
pub fn block(order: &Order, k: usize) -> usize
    ensures { k < 16 → result ≡ get_or order.now k 0 }
{
    if paper::MOST_BLOCKS <= k {
        return 0;
    }
    tree::wide(order[k])
}

// Payment k.
pub fn payment(order: &Order, k: usize) -> PaymentAt
    ensures { k < 64 → result ≡ payment_in order.now k }
{
    if paper::MOST_PAYMENTS <= k {
        return PaymentAt {
            own: 0,
            block: 0,
            number: 0,
        };
    }
    PaymentAt {
        own: tree::wide(order[16 + 3 * k]),
        block: tree::wide(order[17 + 3 * k]),
        number: tree::wide(order[18 + 3 * k]),
    }
}

// Block k becomes the element x.
fn put_block(order: &mut Order, k: usize, x: usize)
    ensures { (length order.new ≡ length order.old)
        × (k < 16 → x < 65536 → order.new ≡ set order.old k x) }
{
    if paper::MOST_BLOCKS <= k {
        return;
    }
    order[k] = narrow(x);
}

// The three numbers of payment k.
fn put_payment(order: &mut Order, k: usize, own: usize, block: usize, number: usize)
    ensures { (length order.new ≡ length order.old)
        × (k < 64 → own < 65536 → block < 65536 → number < 65536
        → order.new ≡ set (set (set order.old (16 + 3 * k) own) (17 + 3 * k) block) (18 + 3 * k) number) }
{
    if paper::MOST_PAYMENTS <= k {
        return;
    }
    order[16 + 3 * k] = narrow(own);
    order[17 + 3 * k] = narrow(block);
    order[18 + 3 * k] = narrow(number);
}

// The walk over the blocks of element `initiation` and the payments of each, left at the first element in excess.
// (Left by its label, a form that was asked for (docs/DECISIONS.md), so the fault waits in an Option. Both walks stay a `while`: where the next element begins the tree says, and blocks
// and payments are counted as they are met.)
fn walk(tree: &Tree, order: &mut Order, initiation: usize) -> Result<Many, Fault>
    ensures { (Few result × FiveAlone result) × ((s : List ℕ) (root holder : Element) → child 2 root ≡ some holder → LaidAt s tree.now initiation holder
        → 208 ≤ length order.old → Limited s tree.now order.new root result) }
{
    let stop = tree::cell(tree, initiation, 4);
    let mut block = tree_routes::first_in(tree, initiation, 10);
    let mut blocks = 0;
    let mut payments = 0;
    let mut excess = None;
    'blocks: while block < stop {
        if blocks == paper::MOST_BLOCKS {
            excess = Some(Fault::TooMany {
                element: 10,
                offset: tree::cell(tree, block, 0),
            });
            break 'blocks;
        }
        put_block(order, blocks, block);
        let after = tree::cell(tree, block, 4);
        let mut own = tree_routes::first_in(tree, block, 37);
        while own < after {
            if payments == paper::MOST_PAYMENTS {
                excess = Some(Fault::TooMany {
                    element: 37,
                    offset: tree::cell(tree, own, 0),
                });
                break 'blocks;
            }
            put_payment(order, payments, own, block, blocks);
            payments += 1;
            own = tree_routes::next_in(tree, own, after, 37);
        }
        blocks += 1;
        block = tree_routes::next_in(tree, block, stop, 10);
    }
    match excess {
        None => Ok(Many { blocks, payments }),
        Some(fault) => Err(fault),
    }
}

// Refusal 5, or else the numbers of blocks and payments; and the order of blocks and payments (specs/Ordered.antt).
// (How many stand there is told beside, as `Few` says: no Vec, no heap, and the rules take these numbers by themselves.)
pub fn limits_refusal(tree: &Tree, order: &mut Order) -> Result<Many, Fault>
    ensures { (Few result × FiveAlone result) × ((s : List ℕ) (root : Element) → LaidAt s tree.now 0 root → 208 ≤ length order.old
        → Limited s tree.now order.new root result) }
{
    let Some(initiation) = tree_routes::child(tree, 0, 2) else {
        return Ok(Many {
            blocks: 0,
            payments: 0,
        });
    };
    walk(tree, order, initiation)
}
