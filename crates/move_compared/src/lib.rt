// The lowest of the seventeen fields in which two payments differ.
#![tactic(auto)]

ghost use Rattle.std.specs.Prelude.{◌≡◌, ◌≤◌};
ghost use Rattle.paper.specs.Answers.{perhaps};
ghost use Rattle.paper.specs.Payments.{Payment};
ghost use Rattle.paper.specs.Fields.{field_element, same_value, values_of, differ_from};
ghost use Rattle.tree_routes.specs.Finds.{Finds};
ghost use Rattle.tree_fields.specs.Routes.{RoutesAre};
ghost use Rattle.move_compared.specs.Compared.{Stands, value_at};

use move_alike::Side;
use tree_fields::Routes;
use tree_routes::Children;

// No type carries `Stands`: `differing` answers for any numbers that are lent (docs/PROMISES.md).
// Where a payment stands: its message, and the first children of its own element and of its block's.
#[derive(Clone, Copy)]
pub struct Place<'a> {
    pub side: Side<'a>,
    pub own: &'a Children,
    pub block: &'a Children,
}

impl<'a> Place<'a> {
    // Where a field of the payment stands.
    fn field(self, routes: &Routes, field: usize) -> Option<usize>
        ensures { (p : Payment) → RoutesAre routes.now
            → Stands self.entry.side.bytes.now self.entry.side.tree.now self.entry.own.now self.entry.block.now p
            → Finds self.entry.side.bytes.now self.entry.side.tree.now (field_element field p) result }
    {
        tree_fields::field_at(self.side.tree, routes, self.own, self.block, field)
    }
}

// The two payments agree in this field.
fn same_field(routes: &Routes, one: Place, other: Place, field: usize) -> bool
    ensures { (p q : Payment) → RoutesAre routes.now
        → Stands one.entry.side.bytes.now one.entry.side.tree.now one.entry.own.now one.entry.block.now p
        → Stands other.entry.side.bytes.now other.entry.side.tree.now other.entry.own.now other.entry.block.now q
        → 1 ≤ field → field ≤ 17 → result ≡ same_value (value_at field p) (value_at field q) }
{
    if field == 17 {
        return move_alike::same_remittance(one.side, one.own, other.side, other.own);
    }
    let mine = one.field(routes, field);
    let theirs = other.field(routes, field);
    match field {
        // batch booking, priority: what absence means
        1 => move_alike::same_or(one.side, mine, other.side, theirs, b"true"),
        2 => move_alike::same_or(one.side, mine, other.side, theirs, b"NORM"),
        // the amount
        11 => move_alike::same_cents(one.side, mine, other.side, theirs),
        _ => move_alike::same_given(one.side, mine, other.side, theirs),
    }
}

// The lowest field in which a payment of the first message and a payment of the second differ, whose first children are known and their blocks'.
pub fn differing(routes: &Routes, one: Place, other: Place) -> Option<usize>
    ensures { (p q : Payment) → RoutesAre routes.now
        → Stands one.entry.side.bytes.now one.entry.side.tree.now one.entry.own.now one.entry.block.now p
        → Stands other.entry.side.bytes.now other.entry.side.tree.now other.entry.own.now other.entry.block.now q
        → perhaps result ≡ differ_from 1 (values_of p) (values_of q) }
{
    for field in 1..=17 {
        if !same_field(routes, one, other, field) {
            return Some(field);
        }
    }
    None
}
