// Where the seventeen fields of a payment stand in the laid-out tree of a message: a table of routes.
#![tactic(auto)]

ghost use Rattle.std.specs.Prelude.{◌≡◌, true, List, ℕ};
ghost use Rattle.paper.specs.Bytes.{every};
ghost use Rattle.paper.specs.Form.{Element};
ghost use Rattle.paper.specs.Payments.{Payment, follow};
ghost use Rattle.paper.specs.Fields.{field_element};
ghost use Rattle.form_names.specs.Names.{is_sought};
ghost use Rattle.tree_routes.specs.Finds.{Finds, ByName};
ghost use Rattle.tree_fields.specs.Routes.{RoutesAre, route_of, at_line, of_rows};

use tree::Tree;
use tree_routes::Children;

const FIELDS: usize = 17;

// For each field where it stands (1 in the payment, 2 in its block, 3 in the payment or else in its block), the rows of its route, and the line of another
// route that is followed where this one leads to nothing. A const table is made anew wherever it is used: make it once, and lend it.
// The places 1, 2 and 3 stay numbers, no enum, and 0 for no row and no other line no Option: callers lend this type, whose table `RoutesAre` compares with `route_table` of specs/Routes.antt.
// No type carries the fact `RoutesAre`: `field_at` and the crates above it answer for any table that is lent (docs/PROMISES.md), and such a type would ask more of their callers.
pub type Routes = [[u16; 6]; 21];

const ROUTES: Routes = [
    [0, 0, 0, 0, 0, 0], // no field
    [2, 13, 0, 0, 0, 0], // 1 batch booking
    [3, 16, 17, 0, 0, 0], // 2 priority
    [3, 16, 20, 21, 0, 0], // 3 category purpose
    [2, 22, 23, 0, 0, 20], // 4 execution date: the date
    [2, 24, 25, 0, 0, 0], // 5 debtor's name
    [2, 26, 27, 28, 0, 0], // 6 debtor's IBAN
    [2, 29, 30, 31, 0, 18], // 7 debtor's agent: BIC
    [3, 34, 35, 0, 0, 0], // 8 ultimate debtor
    [1, 38, 39, 0, 0, 0], // 9 instruction id
    [1, 38, 40, 0, 0, 0], // 10 end-to-end id
    [1, 41, 42, 0, 0, 0], // 11 amount
    [1, 43, 30, 31, 0, 0], // 12 creditor's agent
    [1, 44, 25, 0, 0, 0], // 13 creditor's name
    [1, 45, 27, 28, 0, 0], // 14 creditor's IBAN
    [1, 46, 35, 0, 0, 0], // 15 ultimate creditor
    [1, 47, 21, 0, 0, 0], // 16 purpose
    [1, 48, 49, 0, 0, 19], // 17 remittance: free text
    [2, 29, 30, 32, 33, 0], // 7 the other: NOTPROVIDED
    [1, 48, 50, 51, 55, 0], // 17 the other: reference
    [2, 22, 58, 0, 0, 0], // 4 the other: the date and time
];

pub fn routes() -> Routes
    ensures { RoutesAre result }
{
    ROUTES
}

// First children of the payment and of its block stay two parameters: the comparison of two payments has them in a struct of its own (`move_compared::Place`), all others one pair alone.

// A line's route, in an element whose first children are known.
fn within(tree: &Tree, children: &Children, line: &[u16; 6]) -> Option<usize>
    ensures { (s : List ℕ) (t : Element) → every is_sought (route_of line.now) ≡ true → ByName s tree.now t children.now
        → Finds s tree.now (follow (route_of line.now) t) result }
{
    let first = tree_routes::first(children, usize::from(line[1]));
    let route = [line[2], line[3], line[4]];
    tree_routes::follow(tree, first, &route)
}

// What a line of the table leads to, in a payment whose first children are known, and its block's.
fn along(tree: &Tree, own: &Children, block: &Children, line: &[u16; 6]) -> Option<usize>
    ensures { (s : List ℕ) (p : Payment) → of_rows line.now ≡ true → ByName s tree.now p.own own.now
        → ByName s tree.now p.block block.now → Finds s tree.now (at_line line.now p) result }
{
    match line[0] {
        1 => within(tree, own, line),
        2 => within(tree, block, line),
        3 => tree_routes::either(within(tree, own, line), within(tree, block, line)),
        _ => None,
    }
}

// Where a field of the payment stands; nothing for a field that is not among the seventeen.
pub fn field_at(
    tree: &Tree,
    routes: &Routes,
    own: &Children,
    block: &Children,
    field: usize,
) -> Option<usize>
    ensures { (s : List ℕ) (p : Payment) → RoutesAre routes.now → ByName s tree.now p.own own.now
        → ByName s tree.now p.block block.now → Finds s tree.now (field_element field p) result }
{
    if FIELDS < field {
        return None;
    }
    let line = &routes[field];
    let found = along(tree, own, block, line);
    if found.is_some() {
        return found;
    }
    let other = routes.get(usize::from(line[5]))?;
    along(tree, own, block, other)
}
