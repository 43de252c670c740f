// Children found by their rows in the laid-out tree of a message, and what stands at the end of a route of rows.
#![tactic(auto)]

ghost use Rattle.std.specs.Prelude.{◌≡◌, true, List, [], ◌∷◌, ℕ, ◌+◌, ◌<◌, ◌≤◌};
ghost use Rattle.std.proofs.Math.Option.{Option};
ghost use Rattle.paper.specs.Bytes.{every};
ghost use Rattle.paper.specs.Form.{Element, Elements};
ghost use Rattle.paper.specs.Rows.{name as name_of_row};
ghost use Rattle.paper.specs.Payments.{listed, all_named, all_of, child, either_of};
ghost use Rattle.form_names.specs.Names.{name_number, is_sought};
ghost use Rattle.tree.specs.Laid.{Laid, LaidAll, LaidAt};
ghost use Rattle.tree_routes.specs.Finds.{Finds, Next, rows_in, onward, ByName, ChildrenOf};

use tree::Tree;

// The first child of each name, by the name's number.
// No type carries `ByName` or `LaidAt`, which contracts have as conditions: these functions answer for any numbers that are lent (docs/PROMISES.md).
// An array by number and no map: no heap.
pub type Children = [Option<u16>; 59];

// Of the elements from i up to `stop`, the first whose name has this number; `stop`, and no None, where there is none, since that is where a
// walk over them ends.
// Stays a `while`, as the walk of `by_name`: where the next element begins, the tree says.
fn next_named(tree: &Tree, i: usize, stop: usize, name: usize) -> usize
    ensures { (i ≤ result) × ((s : List ℕ) (row : ℕ) (ts : Elements) → is_sought row ≡ true → name ≡ name_number (name_of_row row) → LaidAll s tree.now ts i stop
        → Next s tree.now row (all_named row (listed ts)) result stop) }
{
    let mut at = i;
    while at < stop {
        if tree::cell(tree, at, 1) == name {
            return at;
        }
        let next = tree::cell(tree, at, 4);
        if next <= at {
            return stop;
        }
        at = next;
    }
    at
}

// The first child of element i that is named as this row; the end of the element where there is none.
pub fn first_in(tree: &Tree, i: usize, row: usize) -> usize
    ensures { (s : List ℕ) (t : Element) (next : ℕ) → is_sought row ≡ true → Laid s tree.now t i next
        → Next s tree.now row (all_of row t) result next }
{
    let stop = tree::cell(tree, i, 4);
    if stop <= i {
        return i;
    }
    next_named(tree, i + 1, stop, tree::name_of(row))
}

// Of the elements after element i up to `stop`, the first that is named as this row; `stop` where there is none.
pub fn next_in(tree: &Tree, i: usize, stop: usize, row: usize) -> usize
    ensures { (i < stop → i < result)
        × ((s : List ℕ) (t : Element) (ts : Elements) (next : ℕ) → is_sought row ≡ true → Laid s tree.now t i next → LaidAll s tree.now ts next stop
        → Next s tree.now row (all_named row (listed ts)) result stop) }
{
    let next = tree::cell(tree, i, 4);
    if next <= i {
        return stop;
    }
    next_named(tree, next, stop, tree::name_of(row))
}

// The first child of element i that is named as this row.
pub fn child(tree: &Tree, i: usize, row: usize) -> Option<usize>
    ensures { (s : List ℕ) (t : Element) → is_sought row ≡ true → LaidAt s tree.now i t → Finds s tree.now (child row t) result }
{
    let at = first_in(tree, i, row);
    let stop = tree::cell(tree, i, 4);
    if stop <= at {
        return None;
    }
    Some(at)
}

// What stands at the end of a route of rows, which ends before its first 0, from an element that may be absent.
pub fn follow(tree: &Tree, from: Option<usize>, route: &[u16]) -> Option<usize>
    ensures { (s : List ℕ) (o : Option Element) → every is_sought (rows_in route.now) ≡ true → Finds s tree.now o from
        → Finds s tree.now (onward (rows_in route.now) o) result }
{
    let mut reached = from?;
    for &row in route {
        if row == 0 {
            return Some(reached);
        }
        reached = child(tree, reached, usize::from(row))?;
    }
    Some(reached)
}

// The first child of each name, in one walk over the children of element i.
pub fn by_name(tree: &Tree, i: usize) -> Children
    ensures { ChildrenOf tree.now i result }
{
    let mut firsts = [None; 59];
    if tree::ELEMENTS <= i {
        return firsts;
    }
    let stop = tree::cell(tree, i, 4);
    let mut at = i + 1;
    while at < stop {
        let name = tree::cell(tree, at, 1);
        if name < 59 {
            if firsts[name].is_none() {
                firsts[name] = u16::try_from(at).ok();
            }
        }
        let next = tree::cell(tree, at, 4);
        if next <= at {
            return firsts;
        }
        at = next;
    }
    firsts
}

// The same where those of another element are known, which may be this one.
pub fn by_name_again(tree: &Tree, i: usize, known: usize, children: Children) -> Children
    ensures { ChildrenOf tree.now known children → ChildrenOf tree.now i result }
{
    if known == i {
        return children;
    }
    by_name(tree, i)
}

// Of the first children of an element, that which is named as this row.
pub fn first(children: &Children, row: usize) -> Option<usize>
    ensures { (s tree : List ℕ) (t : Element) → is_sought row ≡ true → ByName s tree t children.now → Finds s tree (child row t) result }
{
    let name = tree::name_of(row);
    if 59 <= name {
        return None;
    }
    children[name].map(usize::from)
}

// The first of two that stands there.
// Stays beside `or`: it is promised by name (docs/PROMISES.md).
pub fn either(one: Option<usize>, other: Option<usize>) -> Option<usize>
    ensures { (s tree : List ℕ) (o u : Option Element) → Finds s tree o one → Finds s tree u other → Finds s tree (either_of o u) result }
{
    one.or(other)
}
