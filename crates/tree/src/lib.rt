// The tree of a message of the form as numbers in a buffer, six for each element (specs/Laid.antt), read.
#![tactic(auto)]

ghost use Rattle.std.specs.Prelude.{◌≡◌, true, ◌<◌};
ghost use Rattle.paper.specs.Rows.{name};
ghost use Rattle.form_names.specs.Names.{name_number, is_sought};
ghost use Rattle.tree.specs.Laid.{cell_of};

// The buffer has room for 4,700 elements. An element takes up seven bytes at least (`<a></a>`), so that the largest message has fewer.
pub const ELEMENTS: usize = 4700;

pub const NUMBERS: usize = 6 * ELEMENTS;

// One list of numbers, not 4,700 structs or arrays of six: the check of nested arrays grows with the square of their number (docs/DECISIONS.md), and there is no heap for a Vec of structs.
pub type Tree = [u16; NUMBERS];

// `usize::from` by name: each number of a tree, and of the order of payments, that is read goes through it.
pub fn wide(x: u16) -> usize
    ensures { result ≡ x }
{
    usize::from(x)
}

// Number k of element i; 0 where there is none.
// (0, and no Option, where there is none: it is promised as a number.)
pub fn cell(tree: &Tree, i: usize, k: usize) -> usize
    ensures { i < 4700 → k < 6 → result ≡ cell_of tree.now i k }
{
    if ELEMENTS <= i {
        return 0;
    }
    if 6 <= k {
        return 0;
    }
    wide(tree[i * 6 + k])
}

// The number of a row's name: its own, or that of the first row of this name. (Row 57 is not looked for, and a match that reaches so far would not be made part of its callers.)
pub fn name_of(row: usize) -> usize
    ensures { is_sought row ≡ true → result ≡ name_number (name row) }
{
    match row {
        14 => 6,
        15 => 7,
        21 => 19,
        25 => 9,
        33 => 27,
        35 => 9,
        _ => row,
    }
}
