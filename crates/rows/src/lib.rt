// The walk of refusals 3 and 4 over the laid-out tree of a message, and the same walk with the judgement of 6 to 8 and 28 at each element. The rows are a profile in
// numbers (crates/rows_places/specs/Numbers.antt); every function but `judging_of` and `rows_refusal` is for any such profile.
#![tactic(auto)]

ghost use Rattle.std.specs.Prelude.{◌<◌, ◌≡◌, Err};
ghost use Rattle.paper.specs.Answers.{refusal_found};
ghost use Rattle.rows.specs.Walk.{JudgesFor, WalkPromise, Walks, WalksAll, unless_found};

use paper::{Fault, Profile};
use rows_contents::Judging;
use rows_places::{Left, Numbers, Placed, Unplaced};
use tree::Tree;

// A child that has no place among those left in a group of this row.
#[tactic(auto, unfolding(crate::specs::Walk::unless_found, paper::specs::Answers::refusal_found, paper::specs::Answers::refusal_of, paper::specs::Answers::numbered, paper::specs::Refusals::refuse))]
fn not_found(unplaced: Unplaced, row: usize, at: usize) -> Fault
    ensures { refusal_found (Err result) ≡ unless_found row at (Err unplaced) }
{
    match unplaced {
        Unplaced::Never => Fault::NotAllowedThere {
            element: row,
            offset: at,
        },
        Unplaced::Early(element) => Fault::Missing {
            element,
            offset: at,
        },
    }
}

// A walk over one message: its text, its tree, the numbers of its profile, and what is judged of each element.
#[derive(Clone, Copy)]
struct Walk<'a> {
    s: &'a [u8],
    tree: &'a Tree,
    numbers: &'a Numbers,
    judging: Judging,
}

impl Walk<'_> {
    // Element i as entry e, under a parent's row.
    #[cycle(children_element)]
    fn element(&self, parent: usize, i: usize, e: u16) -> Result<(), Fault>
        ensures { Walks self.now.s.now self.now.tree.now self.now.numbers.now.rows self.now.numbers.now.places self.now.judging parent i e result }
    {
        if tree::ELEMENTS <= i {
            return Ok(());
        }
        let row = usize::from(rows_places::of_entry(&self.numbers.rows, e, 0));
        let longest = usize::from(rows_places::of_entry(&self.numbers.rows, e, 3));
        if rows_contents::is_withdrawn(self.judging, row) {
            return Err(Fault::Withdrawn {
                element: row,
                offset: tree::cell(self.tree, i, 0),
            });
        }
        if tree::cell(self.tree, i, 4) <= i + 1 {
            if longest == 0 {
                return rows_contents::text_in_group(self.s, self.tree, self.numbers, i, e);
            }
            return rows_contents::leaf(self.s, self.tree, self.judging, parent, i, row, longest);
        }
        if longest == 0 {
            return self.children(i, e);
        }
        Err(Fault::NotAllowedThere {
            element: row,
            offset: tree::cell(self.tree, i + 1, 0),
        })
    }

    // The children of element i as entry e, one after the other.
    #[cycle(children_element)]
    fn children(&self, i: usize, e: u16) -> Result<(), Fault>
        requires { i < 4700 }
        ensures { WalksAll self.now.s.now self.now.tree.now self.now.numbers.now.rows self.now.numbers.now.places self.now.judging i e result }
    {
        let row = usize::from(rows_places::of_entry(&self.numbers.rows, e, 0));
        let next = tree::cell(self.tree, i, 4);
        let mut left = Left {
            from: rows_places::of_entry(&self.numbers.rows, e, 4),
            seen: false,
            to: rows_places::of_entry(&self.numbers.rows, e, 5),
        };
        let mut child = i + 1;
        // Stays a `while`: where the next element begins, the tree says.
        while child < next {
            let after = tree::cell(self.tree, child, 4);
            if after <= child {
                return Ok(());
            }
            // A match and no `map_err`: a closure in a cycle of calls would need clauses of its own. (And by its parts: a whole `Placed`, read at once behind
            // the writes of its parts, is waited for.)
            match rows_places::seek_further(self.tree, self.numbers, child, left) {
                Ok(
                    Placed {
                        entry,
                        left: Left { from, seen, to },
                    },
                ) => {
                    self.element(row, child, entry)?;
                    left = Left { from, seen, to };
                }
                Err(unplaced) => {
                    return Err(not_found(unplaced, row, tree::cell(self.tree, child, 0)));
                }
            }
            child = after;
        }
        rows_contents::ended(self.numbers, left, tree::cell(self.tree, i, 3))
    }
}

// What the walk judges: where it is judging, 6 to 8, and 28 in a new message.
fn judging_of(profile: Profile, judging: bool) -> Judging
    ensures { JudgesFor profile judging result }
{
    if judging {
        rows_contents::of_values(profile.archived)
    } else {
        Judging::Rows
    }
}

// The walk over the rows of a profile, from the root, which is a group: 3 and 4, or, where it is judging, 6 to 8 and 28 as well. (`element` has one caller, so the compiler makes one function
// of it and `children`, and a leaf is judged without a call.) `judging` stays a flag: WalkPromise and both callers say it so, and a type parameter would only move the choice of `judging_of` to them.
pub fn rows_refusal(profile: Profile, s: &[u8], tree: &Tree, judging: bool) -> Result<(), Fault>
    ensures { WalkPromise profile s.now tree.now judging result }
{
    let numbers = Numbers {
        rows: rows_profile::rows(profile),
        places: rows_profile::places(),
    };
    if tree::cell(tree, 0, 4) <= 1 {
        return rows_contents::text_in_group(s, tree, &numbers, 0, 0);
    }
    let walk = Walk {
        s,
        tree,
        numbers: &numbers,
        judging: judging_of(profile, judging),
    };
    walk.children(0, 0)
}
