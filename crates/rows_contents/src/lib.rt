// What is judged of an element before what it holds, and what an element holds that has no elements in it: white space in a group, and the judgement of 6 to 8 at a leaf.
#![tactic(auto)]

ghost use Rattle.std.specs.Prelude.{◌≡◌, [], ◌∷◌, ℕ, ◌<◌, length, if◌then◌else◌, MatchOption};
ghost use Rattle.paper.specs.Bytes.{white, Every};
ghost use Rattle.paper.specs.Form.{Head};
ghost use Rattle.paper.specs.Values.{among};
ghost use Rattle.paper.specs.Refusals.{ends, only_white, first_not, text_refusal, value_refusal};
ghost use Rattle.paper.specs.Answers.{refusal_found};
ghost use Rattle.tree.specs.Laid.{between, Entry};
ghost use Rattle.rows_places.specs.Numbers.{of_entry, places_left, places_of};
ghost use Rattle.rows_contents.specs.Judged.{withdrawn_by, at_text, judgement, Judged};

use leaf_values::Unfit;
use paper::Fault;
use rows_places::{Left, Numbers};
use tree::Tree;

// Message and tree stay parameters: one message is at work here, so nothing can be taken for another's, and in a struct
// of what is lent each contract would say `message.entry.tree.now` for `tree.now`.

// What a walk judges of each element: nothing, for 3 and 4; 6 to 8, in an archived message; or 6 to 8 and 28, in a new one, of which a row is withdrawn.
// It stays a value: with a type parameter for it each case would be a type with the same two methods, and `rows::rows_refusal`, which is told by two flags, would choose among three walks.
#[derive(Clone, Copy)]
pub enum Judging {
    Rows,
    ArchivedValues,
    NewValues,
}

const WITHDRAWN: usize = 32;

// What the walk for 6 to 8 and 28 judges.
#[tactic(auto, unfolding(crate::specs::Judged::judgement, crate::specs::Judged::withdrawn_by, crate::specs::Judged::at_leaf, paper::specs::Refusals::value_refusal))]
pub fn of_values(archived: bool) -> Judging
    ensures { judgement result ≡ value_refusal (if archived then [] else 32 ∷ []) }
{
    if archived {
        Judging::ArchivedValues
    } else {
        Judging::NewValues
    }
}

// Whether an element of this row is refused by 28.
#[tactic(auto, unfolding(crate::specs::Judged::withdrawn_by, paper::specs::Values::among))]
pub fn is_withdrawn(judging: Judging, row: usize) -> bool
    ensures { result ≡ among row (withdrawn_by judging) }
{
    matches!(judging, Judging::NewValues) && row == WITHDRAWN
}

// The place of the first byte that is not white space. Where it is known that the text is white space alone
// (1, crates/tree/specs/Laid.antt), it is not read again. (`leaf_values::first_outside` does so for another class and another hint: what they share is one test.)
// (What is known stays a number, as the tree holds it.)
fn first_black(s: &[u8], known: usize) -> Option<usize>
    ensures { (known ≡ 1 → Every white s.now)
        → MatchOption result (length s.now ≡ first_not white s.now) (λ i. (i < length s.now) × (i ≡ first_not white s.now)) }
{
    if known == 1 {
        return None;
    }
    let ranks = form_ranks::ranks();
    s.iter().position(|&b| !form_ranks::is_white(&ranks, b))
}

// The end tag of a group where these places are left.
#[tactic(auto, unfolding(paper::specs::Answers::perhaps, paper::specs::Answers::refusal_found, paper::specs::Answers::refusal_of, paper::specs::Answers::numbered, paper::specs::Refusals::refuse, paper::specs::Refusals::ends))]
pub fn ended(numbers: &Numbers, left: Left, close: usize) -> Result<(), Fault>
    ensures { refusal_found result ≡ ends (places_left numbers.now.rows numbers.now.places left.from left.seen left.to) close }
{
    match rows_places::missing_further(numbers, left) {
        None => Ok(()),
        Some(element) => Err(Fault::Missing {
            element,
            offset: close,
        }),
    }
}

// Text in a group, element i as entry e: white space alone, and the end tag.
pub fn text_in_group(
    s: &[u8],
    tree: &Tree,
    numbers: &Numbers,
    i: usize,
    e: u16,
) -> Result<(), Fault>
    ensures { (h : Head) (next : ℕ) → Entry s.now tree.now i h next → refusal_found result
        ≡ only_white (of_entry numbers.now.rows e 0) (places_of numbers.now.rows numbers.now.places e) h (between h.start h.close s.now) }
{
    let text = tree_leaves::held(s, tree, i);
    if let Some(black) = first_black(text, tree::cell(tree, i, 5)) {
        return Err(Fault::NotAllowedThere {
            element: usize::from(rows_places::of_entry(&numbers.rows, e, 0)),
            offset: tree::cell(tree, i, 2).saturating_add(black),
        });
    }
    let left = Left {
        from: rows_places::of_entry(&numbers.rows, e, 4),
        seen: false,
        to: rows_places::of_entry(&numbers.rows, e, 5),
    };
    ended(numbers, left, tree::cell(tree, i, 3))
}

// 6 to 8 at element i as a leaf of this row.
fn judged(
    s: &[u8],
    tree: &Tree,
    parent: usize,
    i: usize,
    row: usize,
    longest: usize,
) -> Result<(), Fault>
    ensures { Judged text_refusal s.now tree.now parent i row longest result }
{
    let at = tree::cell(tree, i, 0);
    let judgement = leaf_values::leaf(
        parent,
        row,
        longest,
        tree_leaves::currency(s, tree, i),
        tree_leaves::held(s, tree, i),
        tree::cell(tree, i, 5),
    );
    match judgement {
        Ok(()) => Ok(()),
        Err(Unfit::EmptyOrTooLong) => Err(Fault::EmptyOrTooLong {
            element: row,
            offset: at,
        }),
        Err(Unfit::NotInTheSet { at: behind }) => Err(Fault::CharacterNotInTheSet {
            element: row,
            offset: tree::cell(tree, i, 2).saturating_add(behind),
        }),
        Err(Unfit::NotAllowed) => Err(Fault::ValueNotAllowed {
            element: row,
            offset: at,
        }),
    }
}

// Element i as a leaf of this row. (What is said of the leaf stays parameters: `leaf_values::leaf` takes them so, for any numbers.)
#[tactic(auto, unfolding(crate::specs::Judged::at_text, paper::specs::Answers::refusal_found))]
pub fn leaf(
    s: &[u8],
    tree: &Tree,
    judging: Judging,
    parent: usize,
    i: usize,
    row: usize,
    longest: usize,
) -> Result<(), Fault>
    ensures { Judged (at_text judging) s.now tree.now parent i row longest result }
{
    match judging {
        Judging::Rows => Ok(()),
        Judging::ArchivedValues | Judging::NewValues => judged(s, tree, parent, i, row, longest),
    }
}
