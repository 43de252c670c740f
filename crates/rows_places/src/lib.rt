// Which place of a group a child takes, and what is missing before it, over a profile in numbers (specs/Numbers.antt).
#![tactic(auto)]

ghost use Rattle.std.specs.Prelude.{◌≡◌, List, ℕ, ◌<◌, eqb, IfSome};
ghost use Rattle.paper.specs.Form.{Head};
ghost use Rattle.paper.specs.Rows.{Profile};
ghost use Rattle.paper.specs.Refusals.{from_here, missing_of, missing};
ghost use Rattle.paper.specs.Answers.{perhaps};
ghost use Rattle.form_names.specs.Names.{name_number};
ghost use Rattle.tree.specs.Laid.{Entry};
ghost use Rattle.rows_places.specs.Numbers.{number_at, of_entry, places_between, places_left};
ghost use Rattle.rows_places.specs.Seek.{ResolvedBetween, Resolved, Takes, StandsAt, Seeks, SeekPromise};

use tree::Tree;

const ENTRIES: usize = 59;

const PLACES: usize = 68;

// The tables stay numbers, and a place's kind one of 0 to 3: callers lend any numbers, of which specs/Numbers.antt: Stands says when they stand for a profile, and an enum would be narrower.
pub type Rows = [[u16; 6]; ENTRIES];

pub type Places = [[u16; 3]; PLACES];

// A profile in numbers (specs/Numbers.antt): its entries, and their places.
#[derive(Clone, Copy)]
pub struct Numbers {
    pub rows: Rows,
    pub places: Places,
}

// The places left in a group: those from `from` up to `to`, where one of the `plus` at `from` may have been seen.
#[derive(Clone, Copy)]
pub struct Left {
    pub from: u16,
    pub seen: bool,
    pub to: u16,
}

// The place that a child takes, and as which entry.
#[derive(Clone, Copy)]
struct Standing {
    place: u16,
    entry: u16,
}

// What a child is: an entry, and the places left then.
#[derive(Clone, Copy)]
pub struct Placed {
    pub entry: u16,
    pub left: Left,
}

// Why a child has no place: it is never allowed there, or comes too early for a missing row.
#[derive(Clone, Copy)]
pub enum Unplaced {
    Never,
    Early(usize),
}

// Number k of a line; 0 where there is none.
// (0, and no Option, where there is none: so `of_entry` is promised.)
#[tactic(auto, unfolding(crate::specs::Numbers::number_at))]
fn number<const LINES: usize, const N: usize>(table: &[[u16; N]; LINES], line: u16, k: usize) -> u16
    ensures { result ≡ number_at LINES N table.now line k }
{
    let line = usize::from(line);
    if LINES <= line || N <= k {
        return 0;
    }
    table[line][k]
}

// Number k of entry e.
pub fn of_entry(rows: &Rows, e: u16, k: usize) -> u16
    ensures { result ≡ of_entry rows.now e k }
{
    number(rows, e, k)
}

// The first row that is missing among the places from `from` up to `to`.
fn missing(numbers: &Numbers, from: u16, to: u16) -> Option<usize>
    ensures { perhaps result ≡ missing_of (places_between numbers.now.rows numbers.now.places from to) }
{
    for p in from..to {
        if number(&numbers.places, p, 0) != 1 {
            let first = number(&numbers.places, p, 1);
            return Some(usize::from(of_entry(&numbers.rows, first, 0)));
        }
    }
    None
}

// The first row that is missing among the places left.
#[tactic(auto, unfolding(crate::specs::Numbers::places_left, paper::specs::Answers::perhaps, paper::specs::Refusals::missing), using(crate::proofs::Places::missing_ends))]
pub fn missing_further(numbers: &Numbers, left: Left) -> Option<usize>
    ensures { perhaps result ≡ missing (places_left numbers.now.rows numbers.now.places left.from left.seen left.to) }
{
    if !left.seen {
        return missing(numbers, left.from, left.to);
    }
    if left.to <= left.from {
        return None;
    }
    missing(numbers, left.from + 1, left.to)
}

// Element i has the name of entry e.
fn named(tree: &Tree, rows: &Rows, i: usize, e: u16) -> bool
    ensures { (s : List ℕ) (h : Head) (next : ℕ) → Entry s tree.now i h next
        → result ≡ eqb (name_number h.name) (of_entry rows.now e 2) }
{
    tree::cell(tree, i, 1) == usize::from(of_entry(rows, e, 2))
}

// The entry at place p that has the name of element i.
fn taken_by(tree: &Tree, numbers: &Numbers, i: usize, p: u16) -> Option<u16>
    ensures { (profile : Profile) (parent : ℕ) (s : List ℕ) (h : Head) (next : ℕ) → Resolved profile numbers.now.rows numbers.now.places parent p
        → Entry s tree.now i h next → Takes profile numbers.now.rows numbers.now.places parent h.name p result }
{
    let first = number(&numbers.places, p, 1);
    if named(tree, &numbers.rows, i, first) {
        return Some(first);
    }
    if number(&numbers.places, p, 0) < 3 {
        return None;
    }
    let second = number(&numbers.places, p, 2);
    if named(tree, &numbers.rows, i, second) {
        return Some(second);
    }
    None
}

// The first place from `from` up to `to` that takes the name of element i.
// (`from` and `to` stay two: what is searched is not always a `Left`, whose `seen` would say nothing here; tree and numbers are any that are lent.)
fn find(tree: &Tree, numbers: &Numbers, i: usize, from: u16, to: u16) -> Option<Standing>
    ensures within { IfSome result (λ at. at.place < to) }
    ensures stands { (profile : Profile) (parent : ℕ) (s : List ℕ) (h : Head) (next : ℕ)
        → ResolvedBetween profile numbers.now.rows numbers.now.places parent from to
        → Entry s tree.now i h next → StandsAt profile numbers.now.rows numbers.now.places parent h.name from to result }
{
    for p in from..to {
        if let Some(entry) = taken_by(tree, numbers, i, p) {
            return Some(Standing { place: p, entry });
        }
    }
    None
}

// What comes of element i where the places from `from` up to `to` are left. (Inlined: its answer, handed on whole through memory, is waited for.)
#[inline(always)]
fn seek(tree: &Tree, numbers: &Numbers, i: usize, from: u16, to: u16) -> Result<Placed, Unplaced>
    ensures { (profile : Profile) (parent : ℕ) (s : List ℕ) (h : Head) (next : ℕ)
        → ResolvedBetween profile numbers.now.rows numbers.now.places parent from to
        → Entry s tree.now i h next
        → Seeks profile numbers.now.rows numbers.now.places parent h.name
        (from_here (places_between numbers.now.rows numbers.now.places from to)) from to result }
{
    let Some(Standing { place, entry }) = find(tree, numbers, i, from, to) else {
        return Err(Unplaced::Never);
    };
    if let Some(first) = missing(numbers, from, place) {
        return Err(Unplaced::Early(first));
    }
    if number(&numbers.places, place, 0) == 2 {
        let left = Left {
            from: place,
            seen: true,
            to,
        };
        return Ok(Placed { entry, left });
    }
    let left = Left {
        from: place + 1,
        seen: false,
        to,
    };
    Ok(Placed { entry, left })
}

// What comes of element i where these places are left.
pub fn seek_further(
    tree: &Tree,
    numbers: &Numbers,
    i: usize,
    left: Left,
) -> Result<Placed, Unplaced>
    ensures { SeekPromise tree.now numbers.now.rows numbers.now.places i left.from left.seen left.to result }
{
    if !left.seen {
        return seek(tree, numbers, i, left.from, left.to);
    }
    let entry = number(&numbers.places, left.from, 1);
    if named(tree, &numbers.rows, i, entry) {
        return Ok(Placed { entry, left });
    }
    if left.to <= left.from {
        return Err(Unplaced::Never);
    }
    seek(tree, numbers, i, left.from + 1, left.to)
}
