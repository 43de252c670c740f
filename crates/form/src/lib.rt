// The written form (docs/RULES.md, 2; refusal 2): whether a message is of the form, and if not, the first byte that cannot be; and the tree of a message of the
// form, laid out as numbers in a lent buffer (crates/tree/specs/Laid.antt). One pass over the message, in place. Elements within elements are read by
// recursion, which the depth bounds; siblings and bytes are read by loops. The numbers of an element are put down behind its end tag.
#![tactic(auto)]

ghost use Rattle.std.specs.Prelude.{◌≡◌, false, ◌+◌, ◌*◌, ◌%◌, ◌≤◌, ◌<◌, length, get_or};
ghost use Rattle.paper.specs.Computed.Reading.{opening, before};
ghost use Rattle.paper.specs.Bytes.{white};
ghost use Rattle.form_ranks.specs.Ranks.{RanksAre};
ghost use Rattle.form_names.specs.Names.{NamesAre, name_number};
ghost use Rattle.tree.specs.Laid.{between};
ghost use Rattle.form.specs.Promise.{FormPromise};
ghost use Rattle.form.specs.Reads.{ChildAt, PutDown, TextKnown, known_number, HeldAt, ContentRead, ElementRead, InsideRead, Prologue, InRoot, RootRead};

use form_names::Names;
use form_ranks::Ranks;
use form_scans::{Scan, Stop};
use tree::Tree;

// The answer: of the form, or the stop of a message that is not. `FormPromise` tells what each says of the message and of the buffer.
pub type Form = Result<(), Stop>;

// An element was read up to an offset, and the next one has this number.
#[derive(Clone, Copy)]
struct Read {
    at: usize,
    next: usize,
}

// What is known of an element's text: nothing, that it is white space, or that it is characters of values.
#[derive(Clone, Copy)]
enum Kind {
    Any,
    White,
    Values,
}

impl From<Kind> for u16 {
    ghost from_gives = { λ kind number. number ≡ known_number kind };

    fn from(kind: Kind) -> u16 {
        match kind {
            Kind::Any => 0,
            Kind::White => 1,
            Kind::Values => 3,
        }
    }
}

// What an element holds was read up to its end tag: with the next element's number, and what is known of its text.
#[derive(Clone, Copy)]
struct Held {
    close: usize,
    next: usize,
    text: Kind,
}

// The low 16 bits, as `PutDown` has them of any number, where a message is too long for its tree; `rule_limits::narrow` promises of numbers that fit
// alone, and one for both would be public, with a promise and two wrong programs, for one line.
fn narrow(x: usize) -> u16
    ensures { result ≡ x % 65536 }
{
    (x % 65536) as u16
}

// Puts down the numbers of element i, where the buffer has room for it.
fn put_down(tree: &mut Tree, i: usize, lt: usize, number: usize, start: usize, held: Held)
    ensures { PutDown tree.old tree.new i lt number start held.close held.next (known_number held.text) }
{
    if tree::ELEMENTS <= i {
        return;
    }
    tree[i * 6] = narrow(lt);
    tree[i * 6 + 1] = narrow(number);
    tree[i * 6 + 2] = narrow(start);
    tree[i * 6 + 3] = narrow(held.close);
    tree[i * 6 + 4] = narrow(held.next);
    tree[i * 6 + 5] = u16::from(held.text);
}

// Whether a child's start tag begins here, which is a `<` that no `/` follows.
fn child_at(s: &[u8], at: usize) -> bool
    requires { at ≤ length s.now }
    ensures { ChildAt s.now at result }
{
    if s.len() <= at + 1 {
        return false;
    }
    s[at] == b'<' && s[at + 1] != b'/'
}

// What is known of the text from `start` to `close`, in which the white space ends at p, and the characters of values behind it at `values`.
fn known(start: usize, p: usize, values: usize, close: usize) -> Kind
    ensures { TextKnown start p values close result }
{
    if close == p {
        return Kind::White;
    }
    if p == start && close == values {
        return Kind::Values;
    }
    Kind::Any
}

// The declaration, if the message begins with one.
fn prologue(s: &[u8]) -> Scan
    ensures { Prologue s.now result }
{
    if !s.starts_with(b"<?") {
        return Ok(0);
    }
    form_scans::word(s, 0, b"<?xml version=\"1.0\" encoding=\"UTF-8\"?>")
}

// A message that is read, and the tables of its bytes' ranks and its names' numbers, which the reading of what the root holds looks into everywhere.
#[derive(Clone, Copy)]
struct Reader<'a> {
    s: &'a [u8],
    ranks: &'a Ranks,
    names: &'a Names,
    ghost ranked: { RanksAre ranks.now },
    ghost named: { NamesAre names.now },
}

impl Reader<'_> {
    // What an element holds that begins at `start`, where children were read, or none if they end at `start`, and no child begins behind the white space
    // there, which ends at p.
    fn ending(&self, start: usize, read: Read, p: usize) -> Held
        requires { p ≤ length self.now.s.now }
        ensures { HeldAt self.now.s.now start read.at p read.next result }
    {
        let next = read.next;
        if read.at != start {
            return Held {
                close: p,
                next,
                text: Kind::Any,
            };
        }
        let values = form_scans::value_end(self.s, self.ranks, p);
        let close = form_scans::text_end(self.s, self.ranks, values);
        Held {
            close,
            next,
            text: known(start, p, values, close),
        }
    }

    // What an element holds, text or elements, up to its end tag; the first element in it has number i. `left` is how many depths more there may be. (Number and depth stay
    // parameters: what is asked of them is of another offset each time.)
    #[cycle(content_element_inside)]
    fn content(&self, tree: &mut Tree, start: usize, i: usize, left: usize) -> Result<Held, Stop>
        requires { (start ≤ length self.now.s.now) × (left ≤ 12) × (7 * i + 4 * left ≤ start + 48) }
        ensures { ContentRead self.now.s.now tree.old tree.new start i left result }
    {
        let mut read = Read { at: start, next: i };
        loop {
            let p = form_scans::white_end(self.s, self.ranks, read.at);
            if !child_at(self.s, p) {
                return Ok(self.ending(start, read, p));
            }
            read = self.element(tree, p, read.next, left)?;
        }
    }

    // Element i, whose `<` stands at an offset.
    #[cycle(content_element_inside)]
    fn element(&self, tree: &mut Tree, lt: usize, i: usize, left: usize) -> Result<Read, Stop>
        requires { (lt + 1 < length self.now.s.now) × (left ≤ 12) × (7 * i + 4 * left ≤ lt + 48)
            × (get_or self.now.s.now (lt + 1) 0 ≡ 47 → ⊥) }
        ensures { ElementRead self.now.s.now tree.old tree.new lt i left result }
    {
        let at = lt + 1;
        if form_ranks::rank(self.ranks, self.s[at]) < 6 {
            return Err(Stop { at });
        }
        if left == 0 {
            return Err(Stop { at });
        }
        let e = form_scans::name_end(self.s, self.ranks, at);
        if e == self.s.len() {
            return Err(Stop { at: e });
        }
        if 5 <= form_ranks::rank(self.ranks, self.s[e]) {
            return Err(Stop { at: e });
        }
        let number = form_names::number_of(self.names, &self.s[at..e]);
        let start = form_scans::tag_end(self.s, self.ranks, number, e)?;
        self.inside(tree, lt, e, number, start, i, left)
    }

    // What element i holds, behind its start tag, which begins at `lt` and whose name ends at `e`; and its end tag.
    #[cycle(content_element_inside)]
    fn inside(
        &self,
        tree: &mut Tree,
        lt: usize,
        e: usize,
        number: usize,
        start: usize,
        i: usize,
        left: usize,
    ) -> Result<Read, Stop>
        requires { (start ≤ length self.now.s.now) × (1 ≤ left) × (left ≤ 12)
            × (7 * i + 4 * left ≤ lt + 48) × (lt + 1 < e) × (e < start) × (number ≡ name_number (between (lt + 1) e self.now.s.now)) }
        ensures { InsideRead self.now.s.now tree.old tree.new lt e start i left result }
    {
        let held = self.content(tree, start, i + 1, left - 1)?;
        let at = form_scans::end_tag(self.s, &self.s[lt + 1..e], held.close)?;
        put_down(tree, i, lt, number, start, held);
        Ok(Read {
            at,
            next: held.next,
        })
    }
}

// What the root holds, behind its start tag, which begins at an offset; and its end tag.
// (The names are made here, where the first is looked for: what is refused before it needs none.)
fn in_root(s: &[u8], ranks: &Ranks, tree: &mut Tree, at: usize, start: usize) -> Scan
    requires { RanksAre ranks.now × (start ≤ length s.now) × (start ≡ at + 65) }
    ensures { (length tree.new ≡ length tree.old) × InRoot s.now tree.new at start result }
{
    let names = form_names::names();
    let reader = Reader {
        s,
        ranks,
        names: &names,
    };
    let held = reader.content(tree, start, 1, 11)?;
    let end = form_scans::end_tag(s, b"Document", held.close)?;
    put_down(tree, 0, at, 1, start, held);
    Ok(end)
}

// The root, where no white space stands before it.
fn root_at(s: &[u8], ranks: &Ranks, tree: &mut Tree, at: usize) -> Scan
    requires { RanksAre ranks.now × (at ≤ length s.now) × (at < length s.now → white (get_or s.now at 0) ≡ false) }
    ensures { (length tree.new ≡ length tree.old) × RootRead s.now tree.new at before result }
{
    let p = form_scans::word(
        s,
        at,
        b"<Document xmlns=\"urn:iso:std:iso:20022:tech:xsd:pain.001.001.09\">",
    )?;
    in_root(s, ranks, tree, at, p)
}

// The message up to the end of its root.
fn root(s: &[u8], ranks: &Ranks, tree: &mut Tree) -> Scan
    requires { RanksAre ranks.now }
    ensures { (length tree.new ≡ length tree.old) × RootRead s.now tree.new 0 opening result }
{
    let p = prologue(s)?;
    root_at(s, ranks, tree, form_scans::white_end(s, ranks, p))
}

// Whether the message is of the form, and if not, the offset of refusal 2. Where it is of the form, its tree is laid out.
pub fn form_of(s: &[u8], tree: &mut Tree) -> Form
    ensures { 28200 ≤ length tree.old → FormPromise s.now tree.new result }
{
    let ranks = form_ranks::ranks();
    let p = root(s, &ranks, tree)?;
    let end = form_scans::white_end(s, &ranks, p);
    if end == s.len() {
        Ok(())
    } else {
        Err(Stop { at: end })
    }
}
