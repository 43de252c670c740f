// The regrouping list: how many ordinals it has, and which.
#![tactic(auto)]

ghost use Rattle.std.specs.Prelude.{◌≡◌, List, ℕ, ◌+◌, ◌*◌, ◌<◌, ◌≤◌, length, get_or};
ghost use Rattle.std.proofs.Math.Option.{some};
ghost use Rattle.paper.specs.Regrouping.{ordinals_of};
ghost use Rattle.move_lists.specs.Lists.{how_many};

// The number in two bytes.
fn number(high: u8, low: u8) -> usize
    ensures { (result ≡ high * 256 + low) × (result < 65536) }
{
    usize::from(u16::from_be_bytes([high, low]))
}

// The number in the two bytes from a place on, high byte first; bytes past the end count as zeros.
// (No Option: `ordinal` is promised as a number, 0 past the end.)
fn number_at(list: &[u8], at: usize) -> usize
    ensures within { at + 1 < length list.now → result ≡ get_or list.now at 0 * 256 + get_or list.now (at + 1) 0 }
    ensures past { length list.now ≤ at → result ≡ 0 }
    ensures small { result < 65536 }
{
    if list.len() <= at {
        return 0;
    }
    number(
        leaf_texts::byte_at(list, at),
        leaf_texts::byte_at(list, at + 1),
    )
}

// How many ordinals the list has, if it is of the form.
pub fn ordinals(list: &[u8]) -> Option<usize>
    ensures { result ≡ how_many (ordinals_of list.now) }
{
    let [b'R', b'G', b'L', 0, 1, high, low, ordinals @ ..] = list else {
        return None;
    };
    let count = number(*high, *low);
    (ordinals.len() == 2 * count).then_some(count)
}

// Ordinal k of the list; 0 past its end.
pub fn ordinal(list: &[u8], k: usize) -> usize
    ensures { (ks : List ℕ) → ordinals_of list.now ≡ some ks → result ≡ get_or ks k 0 }
{
    if list.len() / 2 <= k {
        return 0;
    }
    number_at(list, 7 + 2 * k)
}
