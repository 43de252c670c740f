// IBANs. A text is a part of the message.
#![tactic(auto)]

ghost use Rattle.std.specs.Prelude.{◌≡◌, ◌<◌, ◌+◌, ◌*◌};
ghost use Rattle.paper.specs.Values.{iban};
ghost use Rattle.leaf_accounts.specs.Remainders.{read_one, remainder_after};

// One character more behind a number: a digit as itself, A to Z as 10 to 35.
#[tactic(auto, unfolding(crate::specs::Remainders::read_one))]
fn read_one(n: u64, b: u8) -> u64
    requires { n < 1000000000 }
    ensures { (result ≡ read_one n b) × (result < n * 100 + 300) }
{
    if leaf_texts::digit(b) {
        n * 10 + leaf_numbers::above(b'0', b)
    } else {
        n * 100 + (leaf_numbers::above(b'A', b) + 10)
    }
}

// The remainder by 97, taken over the rest of the account text, four characters at a time.
fn remainder(so_far: u64, s: &[u8]) -> u64
    requires { so_far < 97 }
    ensures { (result ≡ remainder_after so_far s.now) × (result < 97) }
{
    match s {
        [] => so_far,
        [a, b, c, d, rest @ ..] => {
            let two = read_one(read_one(so_far, *a), *b);
            let four = read_one(read_one(two, *c), *d);
            remainder(four % 97, rest)
        }
        [a, rest @ ..] => remainder(read_one(so_far, *a) % 97, rest),
    }
}

// Row 28: two capitals, two check digits from 02 to 98, capitals or digits; the whole length by country; four characters moved to the end, the
// number leaves 1 when divided by 97.
pub fn iban(s: &[u8]) -> bool
    ensures { result ≡ iban s.now }
{
    let Some((head, rest)) = s.split_at_checked(4) else {
        return false;
    };
    if !leaf_texts::shaped(b"AA00", head) {
        return false;
    }
    if !leaf_numbers::lies_from(2, 98, leaf_numbers::number(&s[2..4])) {
        return false;
    }
    if !leaf_texts::every(b'X', rest) {
        return false;
    }
    if !leaf_countries::country(&s[..2], s.len()) {
        return false;
    }
    remainder(remainder(0, rest), head) == 1
}
