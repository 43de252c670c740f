// The number that characters spell, modulo 97 (ISO 13616; ISO 7064, MOD 97-10). It is too long to be held, so it is divided as on paper: one character after another, with
// nothing held but the remainder so far and the next digits behind it. `leaf_accounts::remainder` stands beside it for its speed:
// it takes four characters at a time (docs/DECISIONS.md).
#![tactic(auto)]

ghost use Rattle.std.specs.Prelude.{◌≡◌, [], ◌∷◌, ◌++◌, ◌+◌, ◌*◌, ◌%◌, ◌<◌, ◌≤◌};
ghost use Rattle.paper.specs.Values.{read_after};
ghost use Rattle.leaf_remainders.specs.Remainders.{modulo_97};

// The number that the characters of `front` and then those of `end` spell, modulo 97.
pub fn modulo_97(front: &[u8], end: &[u8]) -> u8
    ensures { result ≡ modulo_97 (front.now ++ end.now) }
{
    let of_front = remainder(0, front);
    remainder(of_front, end)
}

// A to Z are read as 10 to 35, a digit as itself. (Whoever asks has refused all other characters; what is said here holds of every byte, and 255 is the largest.)
fn read_as(c: u8) -> u64
    ensures { (result ≡ read_after 0 (c ∷ [])) × (result ≤ 10 + 255) }
{
    if leaf_texts::digit(c) {
        leaf_numbers::above(b'0', c)
    } else {
        10 + leaf_numbers::above(b'A', c)
    }
}

// The next digits are written behind the remainder that is held. A number below 10 is one digit, so the remainder moves by one place; from 10 to 35 it is two digits, so
// the remainder moves by two.
fn behind(held: u8, next: u64) -> u64
    requires { next ≤ 10 + 255 }
    ensures { (next < 10 → result ≡ held * 10 + next) × (10 ≤ next → result ≡ held * 100 + next) }
{
    let place = if next < 10 { 10 } else { 100 };
    u64::from(held) * place + next
}

// Divided by 97: the remainder that is held, with the next character's digits behind it, leaves the next remainder. With this one the characters that are still unread go on. (`as`, which is
// proved to fit: `try_from` would have an error to answer.)
fn remainder(held: u8, unread: &[u8]) -> u8
    requires { held < 97 }
    ensures { (result ≡ read_after held unread.now % 97) × (result < 97) }
{
    match unread {
        [] => held,
        [next, rest @ ..] => {
            let number = behind(held, read_as(*next));
            remainder((number % 97) as u8, rest)
        }
    }
}
