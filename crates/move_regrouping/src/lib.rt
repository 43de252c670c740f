// Whether one message regroups another by a list, for any two messages and any list.
#![tactic(auto)]

ghost use Rattle.std.specs.Prelude.{◌≡◌};
ghost use Rattle.paper.specs.Form.{Element};
ghost use Rattle.paper.specs.Rows.{as_new};
ghost use Rattle.paper.specs.Regrouping.{of_payments, all_values};
ghost use Rattle.paper.specs.Answers.{profile_named, regrouping_says};
ghost use Rattle.move_pairs.specs.Pairs.{InOrder};
ghost use Rattle.move_regrouping.specs.Promises.{RegroupPromise, DifferingPromise};

use move_alike::Side;
use move_pairs::Ordered;
use paper::{NotRegrouped, Profile, Regrouping};

// 15, 16, 17, and then each pair: 18, 19, 20.
// (How many stays beside each: `pairing` takes one number for both.)
fn listed(one: Ordered, many1: usize, other: Ordered, many2: usize, list: &[u8]) -> Regrouping
    ensures { (root1 root2 : Element) → InOrder one.entry.side.bytes.now one.entry.side.tree.now one.entry.order.now many1 root1
        → InOrder other.entry.side.bytes.now other.entry.side.tree.now other.entry.order.now many2 root2
        → regrouping_says result ≡ of_payments (all_values root1) (all_values root2) list.now }
{
    if many1 != many2 {
        return Err(NotRegrouped::NumbersOfPaymentsDiffer);
    }
    let n = move_lists::ordinals(list).ok_or(NotRegrouped::ListNotOfTheForm)?;
    if n != many1 {
        return Err(NotRegrouped::CountNotTheNumberOfPayments);
    }
    move_pairs::pairing(one, other, list, many1)?;
    Ok(())
}

// The profile of the same rows in which a message is new.
fn as_new(profile: Profile) -> Profile
    ensures { profile_named result ≡ as_new (profile_named profile) }
{
    Profile {
        archived: false,
        ..profile
    }
}

// The answer to a regrouping, both messages read by one profile's rows, the first perhaps archived and the second new: the first message's refusal, the second's, 15, 16, 17, and
// for each k 18, 19, 20.
pub fn regroup(profile: Profile, first: &[u8], second: &[u8], list: &[u8]) -> Regrouping
    ensures { RegroupPromise (profile_named profile) first.now second.now list.now result }
{
    let mut tree1 = [0u16; tree::NUMBERS];
    let mut order1 = [0u16; rule_limits::NUMBERS];
    let found1 = verdict_stages::outcome(profile, first, &mut tree1, &mut order1);
    let one = found1.map_err(NotRegrouped::FirstRefused)?;
    let mut tree2 = [0u16; tree::NUMBERS];
    let mut order2 = [0u16; rule_limits::NUMBERS];
    let found2 = verdict_stages::outcome(as_new(profile), second, &mut tree2, &mut order2);
    let other = found2.map_err(NotRegrouped::SecondRefused)?;
    let first_in_order = Ordered {
        side: Side {
            bytes: first,
            tree: &tree1,
        },
        order: &order1,
    };
    let second_in_order = Ordered {
        side: Side {
            bytes: second,
            tree: &tree2,
        },
        order: &order2,
    };
    listed(
        first_in_order,
        one.payments,
        second_in_order,
        other.payments,
        list,
    )
}

// For 20 the text of the differing field as the second message has it, a part of the second message; otherwise the empty part at 0 of the second.
pub fn differing<'a>(profile: Profile, first: &[u8], second: &'a [u8], list: &[u8]) -> &'a [u8]
    ensures { DifferingPromise (profile_named profile) first.now second.entry list.now result }
{
    match regroup(profile, first, second, list) {
        Err(NotRegrouped::FieldsDiffer { k, field }) => {
            verdict_reader::field(as_new(profile), second, k, field)
        }
        _ => &second[0..0],
    }
}
