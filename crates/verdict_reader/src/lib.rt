// The verdict on a message, the lent table, and the text of a field.
#![tactic(auto)]

ghost use Rattle.std.specs.Prelude.{◌<◌};
ghost use Rattle.paper.specs.Answers.{profile_named};
ghost use Rattle.verdict_reader.specs.Promises.{VerdictPromise, FieldPromise};

use paper::{Fault, Profile, Verdict};

// The verdict on a message, in a profile. Where it is accepted, the lent table holds its payments; otherwise the table is as it was.
pub fn verdict(profile: Profile, message: &[u8], table: &mut [u32]) -> Verdict
    ensures { VerdictPromise (profile_named profile) message.now table.old result table.new }
{
    if table.len() < paper::LEAST_TABLE {
        return Err(Fault::TableTooShort);
    }
    let mut tree = [0u16; tree::NUMBERS];
    let mut order = [0u16; rule_limits::NUMBERS];
    let accepted = verdict_stages::outcome(profile, message, &mut tree, &mut order)?;
    verdict_table::fill(message, &tree, &order, accepted.payments, table);
    Ok(accepted)
}

// The text of a field, as a part of the message. Refused message, unknown payment or field, or no such element: the empty part at 0.
// (The empty part, and no Option: so it is promised, and in `differing`.)
pub fn field(profile: Profile, message: &[u8], payment: usize, field: usize) -> &[u8]
    ensures { FieldPromise (profile_named profile) message.entry payment field result }
{
    let mut tree = [0u16; tree::NUMBERS];
    let mut order = [0u16; rule_limits::NUMBERS];
    let outcome = verdict_stages::outcome(profile, message, &mut tree, &mut order);
    let Ok(accepted) = outcome else {
        return &message[0..0];
    };
    if accepted.payments <= payment {
        return &message[0..0];
    }
    verdict_parts::field_in(message, &tree, &order, payment, field)
}
