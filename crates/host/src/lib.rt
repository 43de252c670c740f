// The two functions that the payment host calls, over lent bytes; include/glowenzo.h says them to C.
#![tactic(auto)]

ghost use Rattle.std.specs.Prelude.{◌≡◌, ◌++◌, ◌*◌, ◌≤◌, length, drop};
ghost use Rattle.paper.specs.Bytes.{each};
ghost use Rattle.paper.specs.Host.{profile_numbered, four_bytes};
ghost use Rattle.paper.specs.Answers.{profile_named};
ghost use Rattle.host.specs.Promises.{HostVerdictPromise, HostRegroupPromise};

use paper::{Fault, Profile};
use verdict_answers::{OfMessage, OfRegrouping};

// The bytes of the least table.
const LEAST_BYTES: usize = 4 * paper::LEAST_TABLE;

// The profile that numbers name: 1 is the instant one, any other the first; of a new message where `archived` is 0, of an archived one where it is any other.
fn profile_of(profile: u64, archived: u64) -> Profile
    ensures { profile_named result ≡ profile_numbered profile archived }
{
    Profile {
        instant: profile == 1,
        archived: archived != 0,
    }
}

// The numbers, each as four bytes, from the table's start on; every later byte stays.
fn write(numbers: &[u32], table: &mut [u8])
    requires { 4 * length numbers.now ≤ length table.old }
    ensures { table.new ≡ each four_bytes numbers.now ++ drop (4 * length numbers.now) table.old }
{
    for (i, n) in numbers.iter().enumerate() {
        table[4 * i..4 * i + 4].copy_from_slice(&n.to_be_bytes());
    }
}

// The verdict on a message, in the profile that numbers name, with the table as bytes.
#[unsafe(no_mangle)]
pub extern "C" fn glowenzo_verdict(
    profile: u64,
    archived: u64,
    message: &[u8],
    table: &mut [u8],
) -> OfMessage
    ensures { HostVerdictPromise profile archived message.now table.old result table.new }
{
    if table.len() < LEAST_BYTES {
        return OfMessage::from(Err(Fault::TableTooShort));
    }
    let mut numbers = [0u32; paper::LEAST_TABLE];
    let verdict = verdict_reader::verdict(profile_of(profile, archived), message, &mut numbers);
    if let Ok(accepted) = verdict {
        write(
            &numbers[..paper::NUMBERS_PER_PAYMENT * accepted.payments],
            table,
        );
    }
    OfMessage::from(verdict)
}

// Whether one message regroups another by a list, both in the profile that a number names, the first perhaps archived.
#[unsafe(no_mangle)]
pub extern "C" fn glowenzo_regroup(
    profile: u64,
    archived: u64,
    first: &[u8],
    second: &[u8],
    list: &[u8],
) -> OfRegrouping
    ensures { HostRegroupPromise profile archived first.now second.now list.now result }
{
    let found = move_regrouping::regroup(profile_of(profile, archived), first, second, list);
    OfRegrouping::from(found)
}
