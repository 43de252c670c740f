// The verdict on the message on standard input, in the instant profile. Started with the word `archived` it reads the message as an archived one.
#![tactic(auto)]

use paper::Profile;
use std::io;

// A main for each of two programs, which differ in this profile: what they do is `on_input`'s.
fn main(rt: HostRuntime) -> io::Result<()> {
    let own = Profile {
        instant: true,
        archived: false,
    };
    if let Some(profile) = run_words::asked(&rt, &rt.stderr(), own, false)? {
        run_verdict::on_input(&rt, profile)?;
    }
    Ok(())
}
