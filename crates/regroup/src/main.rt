// Whether `second.xml` regroups `first.xml` by `list.rgl`, all three in the current folder; one that can't be opened counts as empty. Started with the word `instant` it reads
// both messages in the instant profile, with the word `archived` the first as an archived one.
#![tactic(auto)]

ghost use Rattle.std.specs.Io.{ReadsAtMost};

use paper::Profile;
use std::io;
use std::rt::Files;
use verdict_answers::OfRegrouping;

// What the file holds, as much as the buffer takes; nothing where it can't be opened.
// (`run_frames::load` says on standard error why; this program says nothing.)
fn load<R: Files>(rt: &R, path: &[u8], buf: &mut [u8]) -> io::Result<usize>
    ensures { ReadsAtMost result buf.new }
{
    match run_reading::open(rt, path) {
        Ok(mut file) => run_reading::fill(&mut file, buf),
        Err(_) => Ok(0),
    }
}

fn answer<R: Files + Print>(rt: &R, profile: Profile) -> io::Result<()> {
    let mut first = [0u8; 32769];
    let mut second = [0u8; 32769];
    let mut list = [0u8; 131078];
    let n = load(rt, b"first.xml", &mut first)?;
    let m = load(rt, b"second.xml", &mut second)?;
    let l = load(rt, b"list.rgl", &mut list)?;
    let answer = move_regrouping::regroup(profile, &first[..n], &second[..m], &list[..l]);
    run_printing::regrouping(rt, OfRegrouping::from(answer))
}

fn main(rt: HostRuntime) -> io::Result<()> {
    let own = Profile {
        instant: false,
        archived: false,
    };
    match run_words::asked(&rt, &rt.stderr(), own, true)? {
        Some(profile) => answer(&rt, profile),
        None => Ok(()),
    }
}
