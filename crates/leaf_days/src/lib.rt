// Days and times. A text is a part of the message.
#![tactic(auto)]

ghost use Rattle.std.specs.Prelude.{◌≡◌, ◌||◌};
ghost use Rattle.paper.specs.Values.{days_in, true_day, date, date_and_time, shaped, zone, date_time_zone};

#[tactic(auto, unfolding(paper::specs::Values::days_in, paper::specs::Values::among))]
fn days_in(year: u64, month: u64) -> u64
    ensures { result ≡ days_in year month }
{
    match month {
        2 if year % 4 == 0 => 29,
        2 => 28,
        4 | 6 | 9 | 11 => 30,
        _ => 31,
    }
}

#[tactic(auto, unfolding(paper::specs::Values::true_day))]
fn true_day(year: u64, month: u64, day: u64) -> bool
    ensures { result ≡ true_day year month day }
{
    leaf_numbers::lies_from(2000, 2099, year)
        && leaf_numbers::lies_from(1, 12, month)
        && leaf_numbers::lies_from(1, days_in(year, month), day)
}

// Row 23: `YYYY-MM-DD`, a true day of the years 2000 to 2099.
pub fn date(s: &[u8]) -> bool
    ensures { result ≡ date s.now }
{
    if !leaf_texts::shaped(b"0000-00-00", s) {
        return false;
    }
    let year = leaf_numbers::number(&s[0..4]);
    let month = leaf_numbers::number(&s[5..7]);
    let day = leaf_numbers::number(&s[8..10]);
    true_day(year, month, day)
}

// Row 5: such a day, `T`, `hh:mm:ss` up to 23:59:59.
pub fn date_and_time(s: &[u8]) -> bool
    ensures { result ≡ date_and_time s.now }
{
    if !leaf_texts::shaped(b"0000-00-00T00:00:00", s) {
        return false;
    }
    if !date(&s[0..10]) {
        return false;
    }
    if 23 < leaf_numbers::number(&s[11..13]) {
        return false;
    }
    if 59 < leaf_numbers::number(&s[14..16]) {
        return false;
    }
    leaf_numbers::number(&s[17..19]) <= 59
}

// A sign and `hh:mm`.
#[tactic(auto, using(leaf_texts::proofs::Laws::shaped_is), unfolding(paper::specs::Bytes::bytes))]
fn signed(s: &[u8]) -> bool
    ensures { result ≡ (shaped "+00:00" s.now || shaped "-00:00" s.now) }
{
    leaf_texts::shaped(b"+00:00", s) || leaf_texts::shaped(b"-00:00", s)
}

// `Z`, or a sign and `hh:mm` from 00:00 to 14:00.
fn zone(s: &[u8]) -> bool
    ensures { result ≡ zone s.now }
{
    if leaf_texts::same(s, b"Z") {
        return true;
    }
    if !signed(s) {
        return false;
    }
    let hours = leaf_numbers::number(&s[1..3]);
    let minutes = leaf_numbers::number(&s[4..6]);
    minutes <= 59 && hours * 60 + minutes <= 14 * 60
}

// Row 58: a date and time as in row 5, then its zone: `Z`, or a sign and `hh:mm` from 00:00 to 14:00.
pub fn date_time_zone(s: &[u8]) -> bool
    ensures { result ≡ date_time_zone s.now }
{
    s.split_at_checked(19)
        .is_some_and(|(time, rest)| date_and_time(time) && zone(rest))
}
