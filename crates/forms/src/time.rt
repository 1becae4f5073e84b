// The date and time types: two digits within a range, what stands between them, and what may follow.
ghost use Rattle.std.specs.Prelude.{◌≡◌};
ghost use Rattle.numbers.specs.Bytes.{mem};
ghost use Rattle.forms.specs.Form.{accepts, ◌▷◌, ◌∣◌, nil, one};
ghost use Rattle.forms.specs.Types.{byte, digit, colon, maybe, times, two, date, time, fraction, timestamp, time_only, month_year, offset, tz_time, all_counts};
ghost use Rattle.forms.specs.Words.{is_two};
ghost use Rattle.forms.specs.Walks.{LeavesBehind, Leaves};

use super::number::{between, is_pair};
use numbers::decimal::all_digits;

// Each `after_` gives what follows a text in front of s, if it stands there.
#[tactic(auto, using(crate::proofs::Pairs::front_is))]
fn after_pair(s: &[u8], lo: u8, hi: u8) -> Option<&[u8]>
    ensures { LeavesBehind (is_two lo hi) 2 s.now result }
{
    match s {
        [a, b, rest @ ..] if is_pair(*a, *b, lo, hi) => Some(rest),
        _ => None,
    }
}

// YYYYMM: YYYY 0000 to 9999, MM 01 to 12
fn after_month(s: &[u8]) -> Option<&[u8]>
    ensures { Leaves (times 4 digit ▷ two 1 12) s.now result }
{
    after_pair(after_pair(after_pair(s, 0, 99)?, 0, 99)?, 1, 12)
}

// YYYYMMDD, DD 01 to 31 in every month
fn after_date(s: &[u8]) -> Option<&[u8]>
    ensures { Leaves date s.now result }
{
    after_pair(after_month(s)?, 1, 31)
}

// `:` and 00 to 59, the minutes of a time, the seconds of 15 and the mm of an offset
fn after_sixtieth(s: &[u8]) -> Option<&[u8]>
    ensures { Leaves (colon ▷ two 0 59) s.now result }
{
    after_pair(s.strip_prefix(b":")?, 0, 59)
}

// HH:MM: HH 00 to 23, minutes 00 to 59
fn after_minutes(s: &[u8]) -> Option<&[u8]>
    ensures { Leaves (two 0 23 ▷ colon ▷ two 0 59) s.now result }
{
    after_sixtieth(after_pair(s, 0, 23)?)
}

// HH:MM:SS, SS 00 to 60
fn after_time(s: &[u8]) -> Option<&[u8]>
    ensures { Leaves time s.now result }
{
    after_pair(after_minutes(s)?.strip_prefix(b":")?, 0, 60)
}

// 13 UTCDateOnly
pub fn is_date(s: &[u8]) -> bool
    ensures { result ≡ accepts date s.now }
{
    after_date(s).is_some_and(<[u8]>::is_empty)
}

// What follows in 14: nothing, DD, or w1 to w5
fn is_day_or_week(s: &[u8]) -> bool
    ensures { result ≡ accepts (nil ∣ two 1 31 ∣ byte 119 ▷ one 49 53) s.now }
{
    match s {
        [] => true,
        [b'w', week] => between(*week, b'1', b'5'),
        [a, b] => is_pair(*a, *b, 1, 31),
        _ => false,
    }
}

// 14 MonthYear
pub fn is_month_year(s: &[u8]) -> bool
    ensures { result ≡ accepts month_year s.now }
{
    after_month(s).is_some_and(is_day_or_week)
}

// 3, 6, 9 or 12 digits
#[tactic(auto, using(crate::proofs::Times::count_is))]
fn is_count(n: usize) -> bool
    ensures { result ≡ mem n all_counts }
{
    matches!(n, 3 | 6 | 9 | 12)
}

// What follows in 11 and 12: nothing, or a point and digits
fn is_fraction(s: &[u8]) -> bool
    ensures { result ≡ accepts (fraction all_counts) s.now }
{
    match s {
        [] => true,
        [b'.', digits @ ..] => is_count(digits.len()) && all_digits(digits),
        _ => false,
    }
}

// 12 UTCTimeOnly: the time part of 11
pub fn is_time_only(s: &[u8]) -> bool
    ensures { result ≡ accepts (time_only all_counts) s.now }
{
    after_time(s).is_some_and(is_fraction)
}

// 11 UTCTimestamp: YYYYMMDD-HH:MM:SS
pub fn is_timestamp(s: &[u8]) -> bool
    ensures { result ≡ accepts (timestamp all_counts) s.now }
{
    match after_date(s) {
        Some([b'-', time @ ..]) => is_time_only(time),
        _ => false,
    }
}

// Optional :mm
fn is_minutes(s: &[u8]) -> bool
    ensures { result ≡ accepts (maybe (colon ▷ two 0 59)) s.now }
{
    s.is_empty() || after_sixtieth(s).is_some_and(<[u8]>::is_empty)
}

// Nothing, Z, or + or - with hh, 01 to 12, and optional :mm
fn is_offset(s: &[u8]) -> bool
    ensures { result ≡ accepts offset s.now }
{
    match s {
        [] | [b'Z'] => true,
        [b'+' | b'-', rest @ ..] => after_pair(rest, 1, 12).is_some_and(is_minutes),
        _ => false,
    }
}

// Optional :SS, then the offset. No offset begins with `:`, so what looks like seconds is.
fn is_seconds_offset(s: &[u8]) -> bool
    ensures { result ≡ accepts (maybe (colon ▷ two 0 59) ▷ offset) s.now }
{
    is_offset(after_sixtieth(s).unwrap_or(s))
}

// 15 TZTimeOnly: HH:MM, optional :SS, then the offset
pub fn is_tz_time(s: &[u8]) -> bool
    ensures { result ≡ accepts tz_time s.now }
{
    after_minutes(s).is_some_and(is_seconds_offset)
}
