//! Dates of a script.
ghost use Rattle.std.specs.Prelude.{◌≡◌, ◌<◌};
ghost use Rattle.script_read.specs.Dates.{day_seconds, is_dated, date};

use crate::words::number_below;
use jiff::civil::{Date, date};

/// The second at which a day begins, where the calendar has it and it isn't before 1970.
fn day_seconds(year: u64, month: u64, day: u64) -> Option<u64>
    requires year { year < 10000 }
    requires month { month < 100 }
    requires day { day < 100 }
    ensures { result ≡ day_seconds year month day }
{
    if year < 1970 {
        return None;
    }
    match Date::new(year as i16, month as i8, day as i8) {
        Ok(day) => Some(day.duration_since(date(1970, 1, 1)).as_secs() as u64),
        Err(_) => None,
    }
}

fn is_dated(word: &[u8]) -> bool
    ensures { result ≡ is_dated word.now }
{
    word.len() == 10 && word[4] == b'-' && word[7] == b'-'
}

/// The second at which the day of a date begins.
pub(crate) fn date_seconds(word: &[u8]) -> Option<u64>
    ensures { result ≡ date word.now }
{
    if !is_dated(word) {
        return None;
    }
    let year = number_below(10000, &word[..4])?;
    let month = number_below(100, &word[5..7])?;
    let day = number_below(100, &word[8..])?;
    day_seconds(year, month, day)
}
