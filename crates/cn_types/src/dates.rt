ghost use Rattle.std.specs.Prelude.{◌≡◌, ◌++◌, OnOk};
ghost use Rattle.std.specs.String.{string_bytes};
ghost use Rattle.jiff_core.specs.Date.{epoch_day};
ghost use Rattle.cn_types.specs.Fit.{IsDay};
ghost use Rattle.cn_types.specs.Dates.{date_text, DatesAreOfTheCalendar};

use cn_base::OutOfMemory;
use jiff::civil::Date;
use std::alloc::Global;

/// Adds a day's date, as YYYY-MM-DD. The day is counted from 1970-01-01.
pub(crate) fn push_date(alloc: Global, out: &mut String, days: i32) -> Result<(), OutOfMemory>
    requires { IsDay days }
    ensures { OnOk result (string_bytes out.new ≡ string_bytes out.old ++ date_text days) }
{
    out.push_str(date_of(days).to_string(alloc)?.as_str())
}

fn date_of(days: i32) -> Date
    requires { IsDay days }
    ensures { epoch_day result ≡ days }
{
    let Ok(date) = jiff_core::civil::Date::from_unix_epoch_day(i64::from(days)) else {
        unreachable!()
    };
    Date::from_plain(date)
}

/// Law: each day from 0001-01-01 to 9999-12-31 is the date of the calendar that it is printed as.
pub fn dates_are_of_the_calendar()
    ensures { DatesAreOfTheCalendar }
{}
