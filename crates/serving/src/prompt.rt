//! What is told on a terminal beside the answers.
ghost use Rattle.std.specs.Prelude.{◌<◌, ◌^◌};

use requests::Answer;
use std::fmt::Write;
use units::{Fault, TxnId};

/// What a client has open.
#[derive(Clone, Copy)]
pub enum Open {
    Nothing,
    Transaction(TxnId),
    View,
}

impl Open {
    /// What is open after an answer.
    pub fn after(self, answer: &Answer) -> Open {
        match answer {
            Answer::Begun(id) => Open::Transaction(*id),
            Answer::At(_) => Open::View,
            Answer::Done
            | Answer::Values(_)
            | Answer::Page(_, _)
            | Answer::Found(_)
            | Answer::Text(_)
            | Answer::Help
            | Answer::Refused(_)
            | Answer::Misplaced => self,
            _ => Open::Nothing,
        }
    }
}

/// What may be asked, for a reader.
const HELP: &str = "\
A line is a client's number, below the number of clients, and what it asks;
without a number it is client 0's. Words are parted by one blank.
begin               opens a transaction
get KEY..           values of up to 128 keys, as '=VALUE' or 'none'
put KEY VALUE       writes a value
erase KEY           erases a key
commit              closes the transaction, and tells its timestamp and its id
abort               gives the transaction up
view [AT]           opens a view of the present, or of that time: 'get' tells of it
keys FROM TO LIMIT  keys of a view from FROM on, before TO if it is not empty
end                 ends the view
outcome ID          how a transaction ended that was answered 'unknown'
stats               the numbers of the store, as Prometheus reads them
help                these lines
quit                closes the store
In a transaction 'get' reads under locks, and 'put' and 'erase' wait for 'commit'.
Outside of it 'get' is a view, and 'put' and 'erase' are transactions of their own.
A transaction that no line comes for is given up after a while: its next line is
answered 'aborted'.
Answers: begun ID, =VALUE or none for each key, ok, committed AT ID, aborted,
unknown ID, at AT, page NEXT KEY.., ended, outcome END, closed. The next page of
keys begins at NEXT, unless that is 'none'. AT is in microseconds.
'unknown' says that nobody told in time whether the transaction stands.
'fault: N WORDS' refuses a line, and what was open stays open;
'ended: fault: N WORDS' says that it has ended too.
A blank in a key or a value is written \\x20, a backslash \\x5c, and each byte
that is no printable ASCII by its two hexadecimal digits, as \\x0a.
'put KEY ' with a blank at its end writes the empty value.
";

/// Adds, on a terminal, what follows an answer: a date after a timestamp, the help, and the prompt of what is open then.
pub fn push_prompted(line: &mut String, answer: &Answer, open: Open) -> Result<(), Fault> {
    match answer {
        Answer::Help => line.push_str(HELP)?,
        Answer::Text(text) => line.push_str(text.as_str())?,
        Answer::Committed(at, _) | Answer::At(at) => push_date(line, at.micros())?,
        Answer::Closed => return Ok(()),
        _ => {}
    }
    match open {
        Open::Nothing => line.push_str("store> ")?,
        Open::Transaction(id) => write!(line, "{id}> ")?,
        Open::View => line.push_str("view> ")?,
    }
    Ok(())
}

// A line with the date of a timestamp, by the Gregorian calendar and in universal time.
fn push_date(line: &mut String, micros: u64) -> Result<(), Fault> {
    let (seconds, micros) = (micros / 1_000_000, micros % 1_000_000);
    let (days, seconds) = (seconds / 86_400, seconds % 86_400);
    let (hours, minutes, seconds) = (seconds / 3_600, seconds / 60 % 60, seconds % 60);
    let (year, month, day) = date(days);
    write!(
        line,
        "{year}-{month:02}-{day:02} {hours:02}:{minutes:02}:{seconds:02}.{micros:06}\n"
    )?;
    Ok(())
}

// The year, month and day that lie so many days after the first of January 1970.
fn date(days: u64) -> (u64, u64, u64)
    requires { days < 2 ^ 32 }
{
    let days = days + 719_468;
    let (era, of_era) = (days / 146_097, days % 146_097);
    let year = (of_era - of_era / 1_460 + of_era / 36_524 - of_era / 146_096) / 365;
    let of_year = of_era - (365 * year + year / 4 - year / 100);
    let month = (5 * of_year + 2) / 153;
    let day = of_year - (153 * month + 2) / 5 + 1;
    let (month, later) = if month < 10 {
        (month + 3, 0)
    } else {
        (month - 9, 1)
    };
    (era * 400 + year + later, month, day)
}
