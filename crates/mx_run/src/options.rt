//! The options of a run, and the numbers and names among the words.

ghost use Rattle.std.specs.Prelude.{◌≡◌, ◌<◌, ◌≤◌, ◌^◌, length, IsTrue};
ghost use Rattle.std.specs.Option.{option_copied};
ghost use Rattle.std.specs.Char.{is_ascii_digit};
ghost use Rattle.std.specs.List.{list_all};
ghost use Rattle.std.specs.Str.Parse.{digits_value};
ghost use Rattle.mx_run.specs.Asked.{parsed_of};
ghost use Rattle.mx_run.specs.Words.{Stands, counts, given_by, is_name, is_number, reports, rows, traces, where_may};
ghost use Rattle.mx_run.specs.Words.{with_word};

use mx_commands::{Shown, Way};
use mx_turns::Dump;

/// What options made of a run so far: its schedule's name, if it has one, and what is shown of it.
#[derive(Clone, Copy)]
pub(crate) enum Parse<'a> {
    /// They stand.
    Stands(Option<&'a str>, Shown),
    /// The schedule's name is to follow.
    LacksSchedule(Shown),
    /// The number of the first turn that has a line is to follow.
    LacksFrom(Option<&'a str>, Shown),
    /// The options have no meaning.
    Meaningless,
}

/// One word more. The asker is a way, or none for the debugger.
pub(crate) fn with_word<'a>(asker: Option<Way>, parse: Parse<'a>, word: &'a str) -> Parse<'a>
    ensures { parsed_of result ≡ with_word asker (parsed_of parse.entry) word.now }
{
    match parse {
        Parse::Stands(schedule, shown) => with_option(asker, schedule, shown, word),
        Parse::LacksSchedule(shown) => where_may(is_name(word), Parse::Stands(Some(word), shown)),
        Parse::LacksFrom(schedule, shown) => with_from(schedule, shown, word),
        Parse::Meaningless => Parse::Meaningless,
    }
}

// The options: who has them, that they stand at most once, and what they make of those before them.
fn with_option<'a>(
    asker: Option<Way>,
    schedule: Option<&'a str>,
    shown: Shown,
    word: &str,
) -> Parse<'a>
    ensures { parsed_of result ≡ given_by (rows asker (option_copied schedule.entry) shown) word.now }
{
    let lines = traces(asker);
    let report = reports(asker);
    let dumps = report && shown.dump.is_none();
    let mut more = shown;
    let may = match word {
        "--schedule" => return where_may(schedule.is_none(), Parse::LacksSchedule(shown)),
        "--from" => return where_may(
            lines && shown.from.is_none(),
            Parse::LacksFrom(schedule, shown),
        ),
        "--effects" => {
            more.effects = true;
            lines && !shown.effects
        }
        "--dump" => {
            more.dump = Some(Dump::Ram);
            dumps
        }
        "--save" => {
            more.dump = Some(Dump::Snapshot);
            dumps
        }
        "--tables" => {
            more.tables = true;
            report && !shown.tables
        }
        "--counts" => {
            more.counts = true;
            counts(asker) && !shown.counts
        }
        _ => false,
    };
    where_may(may, Parse::Stands(schedule, more))
}

// An option has no meaning where it may not stand.
fn where_may(may: bool, parse: Parse<'_>) -> Parse<'_>
    ensures { parsed_of result ≡ where_may may (parsed_of parse.entry) }
{
    if may { parse } else { Parse::Meaningless }
}

// With the number of the first turn that has a line.
fn with_from<'a>(schedule: Option<&'a str>, shown: Shown, word: &str) -> Parse<'a>
    ensures { parsed_of result ≡ where_may (is_number word.now)
        (Stands (option_copied schedule.entry) (record shown { from = Some (digits_value 10 word.now) })) }
{
    if is_number(word) {
        Parse::Stands(
            schedule,
            Shown {
                from: Some(number(word.as_bytes())),
                ..shown
            },
        )
    } else {
        Parse::Meaningless
    }
}

// Whether who asks has a report.
fn reports(asker: Option<Way>) -> bool
    ensures { result ≡ reports asker }
{
    matches!(asker, Some(Way::Run | Way::Resume))
}

// Whether its report may have the counts.
fn counts(asker: Option<Way>) -> bool
    ensures { result ≡ counts asker }
{
    matches!(asker, Some(Way::Run))
}

// Whether it has lines of turns.
fn traces(asker: Option<Way>) -> bool
    ensures { result ≡ traces asker }
{
    matches!(asker, Some(Way::Trace))
}

/// Whether a word is a name.
pub(crate) fn is_name(word: &str) -> bool
    ensures { result ≡ is_name word.now }
{
    let bytes = word.as_bytes();
    bytes.len() > 0 && bytes.len() <= 255 && bytes[0] != b'-'
}

/// Whether a word is a number.
pub(crate) fn is_number(word: &str) -> bool
    ensures { result ≡ is_number word.now }
{
    let bytes = word.as_bytes();
    bytes.len() > 0 && bytes.len() <= 10 && are_digits(bytes)
}

fn are_digits(bytes: &[u8]) -> bool
    ensures { result ≡ list_all is_ascii_digit bytes.now }
{
    bytes.iter().all(|b| b.is_ascii_digit())
}

/// The number that decimal digits spell.
pub(crate) fn number(digits: &[u8]) -> u64
    requires digits { IsTrue (list_all is_ascii_digit digits.now) }
    requires short { length digits.now ≤ 10 }
    ensures value { result ≡ digits_value 10 digits.now }
    ensures bound { result < 10 ^ 10 }
{
    let mut value = 0;
    for digit in digits {
        value = value * 10 + u64::from(*digit - b'0');
    }
    value
}
