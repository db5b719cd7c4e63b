//! The numbers of logs as text.
ghost use Rattle.std.specs.Prelude.{◌≡◌, ◌++◌, IfErr, OnOk, flat_map, map, string_bytes};
ghost use Rattle.showing.specs.StatsTexts.{doubt_line, log_text, number_line, number_of, several_text, standing_word, sum_of, sums_text};

use crate::figure::Figure;
use crate::stats::{InDoubt, Numbers, Stats};
use units::Fault;

/// The numbers of which there are sums.
pub(crate) const SUMMED: [Figure; 19] = [
    Figure::Bytes,
    Figure::DeadBytes,
    Figure::Turnovers,
    Figure::Records,
    Figure::Opened,
    Figure::Ceilings,
    Figure::Prepares,
    Figure::Commits,
    Figure::Aborts,
    Figure::Outcomes,
    Figure::Horizons,
    Figure::Bases,
    Figure::VersionRecords,
    Figure::Settled,
    Figure::Closed,
    Figure::Retired,
    Figure::Keys,
    Figure::Versions,
    Figure::InDoubt,
];

/// All of them.
pub(crate) const FIGURES: [Figure; 22] = [
    Figure::Bytes,
    Figure::DeadBytes,
    Figure::Turnovers,
    Figure::TurnoversLeft,
    Figure::Records,
    Figure::Opened,
    Figure::Ceilings,
    Figure::Prepares,
    Figure::Commits,
    Figure::Aborts,
    Figure::Outcomes,
    Figure::Horizons,
    Figure::Bases,
    Figure::VersionRecords,
    Figure::Settled,
    Figure::Closed,
    Figure::Retired,
    Figure::Keys,
    Figure::Versions,
    Figure::Epoch,
    Figure::Floor,
    Figure::InDoubt,
];

/// What is told of a log: its name, a line for each number, and one for each transaction in doubt.
pub fn push_log(text: &mut String, name: &str, stats: &Stats) -> Result<(), Fault>
    ensures text { OnOk result (string_bytes text.new ≡ string_bytes text.old ++ log_text
        (record {
          name = name.now;
          numbers = stats.now.numbers;
          in_doubt = stats.now.in_doubt.items;
        })) }
    ensures memory { IfErr result (λ fault. fault ≡ Fault.Memory) }
{
    write!(text, "log {name}\n")?;
    push_numbers(text, &FIGURES, &stats.numbers)?;
    push_doubts(text, &stats.in_doubt)
}

/// How many logs there are, and the sums of their numbers, if there are several.
pub fn push_several(text: &mut String, logs: &[Numbers]) -> Result<(), Fault>
    ensures text { OnOk result
        (string_bytes text.new ≡ string_bytes text.old ++ several_text logs.now) }
    ensures memory { IfErr result (λ fault. fault ≡ Fault.Memory) }
{
    if logs.len() > 1 {
        push_sums(text, logs)
    } else {
        Ok(())
    }
}

fn push_sums(text: &mut String, logs: &[Numbers]) -> Result<(), Fault>
    ensures text { OnOk result
        (string_bytes text.new ≡ string_bytes text.old ++ sums_text logs.now) }
    ensures memory { IfErr result (λ fault. fault ≡ Fault.Memory) }
{
    let count = logs.len();
    write!(text, "all {count}\n")?;
    push_each_sum(text, &SUMMED, logs)
}

// A line for each of some numbers of a log.
fn push_numbers(text: &mut String, figures: &[Figure], numbers: &Numbers) -> Result<(), Fault>
    ensures lines { OnOk result (string_bytes text.new ≡ string_bytes text.old
        ++ flat_map (λ f. number_line f (number_of f numbers.now)) figures.now) }
    ensures memory { IfErr result (λ fault. fault ≡ Fault.Memory) }
{
    for figure in figures {
        push_line(text, *figure, u128::from(figure.of(numbers)))?;
    }
    Ok(())
}

// A line for each of some sums over logs.
fn push_each_sum(text: &mut String, figures: &[Figure], logs: &[Numbers]) -> Result<(), Fault>
    ensures lines { OnOk result (string_bytes text.new ≡ string_bytes text.old
        ++ flat_map (λ f. number_line f (sum_of f logs.now)) figures.now) }
    ensures memory { IfErr result (λ fault. fault ≡ Fault.Memory) }
{
    for figure in figures {
        push_line(text, *figure, figure.sum(logs))?;
    }
    Ok(())
}

// A number on a line.
fn push_line(text: &mut String, figure: Figure, number: u128) -> Result<(), Fault>
    ensures line { OnOk result
        (string_bytes text.new ≡ string_bytes text.old ++ number_line figure number) }
    ensures memory { IfErr result (λ fault. fault ≡ Fault.Memory) }
{
    let word = figure.word();
    write!(text, "{word} {number}\n")?;
    Ok(())
}

// A line for each transaction in doubt.
fn push_doubts(text: &mut String, doubts: &[InDoubt]) -> Result<(), Fault>
    ensures lines { OnOk result
        (string_bytes text.new ≡ string_bytes text.old ++ flat_map doubt_line doubts.now) }
    ensures memory { IfErr result (λ fault. fault ≡ Fault.Memory) }
{
    for doubt in doubts {
        push_doubt(text, doubt)?;
    }
    Ok(())
}

fn push_doubt(text: &mut String, doubt: &InDoubt) -> Result<(), Fault>
    ensures line { OnOk result
        (string_bytes text.new ≡ string_bytes text.old ++ doubt_line doubt.now) }
    ensures memory { IfErr result (λ fault. fault ≡ Fault.Memory) }
{
    let word = standing_word(doubt.is_decided);
    let txn = doubt.txn;
    let at = doubt.at;
    write!(text, "{word} {txn} {at}\n")?;
    Ok(())
}

/// Says how a transaction in doubt stands.
pub(crate) fn standing_word(is_decided: bool) -> &'static str
    ensures { result.now ≡ standing_word is_decided }
{
    if is_decided { "decided" } else { "promised" }
}
