//! The numbers of logs as JSON.
ghost use Rattle.std.specs.Prelude.{◌≡◌, ◌++◌, IfErr, IfOk, List, OnOk, codes, flat_map, string_bytes, ℕ};
ghost use Rattle.showing.specs.JsonTexts.{AreDoubts, IsLogJson, doubt_json, several_json, sums_json};
ghost use Rattle.showing.specs.StatsTexts.{field_json, number_of, sum_of};

use crate::figure::Figure;
use crate::json::{dated, quoted, txn_json};
use crate::stats::{InDoubt, Numbers, Stats};
use crate::stats_lines::{FIGURES, SUMMED, standing_word};
use std::alloc::Global;
use units::Fault;

/// Puts a log after a text: its name, its numbers, and its transactions in doubt, as an object.
pub fn push_log_json(
    text: &mut String,
    alloc: Global,
    name: &str,
    stats: &Stats,
) -> Result<(), Fault>
    ensures text { OnOk result ((log : List ℕ) × IsLogJson
        (record {
          name = name.now;
          numbers = stats.now.numbers;
          in_doubt = stats.now.in_doubt.items;
        }) log
        × (string_bytes text.new ≡ string_bytes text.old ++ log)) }
    ensures memory { IfErr result (λ fault. fault ≡ Fault.Memory) }
{
    let name = quoted(alloc, name)?;
    write!(text, "{{\"log\":{name},")?;
    push_fields(text, &FIGURES, &stats.numbers)?;
    push_doubts(text, alloc, &stats.in_doubt)
}

// A member for each of some numbers of a log.
fn push_fields(text: &mut String, figures: &[Figure], numbers: &Numbers) -> Result<(), Fault>
    ensures fields { OnOk result (string_bytes text.new ≡ string_bytes text.old
        ++ flat_map (λ f. field_json f (number_of f numbers.now)) figures.now) }
    ensures memory { IfErr result (λ fault. fault ≡ Fault.Memory) }
{
    for figure in figures {
        push_field(text, *figure, u128::from(figure.of(numbers)))?;
    }
    Ok(())
}

fn push_field(text: &mut String, figure: Figure, number: u128) -> Result<(), Fault>
    ensures field { OnOk result
        (string_bytes text.new ≡ string_bytes text.old ++ field_json figure number) }
    ensures memory { IfErr result (λ fault. fault ≡ Fault.Memory) }
{
    let word = figure.word();
    write!(text, "\"{word}\":{number},")?;
    Ok(())
}

// The transactions in doubt, and the end of their log.
fn push_doubts(text: &mut String, alloc: Global, doubts: &[InDoubt]) -> Result<(), Fault>
    ensures rest { OnOk result ((told : List ℕ) × AreDoubts doubts.now told
        × (string_bytes text.new
        ≡ string_bytes text.old ++ (codes "\"doubts\":[" ++ (told ++ codes "]}")))) }
    ensures memory { IfErr result (λ fault. fault ≡ Fault.Memory) }
{
    let doubts = doubts_json(alloc, doubts)?;
    write!(text, "\"doubts\":[{doubts}]}}")?;
    Ok(())
}

fn doubts_json(alloc: Global, doubts: &[InDoubt]) -> Result<String, Fault>
    ensures doubts { IfOk result (λ text. AreDoubts doubts.now (string_bytes text)) }
    ensures memory { IfErr result (λ fault. fault ≡ Fault.Memory) }
{
    let mut text = String::new(alloc);
    let mut mark = "";
    for doubt in doubts {
        text.push_str(mark)?;
        push_doubt(&mut text, alloc, doubt)?;
        mark = ",";
    }
    Ok(text)
}

fn push_doubt(text: &mut String, alloc: Global, doubt: &InDoubt) -> Result<(), Fault>
    ensures doubt { OnOk result ((date : List ℕ) × (string_bytes text.new
        ≡ string_bytes text.old ++ doubt_json (record { doubt = doubt.now; date = date }))) }
    ensures memory { IfErr result (λ fault. fault ≡ Fault.Memory) }
{
    let dated = dated(alloc, "at", "date", doubt.at)?;
    let txn = txn_json(alloc, Some(doubt.txn))?;
    let standing = standing_word(doubt.is_decided);
    write!(
        text,
        "{{{dated},\"txn\":{txn},\"standing\":\"{standing}\"}}"
    )?;
    Ok(())
}

/// Puts the sums over some logs after a text, and how many logs there are, as a member, if there are several.
pub fn push_several_json(text: &mut String, logs: &[Numbers]) -> Result<(), Fault>
    ensures sums { OnOk result
        (string_bytes text.new ≡ string_bytes text.old ++ several_json logs.now) }
    ensures memory { IfErr result (λ fault. fault ≡ Fault.Memory) }
{
    if logs.len() > 1 {
        push_sums_json(text, logs)
    } else {
        Ok(())
    }
}

fn push_sums_json(text: &mut String, logs: &[Numbers]) -> Result<(), Fault>
    ensures sums { OnOk result
        (string_bytes text.new ≡ string_bytes text.old ++ sums_json logs.now) }
    ensures memory { IfErr result (λ fault. fault ≡ Fault.Memory) }
{
    text.push_str(",\"sums\":{")?;
    push_each_sum(text, &SUMMED, logs)?;
    let count = logs.len();
    write!(text, "\"logs\":{count}}}")?;
    Ok(())
}

// A member for each of some sums over logs.
fn push_each_sum(text: &mut String, figures: &[Figure], logs: &[Numbers]) -> Result<(), Fault>
    ensures fields { OnOk result (string_bytes text.new ≡ string_bytes text.old
        ++ flat_map (λ f. field_json f (sum_of f logs.now)) figures.now) }
    ensures memory { IfErr result (λ fault. fault ≡ Fault.Memory) }
{
    for figure in figures {
        push_field(text, *figure, figure.sum(logs))?;
    }
    Ok(())
}
