//! What lines are answered.
ghost use Rattle.std.specs.Prelude.{◌≡◌, ◌++◌, IfErr, IfOk, OnOk, Some, codes, flat_map, string_bytes};
ghost use Rattle.requests.specs.Answers.{answer_line, answer_text, behind_blank, found_text};

use crate::spelled::push_spelled;
use std::alloc::Global;
use std::fmt::Write;
use units::{Fault, Key, Stamp, TxnId, Value};

/// How a transaction ended, as far as its shards say.
#[derive(Clone, Copy)]
pub enum Found {
    /// It stands, at this timestamp.
    Committed(Stamp),
    /// It stands nowhere.
    Aborted,
    /// Its commit is logged, but its timestamp has not surely passed.
    Open,
    /// Nobody said.
    Unknown,
}

/// What a line is answered.
#[derive(Drop)]
pub enum Answer {
    Begun(TxnId),
    Values(Vec<Option<Value>>),
    Done,
    Committed(Stamp, TxnId),
    Aborted,
    Unknown(TxnId),
    At(Stamp),
    /// Keys, and where the next page of them begins, if there is one.
    Page(Vec<Key>, Option<Key>),
    Ended,
    Found(Found),
    /// A text of any bytes.
    Text(String),
    /// What may be asked.
    Help,
    /// All was answered, and the store is closed.
    Closed,
    /// The request is refused, and what was open is still open.
    Refused(Fault),
    /// The request is none that may stand here, and what was open is still open.
    Misplaced,
    /// The request is refused, and what was open has ended.
    Over(Fault),
}

/// What may be asked, in one line.
pub const VERBS: &str =
    "begin, get KEY.., put KEY VALUE, erase KEY, commit, abort, view [AT], keys FROM TO LIMIT, end, outcome ID, stats, help, quit";

/// The answer that a transaction stands, with this id, at this timestamp.
pub fn committed(at: Stamp, id: TxnId) -> Answer
    ensures { result ≡ Answer.Committed at id }
{
    Answer::Committed(at, id)
}

/// The line of the answer of the client with this number.
pub fn answer_line(alloc: Global, client: u64, answer: &Answer) -> Result<String, Fault>
    ensures line { IfOk result (λ line. string_bytes line ≡ answer_line client answer.now) }
    ensures memory { IfErr result (λ fault. fault ≡ Fault.Memory) }
{
    let mut line = format!(in alloc; "{client}")?;
    push_answer(&mut line, answer)?;
    line.push('\n')?;
    Ok(line)
}

// Puts an answer behind the client's number.
fn push_answer(line: &mut String, answer: &Answer) -> Result<(), Fault>
    ensures text { OnOk result
        (string_bytes line.new ≡ string_bytes line.old ++ answer_text answer.now) }
    ensures memory { IfErr result (λ fault. fault ≡ Fault.Memory) }
{
    match answer {
        Answer::Begun(id) => write!(line, " begun {id}")?,
        Answer::Values(values) => push_values(line, values.as_slice())?,
        Answer::Done => line.push_str(" ok")?,
        Answer::Committed(at, id) => write!(line, " committed {at} {id}")?,
        Answer::Aborted => line.push_str(" aborted")?,
        Answer::Unknown(id) => write!(line, " unknown {id}")?,
        Answer::At(at) => write!(line, " at {at}")?,
        Answer::Page(keys, next) => push_page(line, keys.as_slice(), next)?,
        Answer::Ended => line.push_str(" ended")?,
        Answer::Found(found) => push_found(line, *found)?,
        Answer::Text(text) => push_text(line, text.as_bytes())?,
        Answer::Help => write!(line, " help: {VERBS}")?,
        Answer::Closed => line.push_str(" closed")?,
        Answer::Refused(fault) => write!(line, " fault: {fault}")?,
        Answer::Misplaced => line.push_str(" fault: 7 BadRequest(state)")?,
        Answer::Over(fault) => write!(line, " ended: fault: {fault}")?,
    }
    Ok(())
}

// Where the next page begins, and the keys of this one.
fn push_page(line: &mut String, keys: &[Key], next: &Option<Key>) -> Result<(), Fault>
    ensures page { OnOk result (string_bytes line.new ≡ string_bytes line.old
        ++ (codes " page" ++ (behind_blank next.now
        ++ flat_map (λ key. behind_blank (Some key)) keys.now))) }
    ensures memory { IfErr result (λ fault. fault ≡ Fault.Memory) }
{
    line.push_str(" page")?;
    push_next(line, next)?;
    push_keys(line, keys)
}

// Where the next page begins.
fn push_next(line: &mut String, next: &Option<Key>) -> Result<(), Fault>
    ensures next { OnOk result
        (string_bytes line.new ≡ string_bytes line.old ++ behind_blank next.now) }
    ensures memory { IfErr result (λ fault. fault ≡ Fault.Memory) }
{
    match next {
        Some(next) => push_text(line, next.as_bytes()),
        None => {
            line.push_str(" none")?;
            Ok(())
        }
    }
}

fn push_keys(line: &mut String, keys: &[Key]) -> Result<(), Fault>
    ensures keys { OnOk result (string_bytes line.new ≡ string_bytes line.old
        ++ flat_map (λ key. behind_blank (Some key)) keys.now) }
    ensures memory { IfErr result (λ fault. fault ≡ Fault.Memory) }
{
    for key in keys {
        push_text(line, key.as_bytes())?;
    }
    Ok(())
}

// How a transaction ended.
fn push_found(line: &mut String, found: Found) -> Result<(), Fault>
    ensures found { OnOk result (string_bytes line.new ≡ string_bytes line.old ++ found_text found) }
    ensures memory { IfErr result (λ fault. fault ≡ Fault.Memory) }
{
    match found {
        Found::Committed(at) => write!(line, " outcome committed {at}")?,
        Found::Aborted => line.push_str(" outcome aborted")?,
        Found::Open => line.push_str(" outcome open")?,
        Found::Unknown => line.push_str(" outcome unknown")?,
    }
    Ok(())
}

// A blank, and what some bytes are spelled as.
fn push_text(line: &mut String, bytes: &[u8]) -> Result<(), Fault>
    ensures text { OnOk result
        (string_bytes line.new ≡ string_bytes line.old ++ behind_blank (Some bytes.now)) }
    ensures memory { IfErr result (λ fault. fault ≡ Fault.Memory) }
{
    line.push_str(" =")?;
    push_spelled(line, bytes)
}

fn push_values(line: &mut String, values: &[Option<Value>]) -> Result<(), Fault>
    ensures values { OnOk result
        (string_bytes line.new ≡ string_bytes line.old ++ flat_map behind_blank values.now) }
    ensures memory { IfErr result (λ fault. fault ≡ Fault.Memory) }
{
    for value in values {
        push_value(line, value)?;
    }
    Ok(())
}

// A blank, and a value or what stands for none.
fn push_value(line: &mut String, value: &Option<Value>) -> Result<(), Fault>
    ensures value { OnOk result
        (string_bytes line.new ≡ string_bytes line.old ++ behind_blank value.now) }
    ensures memory { IfErr result (λ fault. fault ≡ Fault.Memory) }
{
    match value {
        Some(value) => push_text(line, value.as_bytes()),
        None => {
            line.push_str(" none")?;
            Ok(())
        }
    }
}
