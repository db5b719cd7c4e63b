//! Keys and values as comma-separated values, as PostgreSQL's COPY takes them: a header, and a row for each pair.
ghost use Rattle.std.specs.Prelude.{◌≡◌, ◌⊎◌, None, Some, IfErr, IfOk, MatchResult, map};
ghost use Rattle.std.specs.List.{list_all};
ghost use Rattle.csv.specs.Writing.{row_text};
ghost use Rattle.requests.specs.Spelling.{unspelled};
ghost use Rattle.pairs.specs.Rows.{FieldsAreRead, field, header, is_plain, rows_of, setup, shows_itself};

use crate::{Pair, Pairs};
use counts::Past;
use csv::{ByteRecord, Error, ErrorKind, QuoteStyle, Reader, ReaderBuilder, WriterBuilder};
use requests::{push_spelled, unspelled};
use std::alloc::Global;
use std::io::Read;
use std::str;
use units::{Fault, Key, Reason, Value};

/// Writes the header: the fields `key` and `value`.
pub fn header(alloc: Global) -> Result<Vec<u8>, Fault>
    ensures { IfOk result (λ text. text.items ≡ header) }
{
    row(alloc, &[b"key", b"value"])
}

/// Writes a row for each pair. Each field stands in quotes. Bytes that are a text in UTF-8 stand as they are; spelled, as in a line, are those with a
/// backslash, with the byte 0, or that are no such text.
pub fn rows_of(alloc: Global, pairs: &[Pair]) -> Result<Vec<u8>, Fault>
    ensures { IfOk result (λ text. text.items ≡ rows_of pairs.now) }
{
    let mut text = Vec::new(alloc);
    for pair in pairs {
        let key = field(alloc, pair.key.as_bytes())?;
        let value = field(alloc, pair.value.as_bytes())?;
        let bytes = row(alloc, &[key.as_slice(), value.as_slice()])?;
        text.extend_from_slice(&bytes)?;
    }
    Ok(text)
}

// How some bytes stand in a field.
fn field(alloc: Global, bytes: &[u8]) -> Result<Vec<u8>, Fault>
    ensures field { IfOk result (λ text. text.items ≡ field bytes.now) }
    ensures memory { IfErr result (λ fault. fault ≡ Fault.Memory) }
{
    if is_plain(bytes) {
        return Ok(bytes.to_vec(alloc)?);
    }
    let mut text = String::new(alloc);
    push_spelled(&mut text, bytes)?;
    Ok(text.into_bytes())
}

// The bytes are a text in UTF-8, without the byte 0 and without a backslash.
fn is_plain(bytes: &[u8]) -> bool
    ensures { result ≡ is_plain bytes.now }
{
    match str::from_utf8(bytes) {
        Ok(_) => show_themselves(bytes),
        Err(_) => false,
    }
}

// None of the bytes is 0 or a backslash.
fn show_themselves(bytes: &[u8]) -> bool
    ensures { result ≡ list_all shows_itself bytes.now }
{
    for byte in bytes {
        if *byte == 0 || *byte == b'\\' {
            return false;
        }
    }
    true
}

// The row of some fields.
fn row(alloc: Global, fields: &[&[u8]]) -> Result<Vec<u8>, Fault>
    ensures { IfOk result (λ text. text.items ≡ row_text setup (map (λ f. f.now) fields.now)) }
{
    let mut writer = WriterBuilder::new()
        .quote_style(QuoteStyle::Always)
        .from_writer(Vec::new(alloc));
    if let Err(error) = writer.write_fields(fields) {
        drop(writer);
        return Err(fault_of(error));
    }
    match writer.into_inner() {
        Ok(text) => Ok(text),
        Err(error) => {
            drop(error);
            Err(Fault::Memory)
        }
    }
}

/// Rows of keys and values from a stream, after the header `key,value`.
#[derive(Drop)]
pub struct Commas<I: Read + Drop> {
    rows: Reader<I>,
    row: ByteRecord,
    has_begun: bool,
    // The line in which the last pair begins, and that of the row that was taken last.
    line: u64,
    taken: u64,
    given: Past<Pair>,
}

impl<I: Read + Drop> Commas<I> {
    /// Begins to read the rows of a stream.
    pub fn of(alloc: Global, stream: I) -> Commas<I> {
        Commas {
            rows: ReaderBuilder::new()
                .has_headers(false)
                .flexible(true)
                .from_reader(alloc, stream),
            row: ByteRecord::new(alloc),
            has_begun: false,
            line: 0,
            taken: 0,
            given: Past::none(),
        }
    }

    // Takes the next row, if there is one.
    fn take(&mut self) -> Result<bool, Fault>
        ensures { self.new.given.entries ≡ self.old.given.entries }
    {
        self.taken = self.rows.position().line();
        match self.rows.read_byte_record(&mut self.row) {
            Ok(found) => Ok(found),
            Err(error) => Err(fault_of(error)),
        }
    }

    fn syntax(&self) -> Fault {
        Fault::BadRequest(Reason::Syntax(self.taken))
    }
}

impl<I: Read + Drop> Pairs for Commas<I> {
    ghost use Rattle.std.specs.Prelude.{reverse};

    ghost given = { λ rows. reverse rows.given.entries };

    fn next(&mut self, alloc: Global) -> Result<Option<Pair>, Fault> {
        if !self.has_begun {
            self.has_begun = true;
            if !self.take()? || !is_header(&self.row) {
                return Err(self.syntax());
            }
        }
        if !self.take()? {
            return Ok(None);
        }
        match pair_of(alloc, &self.row) {
            Ok(pair) => {
                self.line = self.taken;
                self.given.add(&pair);
                Ok(Some(pair))
            }
            Err(Fault::Memory) => Err(Fault::Memory),
            Err(_) => Err(self.syntax()),
        }
    }

    fn line(&self) -> u64 {
        self.line
    }
}

fn is_header(row: &ByteRecord) -> bool {
    row.len() == 2
        && row.get(0) == Some(b"key".as_slice())
        && row.get(1) == Some(b"value".as_slice())
}

fn pair_of(alloc: Global, row: &ByteRecord) -> Result<Pair, Fault> {
    match (row.get(0), row.get(1)) {
        (Some(key), Some(value)) if row.len() == 2 => {
            let key = Key::new(&told_by(alloc, key)?)?;
            let value = Value::new(alloc, &told_by(alloc, value)?)?;
            Ok(Pair { key, value })
        }
        _ => Err(Fault::BadRequest(Reason::Command)),
    }
}

// The bytes that a field tells: its own, but for those that it spells.
fn told_by(alloc: Global, field: &[u8]) -> Result<Vec<u8>, Fault>
    ensures { MatchResult result (λ bytes. unspelled field.now ≡ Some bytes.items)
        (λ fault. (fault ≡ Fault.Memory) ⊎ (fault ≡ Fault.BadRequest Reason.Command)) }
{
    match str::from_utf8(field) {
        Ok(text) => unspelled(alloc, text),
        Err(_) => Err(Fault::BadRequest(Reason::Command)),
    }
}

/// What is exported is read back: the field of some bytes tells these.
pub fn fields_are_read()
    ensures { FieldsAreRead }
{}

// Memory ran out, or the stream failed.
fn fault_of(error: Error) -> Fault {
    match error.into_kind() {
        ErrorKind::OutOfMemory => Fault::Memory,
        _ => Fault::Device,
    }
}
