//! What the words of a line ask for.
ghost use Rattle.std.specs.Prelude.{◌≡◌, ◌⊎◌, Ok, Err, List, MatchResult, map};
ghost use Rattle.requests.specs.Requests.{Asked, alone, asked_as, asked_by, asked_of, end_of, erase_of, get_of, key_of, keys_of, limit_of, list_from, list_of, list_of_words, list_to, outcome_of, put_of, put_of_words, value_of, view_of};

use crate::Request;
use crate::spelled::unspelled;
use crate::words::id_of;
use std::alloc::Global;
use texts::{number, stamp};
use units::{Fault, Key, Reason, Value};

const NO_REQUEST: Fault = Fault::BadRequest(Reason::Command);

// So many keys a page has at most.
const MOST: u64 = 1_000;

/// The request that some words are. The first bad word counts: a key or a value out of its limits is refused by its name, more
/// than 128 keys as `many`, and so is a limit beyond 1 to 1,000; all else is `command`.
pub fn request(alloc: Global, words: &[&str]) -> Result<Request, Fault>
    ensures { MatchResult result (λ asked. asked_of (map (λ w. w.now) words.now) ≡ Ok (asked_as asked))
        (λ fault. (fault ≡ Fault.Memory) ⊎ (asked_of (map (λ w. w.now) words.now) ≡ Err fault)) }
{
    let [verb, rest @ ..] = words else {
        return Err(NO_REQUEST);
    };
    by_verb(alloc, verb, rest)
}

// The request of a verb, with the words behind it.
fn by_verb(alloc: Global, verb: &str, rest: &[&str]) -> Result<Request, Fault>
    ensures { MatchResult result
        (λ asked. asked_by verb.now (map (λ w. w.now) rest.now) ≡ Ok (asked_as asked))
        (λ fault. (fault ≡ Fault.Memory) ⊎ (asked_by verb.now (map (λ w. w.now) rest.now) ≡ Err fault)) }
{
    match verb {
        "begin" => alone(Request::Begin, rest),
        "get" => gets(alloc, rest),
        "put" => puts(alloc, rest),
        "erase" => erases(alloc, rest),
        "commit" => alone(Request::Commit, rest),
        "abort" => alone(Request::Abort, rest),
        "view" => views(rest),
        "keys" => lists(alloc, rest),
        "end" => alone(Request::End, rest),
        "outcome" => outcomes(rest),
        "stats" => alone(Request::Stats, rest),
        "help" => alone(Request::Help, rest),
        "quit" => alone(Request::Quit, rest),
        _ => Err(NO_REQUEST),
    }
}

// A request behind which no word stands.
fn alone(request: Request, words: &[&str]) -> Result<Request, Fault>
    ensures { MatchResult result
        (λ asked. alone (asked_as request) (map (λ w. w.now) words.now) ≡ Ok (asked_as asked))
        (λ fault. alone (asked_as request) (map (λ w. w.now) words.now) ≡ Err fault) }
{
    if words.is_empty() {
        Ok(request)
    } else {
        Err(NO_REQUEST)
    }
}

// AT, or nothing for the present.
fn views(words: &[&str]) -> Result<Request, Fault>
    ensures { MatchResult result
        (λ asked. view_of (map (λ w. w.now) words.now) ≡ Ok (asked_as asked))
        (λ fault. view_of (map (λ w. w.now) words.now) ≡ Err fault) }
{
    match words {
        [] => Ok(Request::View),
        [at] => Ok(Request::ViewAt(stamp(at)?)),
        _ => Err(NO_REQUEST),
    }
}

// FROM TO LIMIT
fn lists(alloc: Global, words: &[&str]) -> Result<Request, Fault>
    ensures { MatchResult result (λ asked. list_of (map (λ w. w.now) words.now) ≡ Ok (asked_as asked))
        (λ fault. (fault ≡ Fault.Memory) ⊎ (list_of (map (λ w. w.now) words.now) ≡ Err fault)) }
{
    let [from, rest @ ..] = words else {
        return Err(NO_REQUEST);
    };
    list_from(alloc, from, rest)
}

// The keys from one on, with the words behind it.
fn list_from(alloc: Global, from: &str, rest: &[&str]) -> Result<Request, Fault>
    ensures { MatchResult result
        (λ asked. list_from from.now (map (λ w. w.now) rest.now) ≡ Ok (asked_as asked))
        (λ fault. (fault ≡ Fault.Memory) ⊎ (list_from from.now (map (λ w. w.now) rest.now) ≡ Err fault)) }
{
    let [to, rest @ ..] = rest else {
        return Err(NO_REQUEST);
    };
    list_to(alloc, from, to, rest)
}

// The keys of a range, with the words behind its end.
fn list_to(alloc: Global, from: &str, to: &str, rest: &[&str]) -> Result<Request, Fault>
    ensures { MatchResult result
        (λ asked. list_to from.now to.now (map (λ w. w.now) rest.now) ≡ Ok (asked_as asked))
        (λ fault. (fault ≡ Fault.Memory) ⊎ (list_to from.now to.now (map (λ w. w.now) rest.now) ≡ Err fault)) }
{
    let [limit, rest @ ..] = rest else {
        return Err(NO_REQUEST);
    };
    if rest.is_empty() {
        list(alloc, from, to, limit)
    } else {
        Err(NO_REQUEST)
    }
}

// The keys of a range.
fn list(alloc: Global, from: &str, to: &str, limit: &str) -> Result<Request, Fault>
    ensures { MatchResult result
        (λ asked. list_of_words from.now to.now limit.now ≡ Ok (asked_as asked))
        (λ fault. (fault ≡ Fault.Memory) ⊎ (list_of_words from.now to.now limit.now ≡ Err fault)) }
{
    let from = key_of(alloc, from)?;
    let to = end_of(alloc, to)?;
    let limit = limit_of(limit)?;
    Ok(Request::Keys(from, to, limit))
}

// The end of a range. The empty word is none.
fn end_of(alloc: Global, word: &str) -> Result<Option<Key>, Fault>
    ensures { MatchResult result (λ end. end_of word.now ≡ Ok end)
        (λ fault. (fault ≡ Fault.Memory) ⊎ (end_of word.now ≡ Err fault)) }
{
    if word.is_empty() {
        return Ok(None);
    }
    Ok(Some(key_of(alloc, word)?))
}

// How many keys a page has at most.
fn limit_of(word: &str) -> Result<u64, Fault>
    ensures { result ≡ limit_of word.now }
{
    let limit = number(word)?;
    if limit < 1 || limit > MOST {
        return Err(Fault::BadRequest(Reason::Many));
    }
    Ok(limit)
}

// ID
fn outcomes(words: &[&str]) -> Result<Request, Fault>
    ensures { MatchResult result
        (λ asked. outcome_of (map (λ w. w.now) words.now) ≡ Ok (asked_as asked))
        (λ fault. outcome_of (map (λ w. w.now) words.now) ≡ Err fault) }
{
    match words {
        [id] => match id_of(id) {
            Some(id) => Ok(Request::Outcome(id)),
            None => Err(NO_REQUEST),
        },
        _ => Err(NO_REQUEST),
    }
}

// KEY..
fn gets(alloc: Global, words: &[&str]) -> Result<Request, Fault>
    ensures { MatchResult result (λ asked. get_of (map (λ w. w.now) words.now) ≡ Ok (asked_as asked))
        (λ fault. (fault ≡ Fault.Memory) ⊎ (get_of (map (λ w. w.now) words.now) ≡ Err fault)) }
{
    if words.is_empty() {
        return Err(NO_REQUEST);
    }
    if words.len() > 128 {
        return Err(Fault::BadRequest(Reason::Many));
    }
    Ok(Request::Get(keys_of(alloc, words)?))
}

// The keys of some words.
fn keys_of(alloc: Global, words: &[&str]) -> Result<Vec<Key>, Fault>
    ensures { MatchResult result (λ keys. keys_of (map (λ w. w.now) words.now) ≡ Ok keys.items)
        (λ fault. (fault ≡ Fault.Memory) ⊎ (keys_of (map (λ w. w.now) words.now) ≡ Err fault)) }
{
    let mut keys = Vec::new(alloc);
    for word in words {
        keys.push(key_of(alloc, word)?)?;
    }
    Ok(keys)
}

// KEY VALUE
fn puts(alloc: Global, words: &[&str]) -> Result<Request, Fault>
    ensures { MatchResult result (λ asked. put_of (map (λ w. w.now) words.now) ≡ Ok (asked_as asked))
        (λ fault. (fault ≡ Fault.Memory) ⊎ (put_of (map (λ w. w.now) words.now) ≡ Err fault)) }
{
    match words {
        [key, value] => put(alloc, key, value),
        _ => Err(NO_REQUEST),
    }
}

// The write of a value to a key.
fn put(alloc: Global, key: &str, value: &str) -> Result<Request, Fault>
    ensures { MatchResult result (λ asked. put_of_words key.now value.now ≡ Ok (asked_as asked))
        (λ fault. (fault ≡ Fault.Memory) ⊎ (put_of_words key.now value.now ≡ Err fault)) }
{
    let key = key_of(alloc, key)?;
    let value = value_of(alloc, value)?;
    Ok(Request::Put(key, value))
}

// KEY
fn erases(alloc: Global, words: &[&str]) -> Result<Request, Fault>
    ensures { MatchResult result (λ asked. erase_of (map (λ w. w.now) words.now) ≡ Ok (asked_as asked))
        (λ fault. (fault ≡ Fault.Memory) ⊎ (erase_of (map (λ w. w.now) words.now) ≡ Err fault)) }
{
    match words {
        [key] => Ok(Request::Erase(key_of(alloc, key)?)),
        _ => Err(NO_REQUEST),
    }
}

fn key_of(alloc: Global, word: &str) -> Result<Key, Fault>
    ensures { MatchResult result (λ key. key_of word.now ≡ Ok key)
        (λ fault. (fault ≡ Fault.Memory) ⊎ (key_of word.now ≡ Err fault)) }
{
    let bytes = unspelled(alloc, word)?;
    Key::new(&bytes)
}

fn value_of(alloc: Global, word: &str) -> Result<Value, Fault>
    ensures { MatchResult result (λ value. value_of word.now ≡ Ok value)
        (λ fault. (fault ≡ Fault.Memory) ⊎ (value_of word.now ≡ Err fault)) }
{
    let bytes = unspelled(alloc, word)?;
    Value::new(alloc, &bytes)
}
