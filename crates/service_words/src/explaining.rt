//! What is wrong with words that are refused.
use crate::move_words::explanation_of_text;
use crate::options::{Numbered, OPTIONS, RENEWING};
use command_line::paragraph;
use std::alloc::{AllocError, Global};
use texts::number;
use units::Fault;

/// Why words of one of the commands were refused for this fault, as one line: what is missing, wrong or too much. A second line tells how the
/// command is called.
pub fn explanation(alloc: Global, words: &[&str], fault: Fault) -> Result<String, AllocError> {
    match words {
        [first, ..] if *first == "serve" => {
            explanation_with_numbers(alloc, words, "serve", &OPTIONS, fault)
        }
        [first, ..] if *first == "renew" => {
            explanation_with_numbers(alloc, words, "renew", &RENEWING, fault)
        }
        [first, ..] if *first == "export" || *first == "import" => {
            explanation_of_text(alloc, words, fault)
        }
        _ => command_line::explanation(alloc, words, fault),
    }
}

// The same of a command with options that take numbers.
fn explanation_with_numbers(
    alloc: Global,
    words: &[&str],
    name: &str,
    options: &[Numbered],
    fault: Fault,
) -> Result<String, AllocError> {
    let mut plain = Vec::new(alloc);
    let wrong = match wrong_option(alloc, words, options, &mut plain)? {
        Some(what) => Some(what),
        None => twice_told(alloc, words, options)?,
    };
    let text = match wrong {
        Some(what) => {
            let synopsis = paragraph(name).lines().next().unwrap_or(name);
            format!(in alloc; "--> {what}\nusage: shards {synopsis}")
        }
        None => command_line::explanation(alloc, plain.as_slice(), fault),
    };
    drop(plain);
    text
}

// What is wrong with the number of an option. The words without options and their numbers are added to others.
fn wrong_option<'a>(
    alloc: Global,
    words: &[&'a str],
    options: &[Numbered],
    plain: &mut Vec<&'a str>,
) -> Result<Option<String>, AllocError> {
    let mut awaited: Option<Numbered> = None;
    let mut ended = false;
    for word in words {
        let word = *word;
        if let Some(option) = awaited {
            if let Some(what) = wrong_number(alloc, option, word)? {
                return Ok(Some(what));
            }
            awaited = None;
            continue;
        }
        ended = ended || word == "--";
        match option_of(ended, word, options) {
            Some((option, Some(text))) => {
                if let Some(what) = wrong_number(alloc, option, text)? {
                    return Ok(Some(what));
                }
            }
            Some((option, None)) => awaited = Some(option),
            None => plain.push(word)?,
        }
    }
    match awaited {
        Some(option) => {
            let name = option.name;
            Ok(Some(format!(in alloc; "the number of '--{name}' is missing")?))
        }
        None => Ok(None),
    }
}

// The option that a word names, and the number that it gives with it.
fn option_of<'a>(
    ended: bool,
    word: &'a str,
    options: &[Numbered],
) -> Option<(Numbered, Option<&'a str>)> {
    if ended {
        return None;
    }
    let rest = word.strip_prefix("--")?;
    let (name, text) = match rest.split_once('=') {
        Some((name, text)) => (name, Some(text)),
        None => (rest, None),
    };
    for option in options {
        if option.name == name {
            return Some((*option, text));
        }
    }
    None
}

// Whether a text is no number that an option takes, and what one is.
fn wrong_number(alloc: Global, option: Numbered, text: &str) -> Result<Option<String>, AllocError> {
    let Numbered { name, least, most } = option;
    match number(text) {
        Ok(found) if least <= found && found <= most => Ok(None),
        _ if most == u64::MAX => Ok(Some(format!(in alloc;
            "'--{name}' takes a whole number, and not '{text}'"
        )?)),
        _ => Ok(Some(format!(in alloc;
            "'--{name}' takes a whole number from {least} to {most}, and not '{text}'"
        )?)),
    }
}

// The first option that stands twice.
fn twice_told(
    alloc: Global,
    words: &[&str],
    options: &[Numbered],
) -> Result<Option<String>, AllocError> {
    for option in options {
        if times(option.name, words, options) > 1 {
            let name = option.name;
            return Ok(Some(format!(in alloc; "'--{name}' stands twice")?));
        }
    }
    Ok(None)
}

// How often an option stands among words.
fn times(name: &str, words: &[&str], options: &[Numbered]) -> usize {
    let mut ended = false;
    let mut times = 0usize;
    for word in words {
        ended = ended || *word == "--";
        match option_of(ended, *word, options) {
            Some((option, _)) if option.name == name => times = times.saturating_add(1),
            _ => {}
        }
    }
    times
}
