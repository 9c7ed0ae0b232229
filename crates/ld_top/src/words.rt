//! The words of a call, as the system gives them.
use crate::ending::Ending;
use std::io::ErrorKind;
use std::{env, io};

/// The words behind the program's name, or the ending where they could not be had: memory ran
/// out, or a word is not UTF-8 and so the words have no form.
pub fn given_words(rt: &HostRuntime) -> Result<Vec<String>, Ending> {
    match words_behind_the_name(rt) {
        Ok(words) => Ok(words),
        Err(fault) => Err(ending_without_words(&fault)),
    }
}

/// The words behind the program's name.
fn words_behind_the_name(rt: &HostRuntime) -> io::Result<Vec<String>> {
    let mut words = Vec::new(rt.alloc());
    for word in env::args(rt)?.skip(1) {
        words.push(word)?;
    }
    Ok(words)
}

/// The ending where the words could not be had: memory ran out, or a word is not UTF-8.
fn ending_without_words(fault: &io::Error) -> Ending {
    if fault.kind() == ErrorKind::OutOfMemory {
        return Ending::NoMemory;
    }
    Ending::BadWords
}
