//! The words of a command.
ghost use Rattle.command_words.specs.Words.{command_named, command_of, is_word};
ghost use Rattle.command_words.specs.inside.Words.{AreWords};
ghost use Rattle.std.specs.Prelude.{◌≡◌, ◌↔◌, map, string_bytes, IfOk, IsTrue};

use crate::app::program_command;
use clap::error::ErrorKind;
use std::alloc::{AllocError, Global};

/// What the program is asked to do with a folder.
#[derive(Clone, Copy)]
pub enum Command {
    /// `define DIR`: makes the site anew.
    Define,
    /// `run DIR`: restarts and takes the messages.
    Run,
    /// `show DIR`: restarts and sends the text of the databases.
    Show,
    /// `log DIR`: sends the text of the log's groups.
    Log,
    /// `migrate DIR`: lets the messages of a site of format 1 have numbers from here on.
    Migrate,
    /// `audit DIR`: runs the log's transactions again, one after another, and tells whether each is legal.
    Audit,
}

// Whether a word has a byte, and doesn't begin with a minus sign.
fn is_word(word: &[u8]) -> bool
    ensures { result ≡ is_word word.now }
{
    !word.is_empty() && word[0] != b'-'
}

// Whether each word is one.
fn are_words(words: &[String]) -> bool
    ensures { IsTrue result ↔ AreWords (map string_bytes words.now) }
{
    for word in words {
        if !is_word(word.as_bytes()) {
            return false;
        }
    }
    true
}

// The command of a name.
fn command_named(name: &[u8]) -> Option<Command>
    ensures { result ≡ command_named name.now }
{
    if name == b"define".as_slice() {
        return Some(Command::Define);
    }
    if name == b"run".as_slice() {
        return Some(Command::Run);
    }
    if name == b"show".as_slice() {
        return Some(Command::Show);
    }
    if name == b"log".as_slice() {
        return Some(Command::Log);
    }
    if name == b"migrate".as_slice() {
        return Some(Command::Migrate);
    }
    if name == b"audit".as_slice() {
        return Some(Command::Audit);
    }
    None
}

/// The command that the words behind the program's name are; None exactly where they are none. Fails only for want of
/// memory.
pub fn command_of(alloc: Global, words: &[String]) -> Result<Option<Command>, AllocError>
    ensures { IfOk result (λ command. command ≡ command_of (map string_bytes words.now)) }
{
    if words.len() > 3 || !are_words(words) {
        return Ok(None);
    }
    match program_command(alloc)?.try_get_matches_from(words) {
        Ok(matches) => {
            let Some(name) = matches.subcommand_name() else {
                return Ok(None);
            };
            Ok(command_named(name.as_bytes()))
        }
        Err(e) => {
            if e.kind() == ErrorKind::OutOfMemory {
                Err(AllocError)
            } else {
                Ok(None)
            }
        }
    }
}
