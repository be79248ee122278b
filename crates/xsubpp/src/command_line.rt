//! The words of the command line.
ghost use Rattle.std.specs.Prelude.{◌≡◌, MatchOption, None, Some};
ghost use Rattle.std.specs.Str.{is_utf8};
ghost use Rattle.xsubpp.specs.CommandLine.{begins_with_dash, command_of, is_file_word, command_view, with_file, with_script};

use std::str;
use xs_base::Bytes;

/// A command, with the words that name its files.
#[derive(Clone, Copy)]
pub enum CommandWords<'a> {
    /// `compile FILE`: the glue text of an XS file.
    Compile(&'a Bytes),
    /// `call FILE SCRIPT`: the transcript of a script's calls of the XSUBs of an XS file.
    Call(&'a Bytes, &'a Bytes),
    /// `check FILE`: whether an XS file is accepted.
    Check(&'a Bytes),
}

/// The command that the words give.
pub fn read_words(words: &[Bytes]) -> Option<CommandWords<'_>>
    ensures { MatchOption result (command_of words.now ≡ None) (λ c. command_of words.now
        ≡ Some (command_view c)) }
{
    match words {
        [command, file] => with_file(command.as_slice(), file),
        [command, file, script] => with_script(command.as_slice(), file, script),
        _ => None,
    }
}

// `compile FILE` or `check FILE`.
fn with_file<'a>(command: &[u8], file: &'a Bytes) -> Option<CommandWords<'a>>
    ensures { MatchOption result (with_file command.now file.now
        ≡ None) (λ c. with_file command.now file.now ≡ Some (command_view c)) }
{
    if !is_file_word(file.as_slice()) {
        None
    } else if command == b"compile".as_slice() {
        Some(CommandWords::Compile(file))
    } else if command == b"check".as_slice() {
        Some(CommandWords::Check(file))
    } else {
        None
    }
}

// `call FILE SCRIPT`.
fn with_script<'a>(command: &[u8], file: &'a Bytes, script: &'a Bytes) -> Option<CommandWords<'a>>
    ensures { MatchOption result (with_script command.now file.now script.now
        ≡ None) (λ c. with_script command.now file.now script.now ≡ Some (command_view c)) }
{
    if command == b"call".as_slice()
        && is_file_word(file.as_slice())
        && is_file_word(script.as_slice())
    {
        Some(CommandWords::Call(file, script))
    } else {
        None
    }
}

// Whether a word may name a file.
fn is_file_word(word: &[u8]) -> bool
    ensures { result ≡ is_file_word word.now }
{
    is_text(word) && !begins_with_dash(word)
}

#[tactic(auto, using(crate::proofs::Texts::is_valid, crate::proofs::Texts::is_invalid))]
fn is_text(word: &[u8]) -> bool
    ensures { result ≡ is_utf8 word.now }
{
    match str::from_utf8(word) {
        Ok(_) => true,
        Err(_) => false,
    }
}

fn begins_with_dash(word: &[u8]) -> bool
    ensures { result ≡ begins_with_dash word.now }
{
    match word {
        [b'-', ..] => true,
        _ => false,
    }
}
