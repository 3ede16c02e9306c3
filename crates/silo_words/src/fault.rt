//! What is returned instead of a task.

ghost use Rattle.std.specs.Prelude.{◌≡◌, IfOk, string_bytes};
ghost use Rattle.clap.specs.Words.{kind_of};
ghost use Rattle.grain_id.specs.Names.{same_text};
ghost use Rattle.silo_words.specs.Words.{EndsWithExample, IsFaultBy, command_in, example_of, texts_of, word_at};

use clap::Error;
use clap::error::ErrorKind;
use std::alloc::{AllocError, Global};
use thiserror::Error;

/// What stands at the end of help on `steps`: with which status the program ends, and two lines that a shell takes as they
/// are, as at the end of the others.
pub const STEPS_EXAMPLE: &str = concat!(
    "\nExit status: 0 after the last line; 1 if a stream or memory failed, or there are\n",
    "too many lines; 2 if the words are refused.\n",
    "\nExample: a counter is asked to add 3.\n",
    r#"  (echo '{"op":"call","from":"red/c1","id":1,"grain":"counter/red:a","method":"add","args":{"by":3}}'"#,
    "\n",
    r#"  printf '{"op":"%s","grain":"counter/red:a"%s}\n' activate '' load '' begin '' end ',"turn":1') | silo steps red:2:4"#,
    "\n"
);

/// What stands at the end of help on no command.
pub const SILO_EXAMPLE: &str = concat!(
    "\nExit status: 0 if all is well; 1 if a stream, a file, memory or the threads failed,\n",
    "or there are too many lines; 2 if the words are refused; 3 if an audit finds that a\n",
    "tenant differs; 4 if the file has no journal, or the data are refused.\n",
    "\nExample: a counter is asked to add 3, and answers.\n",
    r#"  echo '{"op":"call","from":"red/c1","id":1,"grain":"counter/red:a","method":"add","args":{"by":3}}' |"#,
    "\n  silo answer red:2:4\n"
);

/// What stands at the end of help on `answer`.
pub const ANSWER_EXAMPLE: &str = concat!(
    "\nExit status: 0 after the last line; 1 if a stream, the journal, the data or memory\n",
    "failed, or there are too many lines; 2 if the words are refused, or the data have\n",
    "other words; 4 if the data are refused.\n",
    "\nExample: a counter is asked to add 3, and answers.\n",
    r#"  echo '{"op":"call","from":"red/c1","id":1,"grain":"counter/red:a","method":"add","args":{"by":3}}' |"#,
    "\n  silo answer red:2:4\n"
);

/// What stands at the end of help on `serve`.
pub const SERVE_EXAMPLE: &str = concat!(
    "\nExit status: 0 after the last reply; 1 if a stream, the journal, memory or the\n",
    "threads failed, or there are too many lines; 2 if the words are refused.\n",
    "\nExample: a client that two threads serve asks a counter to add 3, with reports on standard error.\n",
    r#"  echo '{"op":"call","from":"red/c1","id":1,"grain":"counter/red:a","method":"add","args":{"by":3}}' |"#,
    "\n  silo serve --workers 2 --explain-lines --summary red:2:4\n"
);

/// What stands at the end of help on `audit`.
pub const AUDIT_EXAMPLE: &str = concat!(
    "\nExit status: 0 if no tenant differs, and 3 if one does; 1 if the file, the output,\n",
    "memory or the threads failed; 2 if the words are refused; 4 if the file has no journal.\n",
    "\nExample: a counter is asked to add 3, and the journal of that is audited.\n",
    r#"  echo '{"op":"call","from":"red/c1","id":1,"grain":"counter/red:a","method":"add","args":{"by":3}}'"#,
    " |\n  silo answer --journal day red:2:4 && silo audit day\n"
);

/// What stands at the end of help on `migrate`.
pub const MIGRATE_EXAMPLE: &str = concat!(
    "\nExit status: 0 if it was written; 1 if the file, the output or memory failed; 2 if the\n",
    "words are refused; 4 if the file has no journal.\n",
    "\nExample: a counter is asked to add 3, and the journal of that is migrated.\n",
    r#"  echo '{"op":"call","from":"red/c1","id":1,"grain":"counter/red:a","method":"add","args":{"by":3}}'"#,
    " |\n  silo answer --journal day red:2:4 && silo migrate day\n"
);

/// What stands at the end of help on `rows`.
pub const ROWS_EXAMPLE: &str = concat!(
    "\nWhat was answered since the last checkpoint isn't printed. DIR isn't changed, and a\n",
    "process may have it.\n",
    "\nExit status: 0 if all was printed; 1 if there is no checkpoint, or it can't be read, or\n",
    "the output or memory failed; 2 if the words are refused; 4 if the checkpoint is refused.\n",
    "\nExample: a counter is asked to add 3, and its state is printed.\n",
    r#"  echo '{"op":"call","from":"red/c1","id":1,"grain":"counter/red:a","method":"add","args":{"by":3}}'"#,
    " |\n  silo answer --data kept red:2:4 && silo rows kept red\n"
);

/// Why the words make no task.
#[derive(Debug, Drop, Error)]
pub enum WordsFault {
    #[error("out of memory")]
    Memory,
    /// Help was requested: its text, which ends with the example of the command that it is on.
    #[error("{0}")]
    Help(String),
    /// The version was requested.
    #[error("the version was asked for")]
    Version,
    /// The text of what is wrong with the words.
    #[error("{0}")]
    Wrong(String),
}

/// The word of that number, the program's name being the first, or nothing.
fn word_at<'a>(words: &'a [String], number: usize) -> &'a str
    ensures { result.now ≡ word_at number (texts_of words.entry.now) }
{
    match words.get(number) {
        Some(word) => word.as_str(),
        None => "",
    }
}

fn is_same(word: &str, other: &str) -> bool
    ensures { result ≡ same_text word.now other.now }
{
    word == other
}

/// The word that names the command: the second, or after `help` the third. Empty if there is no such word.
fn command_in<'a>(words: &'a [String]) -> &'a str
    ensures { result.now ≡ command_in (texts_of words.entry.now) }
{
    let word = word_at(words, 1);
    if is_same(word, "help") {
        return word_at(words, 2);
    }
    word
}

/// The example of the command of that name, or that of no command.
fn example_of(name: &str) -> &'static str
    ensures { result.now ≡ example_of name.now }
{
    if is_same(name, "steps") {
        return STEPS_EXAMPLE;
    }
    if is_same(name, "answer") {
        return ANSWER_EXAMPLE;
    }
    if is_same(name, "serve") {
        return SERVE_EXAMPLE;
    }
    if is_same(name, "audit") {
        return AUDIT_EXAMPLE;
    }
    if is_same(name, "migrate") {
        return MIGRATE_EXAMPLE;
    }
    if is_same(name, "rows") {
        return ROWS_EXAMPLE;
    }
    SILO_EXAMPLE
}

/// The text of help, and then the example of the command that the words name, or that of no command.
fn help_text(alloc: Global, words: &[String], error: &Error) -> Result<String, AllocError>
    ensures { IfOk result (λ text. EndsWithExample (texts_of words.now) (string_bytes text)) }
{
    let mut text = error.to_string(alloc)?;
    text.push_str(example_of(command_in(words)))?;
    Ok(text)
}

/// What an error of `clap`'s on the words becomes.
pub fn fault_of(alloc: Global, words: &[String], error: &Error) -> WordsFault
    ensures { IsFaultBy (texts_of words.now) (kind_of error.now) result }
{
    match error.kind() {
        ErrorKind::OutOfMemory => WordsFault::Memory,
        ErrorKind::DisplayVersion => WordsFault::Version,
        ErrorKind::DisplayHelp => match help_text(alloc, words, error) {
            Ok(text) => WordsFault::Help(text),
            Err(_) => WordsFault::Memory,
        },
        _ => match error.to_string(alloc) {
            Ok(text) => WordsFault::Wrong(text),
            Err(_) => WordsFault::Memory,
        },
    }
}
