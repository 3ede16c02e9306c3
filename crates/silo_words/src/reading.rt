//! The words, read.

ghost use Rattle.std.specs.Prelude.{◌≡◌, IfOk, IfErr, [], true};
ghost use Rattle.clap.specs.Words.{HasKind, fault_of as faults_of, has_subcommand, subcommand_rows_of};
ghost use Rattle.silo_words.specs.Words.{AskFor, IsWhy, found_in, silo_app, texts_of};

use crate::command::silo_command;
use crate::fault::{WordsFault, fault_of};
use crate::task::{Task, task_of};
use clap::{ArgMatches, Error};
use std::alloc::Global;

fn matches_of<'a>(alloc: Global, words: &'a [String]) -> Result<ArgMatches<'a>, Error>
    ensures taken { IfOk result (λ _. faults_of silo_app (texts_of words.entry.now) ≡ []) }
    ensures found { IfOk result (λ m. subcommand_rows_of m ≡ found_in (texts_of words.entry.now)) }
    ensures entered { IfOk result (λ m. has_subcommand m ≡ true) }
    ensures kind { IfErr result (λ e. HasKind (faults_of silo_app (texts_of words.entry.now)) e) }
{
    silo_command(alloc)?.try_get_matches_from(words)
}

/// Reads the words of a command line, the program's name first.
pub fn read_words<'a>(alloc: Global, words: &'a [String]) -> Result<Task<'a>, WordsFault>
    ensures task { IfOk result (λ task. AskFor (texts_of words.entry.now) task) }
    ensures fault { IfErr result (λ fault. IsWhy (texts_of words.entry.now) fault) }
{
    match matches_of(alloc, words) {
        Err(error) => Err(fault_of(alloc, words, &error)),
        Ok(matches) => match matches.subcommand() {
            Some((name, found)) => task_of(alloc, name, found),
            None => unreachable!(),
        },
    }
}
