//! The task that the words request, from what `clap` found of a subcommand.

ghost use Rattle.std.specs.Prelude.{◌≡◌, ◌↔◌, ℕ, List, IfOk, IfErr, IfSome, IfNone, IsTrue, Some, codes, map, option_map};
ghost use Rattle.clap.specs.Words.{Row, Text, first_of, found_of, one_of, rows_of};
ghost use Rattle.grain_id.specs.Names.{same_text};
ghost use Rattle.silo_words.specs.Words.{IsAge, IsData, IsNoAge, IsNoSends, IsNoTaskFor, IsNoWorkers, IsNumber, IsPlain, IsSends, IsTaskOf};
ghost use Rattle.silo_words.specs.Words.{IsTelling, IsWorkers, MakesNoTask, is_set, tenants_in};

use crate::fault::WordsFault;
use clap::ArgMatches;
use std::alloc::{AllocError, Global};
use tenant_gate::{Age, MAX_AGE_MILLISECONDS};

/// The age when `--age` is left out.
const DEFAULT_AGE_MILLISECONDS: u64 = 900_000;

/// The workers when `--workers` is left out.
const DEFAULT_WORKERS: u64 = 4;

/// The most workers that may be requested.
const MAX_WORKERS: u64 = 64;

/// The most deliveries after a line when `--sends` is left out.
const DEFAULT_SENDS: u64 = 1_000;

/// The most deliveries that may be requested.
const MAX_SENDS: u64 = 1_000_000;

/// What is said if `--no-sync` stands without `--data`.
const NO_DATA: &str = "error: '--no-sync' needs '--data <DIR>'\n";

/// What is said if both stand there.
const DATA_AND_JOURNAL: &str = "error: '--data <DIR>' and '--journal <PATH>' don't go together\n";

/// What is reported about an input that is served, besides its answers.
#[derive(Clone, Copy, Debug, PartialEq, Eq)]
pub struct Telling {
    /// Which lines made no step, and why.
    pub explain_lines: bool,
    /// How many lines, answers, refusals by code and steps there are.
    pub summary: bool,
}

/// Where what was answered is kept, across starts of the program.
#[derive(Clone, Copy, Debug, PartialEq, Eq)]
pub struct Data<'a> {
    /// The folder, as it is written.
    pub path: &'a str,
    /// Whether replies wait until the lines that they answer are on the disk.
    pub sync: bool,
}

/// The task that the words request. Tenant arguments, ages of kinds and paths are as they are written.
#[derive(Drop)]
pub enum Task<'a> {
    /// Read every step from standard input.
    Steps {
        age: Age,
        ages: Option<&'a str>,
        tenants: Vec<&'a str>,
    },

    /// Answer each line on standard input before the next is read, with at most `sends` deliveries after it (0 to
    /// 1,000,000), and write the journal if it has a path, or keep what was answered if there is a folder of data:
    /// never both.
    Answer {
        age: Age,
        ages: Option<&'a str>,
        sends: u64,
        journal: Option<&'a str>,
        data: Option<Data<'a>>,
        tenants: Vec<&'a str>,
    },

    /// Serve the clients on standard input by workers (1 to 64), write the journal if it has a path, and report what
    /// `telling` selects.
    Serve {
        workers: usize,
        age: Age,
        ages: Option<&'a str>,
        journal: Option<&'a str>,
        telling: Telling,
        tenants: Vec<&'a str>,
    },

    /// Audit the journal at the path.
    Audit {
        path: &'a str,
    },

    /// Write the journal at the path in the form in which journals are written.
    Migrate {
        path: &'a str,
    },

    /// Print what the checkpoint in the folder has: of the tenant, if one is named.
    Rows {
        folder: &'a str,
        tenant: Option<&'a str>,
    },
}

/// The number of an option, if what was found is one within its range, and the usual one if nothing was.
fn number_of(found: &ArgMatches<'_>, option: &str, usual: u64, least: u64, most: u64) -> Option<u64>
    ensures some { IfSome result (λ number. IsNumber usual least most (one_of option.now (rows_of (found_of found.now))) number) }
    ensures none { IfNone result ((number : ℕ) → ¬ IsNumber usual least most (one_of option.now (rows_of (found_of found.now))) number) }
{
    match found.try_get_one::<u64>(option) {
        Ok(None) => Some(usual),
        Ok(Some(number)) if least <= number && number <= most => Some(number),
        Ok(Some(_)) => None,
        Err(_) => None,
    }
}

/// The age.
fn age_of(found: &ArgMatches<'_>) -> Option<Age>
    ensures some { IfSome result (λ age. IsAge (one_of (codes "age") (rows_of (found_of found.now))) age) }
    ensures none { IfNone result (IsNoAge (rows_of (found_of found.now))) }
{
    let milliseconds = number_of(
        found,
        "age",
        DEFAULT_AGE_MILLISECONDS,
        1,
        MAX_AGE_MILLISECONDS,
    )?;
    let Some(age) = Age::new(milliseconds) else {
        unreachable!();
    };
    Some(age)
}

/// How many workers.
fn workers_of(found: &ArgMatches<'_>) -> Option<u64>
    ensures some { IfSome result (λ workers. IsWorkers (one_of (codes "workers") (rows_of (found_of found.now))) workers) }
    ensures none { IfNone result (IsNoWorkers (rows_of (found_of found.now))) }
{
    number_of(found, "workers", DEFAULT_WORKERS, 1, MAX_WORKERS)
}

/// Whether the text is one zero, or begins with a digit above it.
fn is_plain(text: &str) -> bool
    ensures { IsTrue result ↔ IsPlain (Some text.now) }
{
    matches!(text.as_bytes(), [b'0'] | [b'1'..=b'9', ..])
}

/// How many deliveries. No sign is taken, and no zero before other digits.
fn sends_of(found: &ArgMatches<'_>) -> Option<u64>
    ensures some { IfSome result (λ sends. IsSends (rows_of (found_of found.now)) sends) }
    ensures none { IfNone result (IsNoSends (rows_of (found_of found.now))) }
{
    if let Some(text) = text_of(found, "sends") {
        if !is_plain(text) {
            return None;
        }
    }
    number_of(found, "sends", DEFAULT_SENDS, 0, MAX_SENDS)
}

/// The tenant arguments that were found, as they are written.
fn tenants_of<'a>(alloc: Global, found: &ArgMatches<'a>) -> Result<Vec<&'a str>, AllocError>
    ensures { IfOk result (λ tenants. map (λ t. t.now) tenants.items ≡ tenants_in (rows_of (found_of found.now))) }
{
    match found.get_strs("tenants") {
        Some(texts) => Vec::from_slice(alloc, texts),
        None => Ok(Vec::new(alloc)),
    }
}

/// The text that was found of an option or an argument.
fn text_of<'a>(found: &ArgMatches<'a>, id: &str) -> Option<&'a str>
    ensures { option_map (λ text. text.now) result ≡ first_of id.now (rows_of (found_of found.now)) }
{
    found.get_str(id)
}

fn is_same(text: &str, other: &str) -> bool
    ensures { result ≡ same_text text.now other.now }
{
    text == other
}

/// Whether a flag is there.
fn is_set(found: &ArgMatches<'_>, flag: &str) -> bool
    ensures { result ≡ is_set (first_of flag.now (rows_of (found_of found.now))) }
{
    match text_of(found, flag) {
        Some(text) => is_same(text, "true"),
        None => false,
    }
}

/// What the flags select to be reported.
fn telling_of(found: &ArgMatches<'_>) -> Telling
    ensures { IsTelling (rows_of (found_of found.now)) result }
{
    Telling {
        explain_lines: is_set(found, "explain-lines"),
        summary: is_set(found, "summary"),
    }
}

/// The words are wrong, as the text says.
fn wrong(alloc: Global, text: &str) -> WordsFault
    ensures { (name : Text) (rows : List Row) → MakesNoTask name rows → IsNoTaskFor name rows result }
{
    match String::from_str(alloc, text) {
        Ok(text) => WordsFault::Wrong(text),
        Err(_) => WordsFault::Memory,
    }
}

/// `clap` refuses what makes no task before this does.
fn no_task(alloc: Global) -> WordsFault
    ensures { (name : Text) (rows : List Row) → MakesNoTask name rows → IsNoTaskFor name rows result }
{
    wrong(alloc, "error: the words are out of range\n")
}

/// The folder of data that was found, if one was.
///
/// # Errors
///
/// `Wrong` if a folder and a journal were found, or no folder and the flag of one. `clap` could refuse both too, but then its
/// account of what it refuses isn't exact.
fn data_of<'a>(alloc: Global, found: &ArgMatches<'a>) -> Result<Option<Data<'a>>, WordsFault>
    ensures folder { IfOk result (λ folder. IsData (rows_of (found_of found.now)) folder) }
    ensures fault { IfErr result (λ fault. IsNoTaskFor (codes "answer") (rows_of (found_of found.now)) fault) }
{
    let no_sync = is_set(found, "no-sync");
    let Some(path) = text_of(found, "data") else {
        if no_sync {
            return Err(wrong(alloc, NO_DATA));
        }
        return Ok(None);
    };
    if text_of(found, "journal").is_some() {
        return Err(wrong(alloc, DATA_AND_JOURNAL));
    }
    Ok(Some(Data {
        path,
        sync: !no_sync,
    }))
}

fn steps_task<'a>(alloc: Global, found: &ArgMatches<'a>) -> Result<Task<'a>, WordsFault>
    ensures task { IfOk result (λ task. IsTaskOf (codes "steps") (rows_of (found_of found.now)) task) }
    ensures fault { IfErr result (λ fault. IsNoTaskFor (codes "steps") (rows_of (found_of found.now)) fault) }
{
    let Some(age) = age_of(found) else {
        return Err(no_task(alloc));
    };
    match tenants_of(alloc, found) {
        Ok(tenants) => Ok(Task::Steps {
            age,
            ages: text_of(found, "ages"),
            tenants,
        }),
        Err(_) => Err(WordsFault::Memory),
    }
}

fn answer_task<'a>(alloc: Global, found: &ArgMatches<'a>) -> Result<Task<'a>, WordsFault>
    ensures task { IfOk result (λ task. IsTaskOf (codes "answer") (rows_of (found_of found.now)) task) }
    ensures fault { IfErr result (λ fault. IsNoTaskFor (codes "answer") (rows_of (found_of found.now)) fault) }
{
    let Some(age) = age_of(found) else {
        return Err(no_task(alloc));
    };
    let Some(sends) = sends_of(found) else {
        return Err(no_task(alloc));
    };
    let Ok(tenants) = tenants_of(alloc, found) else {
        return Err(WordsFault::Memory);
    };
    let folder = match data_of(alloc, found) {
        Ok(folder) => folder,
        Err(fault) => {
            drop(tenants);
            return Err(fault);
        }
    };
    let ages = text_of(found, "ages");
    let journal = text_of(found, "journal");
    Ok(Task::Answer {
        age,
        ages,
        sends,
        journal,
        data: folder,
        tenants,
    })
}

fn serve_task<'a>(alloc: Global, found: &ArgMatches<'a>) -> Result<Task<'a>, WordsFault>
    ensures task { IfOk result (λ task. IsTaskOf (codes "serve") (rows_of (found_of found.now)) task) }
    ensures fault { IfErr result (λ fault. IsNoTaskFor (codes "serve") (rows_of (found_of found.now)) fault) }
{
    let Some(workers) = workers_of(found) else {
        return Err(no_task(alloc));
    };
    let Some(age) = age_of(found) else {
        return Err(no_task(alloc));
    };
    let Ok(tenants) = tenants_of(alloc, found) else {
        return Err(WordsFault::Memory);
    };
    Ok(Task::Serve {
        workers: workers as usize,
        age,
        ages: text_of(found, "ages"),
        journal: text_of(found, "journal"),
        telling: telling_of(found),
        tenants,
    })
}

fn audit_task<'a>(alloc: Global, found: &ArgMatches<'a>) -> Result<Task<'a>, WordsFault>
    ensures task { IfOk result (λ task. IsTaskOf (codes "audit") (rows_of (found_of found.now)) task) }
    ensures fault { IfErr result (λ fault. IsNoTaskFor (codes "audit") (rows_of (found_of found.now)) fault) }
{
    match text_of(found, "path") {
        Some(path) => Ok(Task::Audit { path }),
        None => Err(no_task(alloc)),
    }
}

fn migrate_task<'a>(alloc: Global, found: &ArgMatches<'a>) -> Result<Task<'a>, WordsFault>
    ensures task { IfOk result (λ task. IsTaskOf (codes "migrate") (rows_of (found_of found.now)) task) }
    ensures fault { IfErr result (λ fault. IsNoTaskFor (codes "migrate") (rows_of (found_of found.now)) fault) }
{
    let Some(path) = text_of(found, "path") else {
        return Err(no_task(alloc));
    };
    Ok(Task::Migrate { path })
}

fn rows_task<'a>(alloc: Global, found: &ArgMatches<'a>) -> Result<Task<'a>, WordsFault>
    ensures task { IfOk result (λ task. IsTaskOf (codes "rows") (rows_of (found_of found.now)) task) }
    ensures fault { IfErr result (λ fault. IsNoTaskFor (codes "rows") (rows_of (found_of found.now)) fault) }
{
    let Some(folder) = text_of(found, "folder") else {
        return Err(no_task(alloc));
    };
    let tenant = text_of(found, "tenant");
    Ok(Task::Rows { folder, tenant })
}

/// The task of a subcommand, by its name and what was found of it.
pub fn task_of<'a>(
    alloc: Global,
    name: &str,
    found: &ArgMatches<'a>,
) -> Result<Task<'a>, WordsFault>
    ensures task { IfOk result (λ task. IsTaskOf name.now (rows_of (found_of found.now)) task) }
    ensures fault { IfErr result (λ fault. IsNoTaskFor name.now (rows_of (found_of found.now)) fault) }
{
    match name {
        "steps" => steps_task(alloc, found),
        "answer" => answer_task(alloc, found),
        "serve" => serve_task(alloc, found),
        "audit" => audit_task(alloc, found),
        "migrate" => migrate_task(alloc, found),
        "rows" => rows_task(alloc, found),
        _ => Err(no_task(alloc)),
    }
}
