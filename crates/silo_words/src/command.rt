//! The subcommands with their options and arguments, as they are declared to `clap`.

ghost use Rattle.std.specs.Prelude.{◌≡◌, IfOk, false, true};
ghost use Rattle.clap.specs.Words.{App, Rule, app_of, new_app, rule_of, with_rule, with_subcommand};
ghost use Rattle.clap.specs.declared.builder.command.Command.TheViews.{out-Command as fields_of};
ghost use Rattle.silo_words.specs.Commands.{IsApp, bare_app, flag_rule, text_rule};
ghost use Rattle.silo_words.specs.Words.{age_rule, ages_rule, answer_app, audit_app, data_rule, explain_rule, folder_rule, journal_rule};
ghost use Rattle.silo_words.specs.Words.{migrate_app, no_sync_rule, path_rule, rows_app, sends_rule, serve_app, silo_app, steps_app};
ghost use Rattle.silo_words.specs.Words.{summary_rule, tenant_rule, tenants_rule, workers_rule};

use clap::{Arg, ArgAction, Command, value_parser};
use std::alloc::{AllocError, Global};

/// What the program calls itself, whatever its file is called.
const PROGRAM: &str = "silo";

/// The version of the program.
const VERSION: &str = "0.2.0";

/// An option that takes a text, by the name that follows its two hyphens.
fn text_option<'a>(alloc: Global, name: &'a str, value: &'a str, help: &'a str) -> Arg<'a>
    ensures rule { rule_of result ≡ text_rule name.entry.now }
    ensures local { result.global ≡ false }
{
    Arg::new(alloc, name)
        .long(name)
        .value_name(value)
        .help(help)
}

/// An option that takes no text.
fn flag_option<'a>(alloc: Global, name: &'a str, help: &'a str) -> Arg<'a>
    ensures rule { rule_of result ≡ flag_rule name.entry.now }
    ensures local { result.global ≡ false }
{
    Arg::new(alloc, name)
        .long(name)
        .action(ArgAction::SetTrue)
        .help(help)
}

fn age_option<'a>(alloc: Global) -> Arg<'a>
    ensures rule { rule_of result ≡ age_rule }
    ensures local { result.global ≡ false }
{
    let help = "Milliseconds after which an idle activation goes, 1 to 86400000 [default: 900000]";
    text_option(alloc, "age", "MS", help).value_parser(value_parser!(u64).range(1..=86_400_000))
}

fn ages_option<'a>(alloc: Global) -> Arg<'a>
    ensures rule { rule_of result ≡ ages_rule }
    ensures local { result.global ≡ false }
{
    let help = "Other ages for up to 64 kinds, each as `--age`";
    text_option(alloc, "ages", "KIND=MS,..", help)
}

fn workers_option<'a>(alloc: Global) -> Arg<'a>
    ensures rule { rule_of result ≡ workers_rule }
    ensures local { result.global ≡ false }
{
    let help = "How many workers serve at once, 1 to 64 [default: 4]";
    text_option(alloc, "workers", "N", help).value_parser(value_parser!(u64).range(1..=64))
}

fn sends_option<'a>(alloc: Global) -> Arg<'a>
    ensures rule { rule_of result ≡ sends_rule }
    ensures local { result.global ≡ false }
{
    let help =
        "How many calls that grains sent are delivered after a line, 0 to 1000000 [default: 1000]";
    text_option(alloc, "sends", "N", help).value_parser(value_parser!(u64).range(0..=1_000_000))
}

fn journal_option<'a>(alloc: Global) -> Arg<'a>
    ensures rule { rule_of result ≡ journal_rule }
    ensures local { result.global ≡ false }
{
    let help = "The file that the journal goes to, for `silo audit`";
    text_option(alloc, "journal", "PATH", help)
}

fn data_option<'a>(alloc: Global) -> Arg<'a>
    ensures rule { rule_of result ≡ data_rule }
    ensures local { result.global ≡ false }
{
    let help = "The folder that keeps what was answered, from one start to the next";
    text_option(alloc, "data", "DIR", help)
}

fn no_sync_option<'a>(alloc: Global) -> Arg<'a>
    ensures rule { rule_of result ≡ no_sync_rule }
    ensures local { result.global ≡ false }
{
    let help = "Answers before the folder of data is on the disk";
    flag_option(alloc, "no-sync", help)
}

fn explain_option<'a>(alloc: Global) -> Arg<'a>
    ensures rule { rule_of result ≡ explain_rule }
    ensures local { result.global ≡ false }
{
    let help = "Prints on standard error which lines made no step, and why";
    flag_option(alloc, "explain-lines", help)
}

fn summary_option<'a>(alloc: Global) -> Arg<'a>
    ensures rule { rule_of result ≡ summary_rule }
    ensures local { result.global ≡ false }
{
    let help = "Counts lines, answers, refusals by code and steps on standard error";
    flag_option(alloc, "summary", help)
}

fn tenant_arguments<'a>(alloc: Global) -> Arg<'a>
    ensures rule { rule_of result ≡ tenants_rule }
    ensures local { result.global ≡ false }
{
    Arg::new(alloc, "tenants")
        .value_name("TENANT:ACT:MAIL")
        .help("A tenant, its activations (1 to 10000) and the places of a mailbox (1 to 1000)")
        .action(ArgAction::Append)
        .num_args(1..)
        .required(true)
}

fn path_argument<'a>(alloc: Global) -> Arg<'a>
    ensures rule { rule_of result ≡ path_rule }
    ensures local { result.global ≡ false }
{
    Arg::new(alloc, "path")
        .value_name("PATH")
        .help("The file of a journal that `silo serve` or `silo answer` wrote")
        .required(true)
}

fn folder_argument<'a>(alloc: Global) -> Arg<'a>
    ensures rule { rule_of result ≡ folder_rule }
    ensures local { result.global ≡ false }
{
    Arg::new(alloc, "folder")
        .value_name("DIR")
        .help("The folder of data that `silo answer --data` keeps")
        .required(true)
}

fn tenant_argument<'a>(alloc: Global) -> Arg<'a>
    ensures rule { rule_of result ≡ tenant_rule }
    ensures local { result.global ≡ false }
{
    Arg::new(alloc, "tenant").value_name("TENANT").help(
        "The tenant whose rows and states are printed [default: all]",
    )
}

/// A command with no argument yet.
fn bare<'a>(alloc: Global, name: &'a str, about: &'a str) -> Command<'a>
    ensures { IsApp (new_app name.entry.now) result }
{
    Command::new(alloc, name).about(about)
}

/// The command with one argument more, if there was memory for it so far.
fn with_arg<'a>(
    command: Result<Command<'a>, AllocError>,
    arg: Arg<'a>,
) -> Result<Command<'a>, AllocError>
    ensures { (app : App) (rule : Rule) → IfOk command.entry (λ c. IsApp app c) → rule_of arg.entry ≡ rule → arg.entry.global ≡ false
        → IfOk result (λ c. IsApp (with_rule app rule) c) }
{
    match command {
        Ok(known) => known.arg(arg),
        Err(why) => {
            drop(arg);
            Err(why)
        }
    }
}

/// The command with the options for ages.
fn with_ages<'a>(
    alloc: Global,
    command: Result<Command<'a>, AllocError>,
) -> Result<Command<'a>, AllocError>
    ensures { (app : App) → IfOk command.entry (λ c. IsApp app c)
        → IfOk result (λ c. IsApp (with_rule (with_rule app age_rule) ages_rule) c) }
{
    with_arg(with_arg(command, age_option(alloc)), ages_option(alloc))
}

fn steps_command<'a>(alloc: Global) -> Result<Command<'a>, AllocError>
    ensures { IfOk result (λ c. IsApp steps_app c) }
{
    let about = "Reads every step from standard input";
    with_arg(
        with_ages(alloc, Ok(bare(alloc, "steps", about))),
        tenant_arguments(alloc),
    )
}

fn answer_command<'a>(alloc: Global) -> Result<Command<'a>, AllocError>
    ensures { IfOk result (λ c. IsApp answer_app c) }
{
    let about = "Answers each line on standard input before the next is read";
    let command = with_ages(alloc, Ok(bare(alloc, "answer", about)));
    let command = with_arg(command, sends_option(alloc));
    let command = with_arg(command, journal_option(alloc));
    let command = with_arg(command, data_option(alloc));
    let command = with_arg(command, no_sync_option(alloc));
    with_arg(command, tenant_arguments(alloc))
}

fn serve_command<'a>(alloc: Global) -> Result<Command<'a>, AllocError>
    ensures { IfOk result (λ c. IsApp serve_app c) }
{
    let about = "Serves the clients on standard input by workers";
    let command = with_arg(Ok(bare(alloc, "serve", about)), workers_option(alloc));
    let command = with_ages(alloc, command);
    let command = with_arg(command, journal_option(alloc));
    let command = with_arg(command, explain_option(alloc));
    let command = with_arg(command, summary_option(alloc));
    with_arg(command, tenant_arguments(alloc))
}

fn audit_command<'a>(alloc: Global) -> Result<Command<'a>, AllocError>
    ensures { IfOk result (λ c. IsApp audit_app c) }
{
    let about = "Checks that each tenant of a journal got what it would get alone";
    bare(alloc, "audit", about).arg(path_argument(alloc))
}

fn migrate_command<'a>(alloc: Global) -> Result<Command<'a>, AllocError>
    ensures { IfOk result (λ c. IsApp migrate_app c) }
{
    let about = "Writes the journal of a file in the newest form, on standard output";
    bare(alloc, "migrate", about).arg(path_argument(alloc))
}

fn rows_command<'a>(alloc: Global) -> Result<Command<'a>, AllocError>
    ensures { IfOk result (λ c. IsApp rows_app c) }
{
    let about = "Prints the rows and the active states of a folder's last checkpoint";
    let command = with_arg(Ok(bare(alloc, "rows", about)), folder_argument(alloc));
    with_arg(command, tenant_argument(alloc))
}

/// The command line with no subcommand yet.
fn bare_silo<'a>(alloc: Global) -> Result<Command<'a>, AllocError>
    ensures { IfOk result (λ c. IsApp bare_app c) }
{
    let command = Command::new(alloc, PROGRAM).bin_name(PROGRAM)?;
    Ok(
        command
            .version(VERSION)
            .about("A silo of grains that tenants share")
            .subcommand_required(true),
    )
}

/// The command with one subcommand more, if there was memory for both.
fn with_command<'a>(
    command: Result<Command<'a>, AllocError>,
    subcommand: Result<Command<'a>, AllocError>,
) -> Result<Command<'a>, AllocError>
    ensures { (app sub : App) → IfOk command.entry (λ c. IsApp app c) → IfOk subcommand.entry (λ c. IsApp sub c)
        → IfOk result (λ c. IsApp (with_subcommand app sub.top) c) }
{
    let under = match subcommand {
        Ok(under) => under,
        Err(why) => {
            drop(command);
            return Err(why);
        }
    };
    match command {
        Ok(known) => known.subcommand(under),
        Err(why) => {
            drop(under);
            Err(why)
        }
    }
}

/// The whole command line.
pub fn silo_command<'a>(alloc: Global) -> Result<Command<'a>, AllocError>
    ensures app { IfOk result (λ c. app_of c ≡ silo_app) }
    ensures local { IfOk result (λ c. (fields_of c).has_globals ≡ false) }
    ensures wanted { IfOk result (λ c. (fields_of c).subcommand_required ≡ true) }
{
    let command = with_command(bare_silo(alloc), steps_command(alloc));
    let command = with_command(command, answer_command(alloc));
    let command = with_command(command, serve_command(alloc));
    let command = with_command(command, audit_command(alloc));
    let command = with_command(command, migrate_command(alloc));
    with_command(command, rows_command(alloc))
}
