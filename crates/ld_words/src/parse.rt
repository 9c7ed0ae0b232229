//! The words of a call as `clap` reads them.
ghost use Rattle.std.specs.Prelude.{◌≡◌, ◌≤◌, true, false, IfOk};
ghost use Rattle.std.specs.List.{list_all};
ghost use Rattle.clap.specs.Simple.{app_of, shape_of};
ghost use Rattle.clap.specs.declared.builder.command.Command.TheViews.{out-Command as fields_of};
ghost use Rattle.clap.specs.Values.{kind_of};
ghost use Rattle.clap.specs.Walk.{rule_of};
ghost use Rattle.ld_words.specs.App.{bare_app, ld_app, verb_shape, words_rule};
ghost use Rattle.ld_words.specs.Verbs.{are_taken};
ghost use Rattle.ld_words.specs.Words.{words_of, is_plain_word};

use clap::error::ErrorKind;
use clap::{Arg, ArgAction, Command, Error};
use ld_base::NoMemory;
use std::alloc::{AllocError, Global};

/// The most folders that a call names.
pub(crate) const FOLDERS_MOST: usize = 64;

/// Whether the words have a verb and as many words behind it as the verb may have. All of them are
/// plain, so `clap` takes none for a flag.
///
/// # Errors
/// `NoMemory` where memory runs out for `clap`.
pub(crate) fn are_taken(alloc: Global, words: &[String]) -> Result<bool, NoMemory>
    requires { list_all is_plain_word (words_of words.now) ≡ true }
    ensures { IfOk result (λ taken. taken ≡ are_taken (words_of words.now)) }
{
    let command = whole_command(alloc)?;
    match command.try_get_matches_from(words) {
        Ok(_) => Ok(true),
        Err(error) => refused(&error),
    }
}

/// False, since the words were refused.
///
/// # Errors
/// `NoMemory` where memory ran out, which says nothing of the words.
fn refused(error: &Error) -> Result<bool, NoMemory>
    ensures { IfOk result (λ taken.
        (taken ≡ false) × (kind_of error.now ≡ ErrorKind.OutOfMemory → ⊥)) }
{
    if error.kind() == ErrorKind::OutOfMemory {
        return Err(NoMemory);
    }
    Ok(false)
}

/// The program and its verbs.
fn whole_command<'a>(alloc: Global) -> Result<Command<'a>, AllocError>
    ensures { IfOk result (λ command. app_of command ≡ ld_app) }
{
    let command = bare_command(alloc)
        .subcommand(verb(alloc, "replay", FOLDERS_MOST)?)?
        .subcommand(verb(alloc, "check", 1)?)?
        .subcommand(verb(alloc, "canon", 1)?)?
        .subcommand(verb(alloc, "rank", 1)?)?
        .subcommand(verb(alloc, "keep", FOLDERS_MOST)?)?
        .subcommand(verb(alloc, "gen", 2)?)?;
    Ok(command)
}

/// The program without verbs, of which one has to be named. It has no help and no version.
fn bare_command<'a>(alloc: Global) -> Command<'a>
    ensures { app_of result ≡ bare_app }
{
    Command::new(alloc, "ld")
        .no_binary_name(true)
        .disable_help_flag(true)
        .disable_help_subcommand(true)
        .disable_version_flag(true)
        .subcommand_required(true)
}

/// A verb with one word behind it or more, but no more than `most`.
fn verb<'a>(alloc: Global, name: &'a str, most: usize) -> Result<Command<'a>, AllocError>
    requires { 1 ≤ most }
    ensures shape { IfOk result (λ command. shape_of command ≡ verb_shape name.now most) }
    ensures globals { IfOk result (λ command. (fields_of command).has_globals ≡ false) }
{
    let words = words_arg(alloc, most);
    let command = Command::new(alloc, name).arg(words)?;
    Ok(command)
}

/// One word or more, but no more than `most`.
fn words_arg<'a>(alloc: Global, most: usize) -> Arg<'a>
    requires { 1 ≤ most }
    ensures rule { rule_of result ≡ words_rule most }
    ensures local { result.global ≡ false }
{
    Arg::new(alloc, "words")
        .action(ArgAction::Set)
        .num_args(1..=most)
        .required(true)
}
