// The tools' commands, as clap takes them.
ghost use Rattle.std.specs.Prelude.{◌≡◌, Some, IfOk, false, codes};
ghost use Rattle.clap.specs.Simple.{app_of, new_rule, with_rule};
ghost use Rattle.clap.specs.Walk.{rule_of};
ghost use Rattle.f2_top.specs.Parser.{app_of_grammar};
ghost use Rattle.f2_top.specs.Tools.{no_grammar, fsck_grammar, dump_grammar, defrag_grammar, mkfs_grammar};

use clap::{Arg, ArgAction, Command};
use std::alloc::{AllocError, Global};

// A command without help, and with no option yet.
fn tool<'a>(alloc: Global, name: &'a str) -> Command<'a>
    ensures { app_of result ≡ app_of_grammar name.entry.now no_grammar }
{
    Command::new(alloc, name).disable_help_flag(true)
}

// Adds an option that is given by a letter. Its id is the text that gives it.
fn by_letter<'a>(
    alloc: Global,
    command: Command<'a>,
    id: &'a str,
    letter: char,
    action: ArgAction,
) -> Result<Command<'a>, AllocError>
    ensures { IfOk result (λ c. app_of c ≡ with_rule (app_of command.entry)
        (record (new_rule id.entry.now) { short = Some letter; action = Some action })) }
{
    command.arg(Arg::new(alloc, id).short(letter).action(action))
}

// Adds an option that is given by a long name.
fn by_name<'a>(
    alloc: Global,
    command: Command<'a>,
    id: &'a str,
    name: &'a str,
    action: ArgAction,
) -> Result<Command<'a>, AllocError>
    ensures { IfOk result (λ c. app_of c ≡ with_rule (app_of command.entry)
        (record (new_rule id.entry.now) { long = Some name.entry.now; action = Some action })) }
{
    command.arg(Arg::new(alloc, id).long(name).action(action))
}

// Adds a word by itself.
fn by_place<'a>(alloc: Global, command: Command<'a>, id: &'a str) -> Result<Command<'a>, AllocError>
    ensures { IfOk result (λ c. app_of c ≡ with_rule (app_of command.entry)
        (record (new_rule id.entry.now) { action = Some ArgAction.Set })) }
{
    command.arg(Arg::new(alloc, id).action(ArgAction::Set))
}

/// `fsck`.
pub fn fsck<'a>(alloc: Global) -> Result<Command<'a>, AllocError>
    ensures { IfOk result (λ c. app_of c ≡ app_of_grammar (codes "fsck") fsck_grammar) }
{
    let command = tool(alloc, "fsck");
    let command = by_name(alloc, command, "--super", "super", ArgAction::SetTrue)?;
    by_letter(alloc, command, "-t", 't', ArgAction::SetTrue)
}

/// `dump`.
pub fn dump<'a>(alloc: Global) -> Result<Command<'a>, AllocError>
    ensures { IfOk result (λ c. app_of c ≡ app_of_grammar (codes "dump") dump_grammar) }
{
    let command = tool(alloc, "dump");
    let command = by_name(alloc, command, "--cp", "cp", ArgAction::SetTrue)?;
    let command = by_letter(alloc, command, "-n", 'n', ArgAction::Set)?;
    let command = by_letter(alloc, command, "-s", 's', ArgAction::Set)?;
    let command = by_letter(alloc, command, "-a", 'a', ArgAction::Set)?;
    let command = by_letter(alloc, command, "-i", 'i', ArgAction::Set)?;
    let command = by_name(alloc, command, "--block", "block", ArgAction::Set)?;
    by_name(alloc, command, "--cat", "cat", ArgAction::Set)
}

/// `defrag`.
pub fn defrag<'a>(alloc: Global) -> Result<Command<'a>, AllocError>
    ensures { IfOk result (λ c. app_of c ≡ app_of_grammar (codes "defrag") defrag_grammar) }
{
    let command = tool(alloc, "defrag");
    let command = by_letter(alloc, command, "-s", 's', ArgAction::Set)?;
    let command = by_letter(alloc, command, "-l", 'l', ArgAction::Set)?;
    let command = by_letter(alloc, command, "-t", 't', ArgAction::Set)?;
    by_letter(alloc, command, "-i", 'i', ArgAction::SetTrue)
}

/// `mkfs`.
pub fn mkfs<'a>(alloc: Global) -> Result<Command<'a>, AllocError>
    ensures { IfOk result (λ c. app_of c ≡ app_of_grammar (codes "mkfs") mkfs_grammar) }
{
    let command = tool(alloc, "mkfs");
    let command = by_letter(alloc, command, "-l", 'l', ArgAction::Set)?;
    let command = by_letter(alloc, command, "-U", 'U', ArgAction::Set)?;
    let command = by_letter(alloc, command, "-T", 'T', ArgAction::Set)?;
    let command = by_letter(alloc, command, "-O", 'O', ArgAction::Set)?;
    let command = by_letter(alloc, command, "-f", 'f', ArgAction::SetTrue)?;
    by_place(alloc, command, "SECTORS")
}
