// The words of a command line, and the job that they name.
ghost use Rattle.std.specs.Prelude.{◌≡◌, ◌≢◌, map, drop, string_bytes, List, Some, true, false, if◌then◌else◌, option_and_then, option_map, unwrap_or, [], Ok};
ghost use Rattle.clap.specs.Simple.{app_of};
ghost use Rattle.clap.specs.Values.{kind_of};
ghost use Rattle.f2_top.specs.Parser.{app_of_grammar, is_flag_name, is_value_name, Holds, IsNamed, Names, Parses};
ghost use Rattle.f2_top.specs.Tools.{fsck_grammar, dump_grammar, mkfs_grammar, defrag_grammar, fsck_job, dump_job, mkfs_job, defrag_job, mkfs_by, defrag_by, choice as chosen, dump_choice, what_of, either as either_of, features_or_none, if_given, job_of, tool_job as tool_job_of, is_super};
ghost use Rattle.f2_top.specs.Numbers.{number_of, uuid_of};
ghost use Rattle.f2_top.specs.Words.{Text, Use, Grammar, is_used, uses_of, value_in};
ghost use Rattle.f2_mkfs.specs.Labels.{label_of};
ghost use Rattle.f2_top.specs.declared.jobs.Job.TheVariants.{Super};

use crate::commands;
use crate::features::features;
use crate::jobs::{Job, WordsRefusal};
use crate::numbers::{ino, number, range, uuid};
use clap::error::ErrorKind;
use clap::{ArgMatches, Command};
use f2_dump::What;
use f2_mkfs::Label;
use std::alloc::Global;

// A parse fails for want of memory, or since the words don't fit.
fn refusal(kind: ErrorKind) -> WordsRefusal
    ensures usage { result ≡ WordsRefusal.Usage → kind ≢ ErrorKind.OutOfMemory }
{
    match kind {
        ErrorKind::OutOfMemory => WordsRefusal::NoMemory,
        _ => WordsRefusal::Usage,
    }
}

// What clap makes of words, of which the first is the tool.
fn parse<'a>(command: Command<'a>, words: &'a [String]) -> Result<ArgMatches<'a>, WordsRefusal>
    ensures { (title : Text) → (g : Grammar) → IsNamed g → app_of command.entry ≡ app_of_grammar title g
        → Parses g (map string_bytes words.entry.now) result }
{
    match command.try_get_matches_from(words) {
        Ok(matches) => Ok(matches),
        Err(error) => Err(refusal(error.kind())),
    }
}

// Whether a flag stands in the words.
fn flag(matches: &ArgMatches<'_>, name: &str) -> bool
    ensures { (g : Grammar) → (uses : List Use) → Holds g uses matches.now → is_flag_name g name.now ≡ true
        → result ≡ is_used name.now uses }
{
    matches.get_flag(name)
}

// The value of an option, where it stands in the words.
fn value<'a>(matches: &ArgMatches<'a>, name: &str) -> Option<&'a str>
    ensures { (g : Grammar) → (uses : List Use) → Holds g uses matches.now → is_value_name g name.now ≡ true
        → option_map (λ s. s.now) result ≡ value_in name.now uses }
{
    matches.get_str(name)
}

// What an option dumps, if its value is of its kind.
fn what(name: &str, value: &str) -> Option<What>
    ensures { result ≡ what_of name.now value.now }
{
    if name == "-n" {
        let (first, last) = range(value)?;
        Some(What::Nat(first, last))
    } else if name == "-s" {
        let (first, last) = range(value)?;
        Some(What::Sit(first, last))
    } else if name == "-a" {
        let (first, last) = range(value)?;
        Some(What::Ssa(first, last))
    } else if name == "-i" {
        Some(What::Inode(ino(value)?))
    } else if name == "--block" {
        Some(What::Raw(number(value)?))
    } else if name == "--cat" {
        Some(What::Cat(ino(value)?))
    } else {
        None
    }
}

// An option that is given, and what it dumps.
fn choice(matches: &ArgMatches<'_>, name: &str) -> Option<Option<What>>
    ensures { (uses : List Use) → Holds dump_grammar uses matches.now → is_value_name dump_grammar name.now ≡ true
        → result ≡ chosen name.now uses }
{
    match value(matches, name) {
        Some(text) => Some(what(name, text)),
        None => None,
    }
}

// What is given of two choices: both together are none.
fn either(a: Option<Option<What>>, b: Option<Option<What>>) -> Option<Option<What>>
    ensures { result ≡ either_of a b }
{
    match (a, b) {
        (None, b) => b,
        (a, None) => a,
        (Some(_), Some(_)) => Some(None),
    }
}

// What the options of `dump` choose.
fn dump_chosen(matches: &ArgMatches<'_>) -> Option<Option<What>>
    ensures { (uses : List Use) → Holds dump_grammar uses matches.now → result ≡ dump_choice uses }
{
    let numbers = either(choice(matches, "--block"), choice(matches, "--cat"));
    let inodes = either(choice(matches, "-i"), numbers);
    let summaries = either(choice(matches, "-a"), inodes);
    let segments = either(choice(matches, "-s"), summaries);
    let nodes = either(choice(matches, "-n"), segments);
    if flag(matches, "--cp") {
        either(Some(Some(What::Cp)), nodes)
    } else {
        nodes
    }
}

// What the options of `dump` ask for.
fn dump_options(matches: &ArgMatches<'_>) -> Option<Job>
    ensures { (uses : List Use) → Holds dump_grammar uses matches.now → result ≡ dump_job uses }
{
    match dump_chosen(matches) {
        Some(Some(what)) => Some(Job::Dump(what)),
        _ => None,
    }
}

// What the options of `fsck` ask for.
fn fsck_options(matches: &ArgMatches<'_>) -> Option<Job>
    ensures { (uses : List Use) → Holds fsck_grammar uses matches.now → result ≡ fsck_job uses }
{
    let tree = flag(matches, "-t");
    if flag(matches, "--super") {
        if tree { None } else { Some(Job::Super) }
    } else if tree {
        Some(Job::Tree)
    } else {
        Some(Job::Check)
    }
}

// The number that a text writes, where there is a text.
fn number_if(text: Option<&str>) -> Option<Option<u64>>
    ensures { result ≡ if_given number_of (option_map (λ s. s.now) text.entry) }
{
    match text {
        Some(text) => Some(Some(number(text)?)),
        None => Some(None),
    }
}

// The uuid that a text writes, where there is a text.
fn uuid_if(text: Option<&str>) -> Option<Option<[u8; 16]>>
    ensures { result ≡ if_given uuid_of (option_map (λ s. s.now) text.entry) }
{
    match text {
        Some(text) => Some(Some(uuid(text)?)),
        None => Some(None),
    }
}

// The features of a list, and none where there is no list.
fn features_if(list: Option<&str>) -> Option<u32>
    ensures { result ≡ features_or_none (option_map (λ s. s.now) list.entry) }
{
    match list {
        Some(list) => features(list),
        None => Some(0),
    }
}

// The label that a text writes, and the empty one where there is no text.
fn label_if(text: Option<&str>) -> Option<Label>
    ensures { result ≡ label_of (unwrap_or (option_map (λ s. s.now) text.entry) []) }
{
    match text {
        Some(text) => Label::new(text),
        None => Label::new(""),
    }
}

// The image that these texts ask for, if each is of its kind.
fn image(
    sectors: Option<&str>,
    label: Option<&str>,
    uuid: Option<&str>,
    second: Option<&str>,
    list: Option<&str>,
    force: bool,
) -> Option<Job>
    ensures { result ≡ mkfs_by (option_map (λ s. s.now) sectors.entry) (option_map (λ s. s.now) label.entry)
        (option_map (λ s. s.now) uuid.entry)
        (option_map (λ s. s.now) second.entry) (option_map (λ s. s.now) list.entry) force }
{
    let sectors = number_if(sectors)?;
    let label = label_if(label)?;
    let uuid = uuid_if(uuid)?;
    let second = number_if(second)?;
    let features = features_if(list)?;
    Some(Job::Mkfs {
        sectors,
        label,
        uuid,
        second,
        features,
        force,
    })
}

// What the options of `mkfs` ask for.
fn mkfs_options(matches: &ArgMatches<'_>) -> Option<Job>
    ensures { (uses : List Use) → Holds mkfs_grammar uses matches.now → result ≡ mkfs_job uses }
{
    let sectors = value(matches, "SECTORS");
    let label = value(matches, "-l");
    let uuid = value(matches, "-U");
    let second = value(matches, "-T");
    let list = value(matches, "-O");
    image(sectors, label, uuid, second, list, flag(matches, "-f"))
}

// The range that these texts ask for, if each is a number.
fn range_asked(
    start: Option<&str>,
    blocks: Option<&str>,
    target: Option<&str>,
    down: bool,
) -> Option<Job>
    ensures { result ≡ defrag_by (option_map (λ s. s.now) start.entry) (option_map (λ s. s.now) blocks.entry)
        (option_map (λ s. s.now) target.entry) down }
{
    let start = number_if(start)?;
    let blocks = number_if(blocks)?;
    let target = number_if(target)?;
    Some(Job::Defrag {
        start,
        blocks,
        target,
        down,
    })
}

// What the options of `defrag` ask for.
fn defrag_options(matches: &ArgMatches<'_>) -> Option<Job>
    ensures { (uses : List Use) → Holds defrag_grammar uses matches.now → result ≡ defrag_job uses }
{
    let start = value(matches, "-s");
    let blocks = value(matches, "-l");
    let target = value(matches, "-t");
    range_asked(start, blocks, target, flag(matches, "-i"))
}

// What clap makes of the words of `defrag`.
fn defrag_matches<'a>(alloc: Global, words: &'a [String]) -> Result<ArgMatches<'a>, WordsRefusal>
    ensures { Parses defrag_grammar (map string_bytes words.entry.now) result }
{
    match commands::defrag(alloc) {
        Ok(command) => parse(command, words),
        Err(_) => Err(WordsRefusal::NoMemory),
    }
}

// The job of the words of `defrag`.
fn defrag(alloc: Global, words: &[String]) -> Result<Job, WordsRefusal>
    ensures { Names (option_and_then defrag_job (uses_of defrag_grammar (drop 1 (map string_bytes words.now)))) result }
{
    match defrag_matches(alloc, words) {
        Ok(matches) => match defrag_options(&matches) {
            Some(job) => Ok(job),
            None => Err(WordsRefusal::Usage),
        },
        Err(refusal) => Err(refusal),
    }
}

// What clap makes of the words of `fsck`.
fn fsck_matches<'a>(alloc: Global, words: &'a [String]) -> Result<ArgMatches<'a>, WordsRefusal>
    ensures { Parses fsck_grammar (map string_bytes words.entry.now) result }
{
    match commands::fsck(alloc) {
        Ok(command) => parse(command, words),
        Err(_) => Err(WordsRefusal::NoMemory),
    }
}

// The job of the words of `fsck`.
fn fsck(alloc: Global, words: &[String]) -> Result<Job, WordsRefusal>
    ensures { Names (option_and_then fsck_job (uses_of fsck_grammar (drop 1 (map string_bytes words.now)))) result }
{
    match fsck_matches(alloc, words) {
        Ok(matches) => match fsck_options(&matches) {
            Some(job) => Ok(job),
            None => Err(WordsRefusal::Usage),
        },
        Err(refusal) => Err(refusal),
    }
}

// What clap makes of the words of `dump`.
fn dump_matches<'a>(alloc: Global, words: &'a [String]) -> Result<ArgMatches<'a>, WordsRefusal>
    ensures { Parses dump_grammar (map string_bytes words.entry.now) result }
{
    match commands::dump(alloc) {
        Ok(command) => parse(command, words),
        Err(_) => Err(WordsRefusal::NoMemory),
    }
}

// The job of the words of `dump`.
fn dump(alloc: Global, words: &[String]) -> Result<Job, WordsRefusal>
    ensures { Names (option_and_then dump_job (uses_of dump_grammar (drop 1 (map string_bytes words.now)))) result }
{
    match dump_matches(alloc, words) {
        Ok(matches) => match dump_options(&matches) {
            Some(job) => Ok(job),
            None => Err(WordsRefusal::Usage),
        },
        Err(refusal) => Err(refusal),
    }
}

// What clap makes of the words of `mkfs`.
fn mkfs_matches<'a>(alloc: Global, words: &'a [String]) -> Result<ArgMatches<'a>, WordsRefusal>
    ensures { Parses mkfs_grammar (map string_bytes words.entry.now) result }
{
    match commands::mkfs(alloc) {
        Ok(command) => parse(command, words),
        Err(_) => Err(WordsRefusal::NoMemory),
    }
}

// The job of the words of `mkfs`.
fn mkfs(alloc: Global, words: &[String]) -> Result<Job, WordsRefusal>
    ensures { Names (option_and_then mkfs_job (uses_of mkfs_grammar (drop 1 (map string_bytes words.now)))) result }
{
    match mkfs_matches(alloc, words) {
        Ok(matches) => match mkfs_options(&matches) {
            Some(job) => Ok(job),
            None => Err(WordsRefusal::Usage),
        },
        Err(refusal) => Err(refusal),
    }
}

// The words are `fsck --super`.
fn are_super(words: &[String]) -> bool
    ensures { result ≡ is_super (map string_bytes words.now) }
{
    match words {
        [tool, option] => tool.as_str() == "fsck" && option.as_str() == "--super",
        _ => false,
    }
}

// The job of the words of this tool.
fn tool_job(alloc: Global, tool: &str, words: &[String]) -> Result<Job, WordsRefusal>
    ensures { Names (tool_job_of tool.now (drop 1 (map string_bytes words.now))) result }
{
    if tool == "fsck" {
        fsck(alloc, words)
    } else if tool == "dump" {
        dump(alloc, words)
    } else if tool == "mkfs" {
        mkfs(alloc, words)
    } else if tool == "defrag" {
        defrag(alloc, words)
    } else {
        Err(WordsRefusal::Usage)
    }
}

/// The job that the words name: those of the command line after the image, of which the first names the tool. It does
/// nothing yet. `Usage` where they name none; `NoMemory` where there is too little to read them.
pub fn job(alloc: Global, words: &[String]) -> Result<Job, WordsRefusal>
    // Exactly that job, and Usage only where they name none.
    ensures names { Names (job_of (map string_bytes words.now)) result }
    // `fsck --super` takes no memory.
    ensures memory { is_super (map string_bytes words.now) ≡ true → result ≡ Ok Super }
{
    if are_super(words) {
        return Ok(Job::Super);
    }
    match words.first() {
        Some(tool) => tool_job(alloc, tool, words),
        None => Err(WordsRefusal::Usage),
    }
}
