// The jobs that words name, as cases write them: what the words don't give isn't named.
use crate::slip::Slip;
use f2_mkfs::Label;
use f2_top::{Job, WordsRefusal};
use std::alloc::Global;

// Adds a name and a number, where there is one.
fn push_number(
    alloc: Global,
    text: &mut String,
    name: &str,
    number: Option<u64>,
) -> Result<(), Slip> {
    if let Some(number) = number {
        text.push_str(format!(in alloc; " {name} {number}")?.as_str())?;
    }
    Ok(())
}

// Adds the units of a label, with commas between, unless it is empty.
fn push_label(alloc: Global, text: &mut String, label: &Label) -> Result<(), Slip> {
    let mut before = " label ";
    for unit in label.units() {
        text.push_str(format!(in alloc; "{before}{unit}")?.as_str())?;
        before = ",";
    }
    Ok(())
}

// Adds the digits of a uuid, where there is one.
fn push_uuid(alloc: Global, text: &mut String, uuid: &Option<[u8; 16]>) -> Result<(), Slip> {
    if let Some(uuid) = uuid {
        text.push_str(" uuid ")?;
        for byte in uuid {
            text.push_str(format!(in alloc; "{byte:02x}")?.as_str())?;
        }
    }
    Ok(())
}

// Adds a word that says that something is so.
fn push_flag(text: &mut String, word: &str, is_so: bool) -> Result<(), Slip> {
    if is_so {
        text.push_str(word)?;
    }
    Ok(())
}

// The job, or why there is none: `Check`, `Nat(3, None)`, `Defrag start 4096 down`, `Mkfs label 120 force`, `Usage`.
pub(crate) fn job_text(alloc: Global, answer: &Result<Job, WordsRefusal>) -> Result<String, Slip> {
    let text = match answer {
        Ok(Job::Check) => String::from_str(alloc, "Check")?,
        Ok(Job::Tree) => String::from_str(alloc, "Tree")?,
        Ok(Job::Super) => String::from_str(alloc, "Super")?,
        Ok(Job::Dump(what)) => format!(in alloc; "{what:?}")?,
        Ok(
            Job::Defrag {
                start,
                blocks,
                target,
                down,
            },
        ) => {
            let mut text = String::from_str(alloc, "Defrag")?;
            push_number(alloc, &mut text, "start", *start)?;
            push_number(alloc, &mut text, "blocks", *blocks)?;
            push_number(alloc, &mut text, "target", *target)?;
            push_flag(&mut text, " down", *down)?;
            text
        }
        Ok(
            Job::Mkfs {
                sectors,
                label,
                uuid,
                second,
                features,
                force,
            },
        ) => {
            let mut text = String::from_str(alloc, "Mkfs")?;
            push_number(alloc, &mut text, "sectors", *sectors)?;
            push_label(alloc, &mut text, label)?;
            push_uuid(alloc, &mut text, uuid)?;
            push_number(alloc, &mut text, "second", *second)?;
            if *features != 0 {
                push_number(alloc, &mut text, "features", Some(u64::from(*features)))?;
            }
            push_flag(&mut text, " force", *force)?;
            text
        }
        Err(WordsRefusal::Usage) => String::from_str(alloc, "Usage")?,
        Err(WordsRefusal::NoMemory) => String::from_str(alloc, "NoMemory")?,
    };
    Ok(text)
}
