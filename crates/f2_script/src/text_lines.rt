// Texts as lines, and whether they are what a case wants.
use crate::lines::Line;
use crate::slip::Slip;
use std::alloc::Global;

// What a line of a text is to be: this one, one that begins so, or any lines.
#[derive(Drop)]
enum Wanted {
    Whole(String),
    Beginning(String),
    Any,
}

// The lines of a text. Bytes that aren't printed are shown as `\xHH`, and an end without a line feed by a mark.
pub(crate) fn lines_of_text(alloc: Global, text: &[u8]) -> Result<Vec<String>, Slip> {
    let mut lines = Vec::new(alloc);
    let mut line = String::new(alloc);
    let mut begun = false;
    for byte in text {
        begun = true;
        match *byte {
            b'\n' => {
                lines.push(line)?;
                line = String::new(alloc);
                begun = false;
            }
            0x20..=0x7E => line.push(char::from(*byte))?,
            other => line.push_str(format!(in alloc; "\\x{other:02x}")?.as_str())?,
        }
    }
    if begun {
        line.push_str("(no line feed)")?;
        lines.push(line)?;
    }
    Ok(lines)
}

// What lines of a case want.
fn wanted_of(alloc: Global, lines: &[Line]) -> Result<Vec<Wanted>, Slip> {
    let mut all = Vec::new(alloc);
    for line in lines {
        let rest = line.rest();
        let wanted = if line.verb() == "|~" {
            Wanted::Beginning(String::from_str(alloc, rest)?)
        } else if rest == "..." {
            Wanted::Any
        } else {
            Wanted::Whole(String::from_str(alloc, rest)?)
        };
        all.push(wanted)?;
    }
    Ok(all)
}

// Whether a line is what is wanted of it.
fn meets(wanted: &Wanted, line: &str) -> bool {
    match wanted {
        Wanted::Whole(text) => text.as_str() == line,
        Wanted::Beginning(text) => line.starts_with(text.as_str()),
        Wanted::Any => true,
    }
}

// Which of the wanted lines may come next, once `reached` might have: any lines may also be none.
fn passed_over(alloc: Global, wanted: &[Wanted], reached: &[bool]) -> Result<Vec<bool>, Slip> {
    let mut next = Vec::new(alloc);
    let mut before = false;
    for (k, here) in reached.iter().enumerate() {
        let here = *here || before;
        next.push(here)?;
        before = here && matches!(wanted.get(k), Some(Wanted::Any));
    }
    Ok(next)
}

// Which may come next behind this line.
fn behind(
    alloc: Global,
    wanted: &[Wanted],
    reached: &[bool],
    line: &str,
) -> Result<Vec<bool>, Slip> {
    let mut next = Vec::new(alloc);
    let mut before = false;
    for (k, here) in reached.iter().enumerate() {
        let (met, any) = match wanted.get(k) {
            Some(w) => (*here && meets(w, line), *here && matches!(w, Wanted::Any)),
            None => (false, false),
        };
        next.push(before || any)?;
        before = met;
    }
    passed_over(alloc, wanted, &next)
}

// Whether a text is what lines of a case want of it.
pub(crate) fn is_wanted(alloc: Global, lines: &[Line], text: &[u8]) -> Result<bool, Slip> {
    let wanted = wanted_of(alloc, lines)?;
    let mut reached = Vec::new(alloc);
    reached.push(true)?;
    for _ in &wanted {
        reached.push(false)?;
    }
    let mut reached = passed_over(alloc, &wanted, &reached)?;
    for line in lines_of_text(alloc, text)? {
        reached = behind(alloc, &wanted, &reached, line.as_str())?;
    }
    Ok(reached.last().copied() == Some(true))
}

// The beginning of a text, to be shown where it isn't what was wanted.
pub(crate) fn shown(alloc: Global, text: &[u8]) -> Result<String, Slip> {
    let mut shown = String::new(alloc);
    for (k, line) in lines_of_text(alloc, text)?.iter().enumerate() {
        if k < 12 {
            shown.push_str("\n    | ")?;
            shown.push_str(line.as_str())?;
        }
    }
    Ok(shown)
}
