// What is to come of a run or a call.
use crate::bench::{Bench, Outcome};
use crate::lines::Line;
use crate::slip::{Slip, wrong};
use crate::text_lines::{is_wanted, shown};
use f2_case_disk::CaseDisk;
use f2_top::job;
use std::alloc::Global;

// What is wrong, where an expectation isn't met.
type Unmet = Option<String>;

// A count that is not the wanted one.
fn unmet_count(alloc: Global, what: &str, wanted: u64, came: u64) -> Result<Unmet, Slip> {
    if wanted == came {
        return Ok(None);
    }
    Ok(Some(format!(in alloc; "wanted {what} {wanted}, came {came}")?))
}

// Numbers as words.
fn told(alloc: Global, numbers: &[u64]) -> Result<String, Slip> {
    let mut text = String::new(alloc);
    for number in numbers {
        text.push_str(format!(in alloc; " {number}")?.as_str())?;
    }
    Ok(text)
}

// The status of an outcome, as lines want it: `fails` of a call that doesn't answer.
fn is_status(outcome: &Outcome, word: &str) -> bool {
    match outcome.status {
        Some(16) if outcome.is_call => word == "fails",
        Some(8) if outcome.is_call => word == "fault",
        Some(status) => word.parse() == Ok(status),
        None => false,
    }
}

impl Bench {
    fn outcome(&self) -> Result<&Outcome, Slip> {
        match &self.outcome {
            Some(outcome) => Ok(outcome),
            None => Err(wrong(self.alloc, "there was no run before")),
        }
    }

    // `= STATUS or STATUS ..`
    fn unmet_status(&mut self, line: &Line) -> Result<Unmet, Slip> {
        self.looked = true;
        let outcome = self.outcome()?;
        for word in line.words.iter().skip(1) {
            if is_status(outcome, word.text.as_str()) {
                return Ok(None);
            }
        }
        let came = outcome.status;
        let text = shown(self.alloc, &outcome.text)?;
        let wanted = line.rest();
        Ok(Some(format!(in self.alloc; "wanted status {wanted}, came {came:?}{text}")?))
    }

    // Lines of the text.
    pub(crate) fn unmet_text(&self, lines: &[Line]) -> Result<Unmet, Slip> {
        let outcome = self.outcome()?;
        if is_wanted(self.alloc, lines, &outcome.text)? {
            return Ok(None);
        }
        let text = shown(self.alloc, &outcome.text)?;
        Ok(Some(format!(in self.alloc; "wanted another text than{text}")?))
    }

    fn unmet_bytes(&self, line: &Line, wanted: &[u8]) -> Result<Unmet, Slip> {
        let at = self.block_at(line, 1)?;
        let offset = self.numbers.at(line, 2)?;
        if offset > 4096 || wanted.len() as u64 > 4096 - offset {
            return Err(wrong(self.alloc, "the bytes pass the end of the block"));
        }
        let b = self.disk.get(at);
        let (_, rest) = b.bytes().split_at(offset as usize);
        let (came, _) = rest.split_at(wanted.len());
        if came == wanted {
            return Ok(None);
        }
        Ok(Some(format!(in self.alloc; "wanted bytes {wanted:?}, came {came:?}")?))
    }

    fn unmet_difference(&self, other: &CaseDisk, wanted: &[u64]) -> Result<Unmet, Slip> {
        let differ = self.disk.differences(other)?;
        if differ.as_slice() == wanted {
            return Ok(None);
        }
        let wanted = told(self.alloc, wanted)?;
        let came = told(self.alloc, &differ)?;
        Ok(Some(format!(in self.alloc; "wanted to differ the blocks{wanted}, came{came}")?))
    }

    fn unmet_image(&self, line: &Line) -> Result<Unmet, Slip> {
        match self.images.get(line.word(1)) {
            Some(image) => self.unmet_difference(image, &[]),
            None => Err(wrong(self.alloc, "there is no such image")),
        }
    }

    // `words WORD .. -> JOB`
    fn unmet_job(&self, line: &Line) -> Result<Unmet, Slip> {
        let Some((_, wanted)) = line.text.as_str().rsplit_once("-> ") else {
            return Err(wrong(self.alloc, "words WORD .. -> JOB"));
        };
        let mut words = Vec::new(self.alloc);
        for word in line.words.iter().skip(1) {
            if word.text.as_str() == "->" && !word.quoted {
                break;
            }
            words.push(String::from_str(self.alloc, word.text.as_str())?)?;
        }
        let came = crate::job_text::job_text(self.alloc, &job(self.alloc, &words))?;
        if came.as_str() == wanted {
            return Ok(None);
        }
        Ok(Some(format!(in self.alloc; "wanted the job {wanted}, came {came}")?))
    }

    fn unmet_alike(&self, line: &Line) -> Result<Unmet, Slip> {
        let first = self.block_at(line, 1)?;
        let second = self.block_at(line, 2)?;
        if self.disk.get(first).bytes() == self.disk.get(second).bytes() {
            return Ok(None);
        }
        Ok(Some(String::from_str(self.alloc, "wanted alike blocks")?))
    }

    // Counts of the last run.
    fn unmet_number(&self, line: &Line) -> Result<Unmet, Slip> {
        let outcome = self.outcome()?;
        let came = match line.verb() {
            "calls" => outcome.calls,
            "writes" => outcome.writes,
            "syncs" => outcome.syncs,
            "length" => outcome.text.len() as u64,
            _ => outcome.text.iter().filter(|b| **b == b'\n').count() as u64,
        };
        unmet_count(self.alloc, line.verb(), self.numbers.at(line, 1)?, came)
    }

    // What is wrong where the line is an expectation that isn't met; none where it is met, and none of none where it is no
    // expectation.
    pub(crate) fn unmet(&mut self, line: &Line) -> Result<Option<Unmet>, Slip> {
        let unmet = match line.verb() {
            "=" => self.unmet_status(line)?,
            "calls" | "writes" | "syncs" | "length" | "lines" => self.unmet_number(line)?,
            "is" => self.unmet_bytes(line, &self.bytes_of(line, 3, 1)?)?,
            "is2" => self.unmet_bytes(line, &self.bytes_of(line, 3, 2)?)?,
            "is4" => self.unmet_bytes(line, &self.bytes_of(line, 3, 4)?)?,
            "is8" => self.unmet_bytes(line, &self.bytes_of(line, 3, 8)?)?,
            "istext" => self.unmet_bytes(line, line.word(3).as_bytes())?,
            "unchanged" => self.unmet_difference(&self.outcome()?.before, &[])?,
            "changed" => self.unmet_difference(
                &self.outcome()?.before,
                &self.numbers.from(line, 1)?,
            )?,
            "same" => self.unmet_image(line)?,
            "alike" => self.unmet_alike(line)?,
            "words" => self.unmet_job(line)?,
            _ => return Ok(None),
        };
        Ok(Some(unmet))
    }

    // Ends the statement where an expectation isn't met, or is although it is said to be wrong.
    pub(crate) fn judge(&mut self, unmet: Unmet) -> Result<(), Slip> {
        let reversed = std::mem::replace(&mut self.wrong, false);
        match unmet {
            Some(text) if !reversed => Err(Slip::Wrong(text)),
            None if reversed => Err(wrong(self.alloc, "what is said to be wrong is met")),
            _ => Ok(()),
        }
    }
}
