// A run done once for each of its calls that may fail, each moment at which it may stop, or each put.
use crate::bench::{Bench, Next};
use crate::lines::Line;
use crate::runs::command_of;
use crate::slip::{Slip, wrong};
use f2_case_disk::{CallKind, CaseDisk};
use f2_disk::Torn;
use std::alloc::Global;

// Whether a call that fails is tried: each write and sync, the first 100 calls, and every 50th of the others.
fn is_tried(number: u64, kind: CallKind) -> bool {
    matches!(kind, CallKind::Write | CallKind::Sync) || number <= 100 || number % 50 == 0
}

// The numbers of the calls that are tried.
fn tried(alloc: Global, kinds: &[CallKind]) -> Result<Vec<u64>, Slip> {
    let mut numbers = Vec::new(alloc);
    for (k, kind) in kinds.iter().enumerate() {
        let number = (k as u64).saturating_add(1);
        if is_tried(number, *kind) {
            numbers.push(number)?;
        }
    }
    Ok(numbers)
}

// The numbers of the writes and syncs, and of the last call before the first of them.
fn stops(alloc: Global, kinds: &[CallKind]) -> Result<Vec<u64>, Slip> {
    let mut numbers = Vec::new(alloc);
    for (k, kind) in kinds.iter().enumerate() {
        if matches!(*kind, CallKind::Write | CallKind::Sync) {
            if numbers.is_empty() && k > 0 {
                numbers.push(k as u64)?;
            }
            numbers.push((k as u64).saturating_add(1))?;
        }
    }
    Ok(numbers)
}

impl Bench {
    // The kinds of the calls that a run makes on the disk; it is left as it was.
    fn kinds_of(
        &mut self,
        words: &[String],
        start: &CaseDisk,
        given: &Next,
    ) -> Result<Vec<CallKind>, Slip> {
        self.next = self.asked(given)?;
        self.run_words(words)?;
        let kinds = Vec::from_slice(self.alloc, self.disk.kinds())?;
        self.disk = start.copy()?;
        Ok(kinds)
    }

    // What is asked of each of the runs.
    fn asked(&self, given: &Next) -> Result<Next, Slip> {
        let mut next = Next::new(self.alloc);
        next.second = given.second;
        let uuid = given.uuid;
        next.uuid = uuid;
        next.fails = Vec::from_slice(self.alloc, &given.fails)?;
        Ok(next)
    }

    // Does all lines from the run on, once, and says in a message which one it was.
    fn once(
        &mut self,
        lines: &[Line],
        start: &CaseDisk,
        next: Next,
        which: &str,
    ) -> Result<(), Slip> {
        self.disk = start.copy()?;
        self.next = next;
        match self.perform_plain(lines) {
            Err(Slip::Wrong(text)) => Err(Slip::Wrong(format!(in self.alloc; "{which}: {text}")?)),
            other => other,
        }
    }

    // Answers whether there was a call to try.
    fn each_fault(&mut self, lines: &[Line], words: &[String], given: &Next) -> Result<bool, Slip> {
        let start = self.disk.copy()?;
        let kinds = self.kinds_of(words, &start, given)?;
        let mut any = false;
        for call in tried(self.alloc, &kinds)? {
            any = true;
            let mut next = self.asked(given)?;
            next.fails = Vec::new(self.alloc);
            next.fails.push(call)?;
            let which = format!(in self.alloc; "where call {call} fails")?;
            self.once(lines, &start, next, which.as_str())?;
        }
        Ok(any)
    }

    // Answers whether there was a moment to stop at.
    fn each_stop(&mut self, lines: &[Line], words: &[String], given: &Next) -> Result<bool, Slip> {
        let start = self.disk.copy()?;
        let kinds = self.kinds_of(words, &start, given)?;
        let mut any = false;
        for call in stops(self.alloc, &kinds)? {
            any = true;
            for torn in [Torn::Old, Torn::New, Torn::Half] {
                let mut next = self.asked(given)?;
                next.stop = Some((call, torn));
                let which = format!(in self.alloc; "stopped at call {call}, {torn:?}")?;
                self.once(lines, &start, next, which.as_str())?;
            }
        }
        Ok(any)
    }

    // Whether a run in which this put fails has another answer than one in which none does.
    fn puts(
        &mut self,
        words: &[String],
        start: &CaseDisk,
        given: &Next,
        put: u64,
    ) -> Result<bool, Slip> {
        self.next = self.asked(given)?;
        self.next.no_puts.push(put)?;
        self.run_words(words)?;
        self.disk = start.copy()?;
        Ok(matches!(&self.outcome, Some(outcome) if outcome.status == Some(9)))
    }

    // Answers whether there was a put to try.
    fn each_put(&mut self, lines: &[Line], words: &[String], given: &Next) -> Result<bool, Slip> {
        let start = self.disk.copy()?;
        let mut any = false;
        for put in 1..1000u64 {
            if !self.puts(words, &start, given, put)? {
                break;
            }
            any = true;
            let mut next = self.asked(given)?;
            next.no_puts.push(put)?;
            let which = format!(in self.alloc; "where put {put} fails")?;
            self.once(lines, &start, next, which.as_str())?;
        }
        Ok(any)
    }

    // Does the lines, of which the first is a run, as often as the word says.
    pub(crate) fn each(&mut self, which: &str, lines: &[Line]) -> Result<(), Slip> {
        let words = match lines.first() {
            Some(line) if line.verb() == "run" => command_of(self.alloc, line, 1)?,
            _ => return Err(wrong(self.alloc, "a run has to stand behind it")),
        };
        let given = std::mem::replace(&mut self.next, Next::new(self.alloc));
        let any = match which {
            "fault" => self.each_fault(lines, &words, &given)?,
            "stop" => self.each_stop(lines, &words, &given)?,
            "put" => self.each_put(lines, &words, &given)?,
            _ => return Err(wrong(self.alloc, "each fault, each stop or each put")),
        };
        if any {
            Ok(())
        } else {
            Err(wrong(self.alloc, "there is none to try"))
        }
    }
}
