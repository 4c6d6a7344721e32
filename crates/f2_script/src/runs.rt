// Runs of command lines, and calls of libraries.
use crate::bench::{Bench, Kind, Next, Outcome};
use crate::calls::call;
use crate::lines::Line;
use crate::slip::{Slip, wrong};
use f2_case_disk::{CallError, CaseDisk};
use f2_disk::{Block, CalmDisk, Disk, MemoryDisk, MemorySink, StopDisk};
use f2_top::{Answer, run};
use std::alloc::Global;

// The words of a command line.
pub(crate) fn command_of(alloc: Global, line: &Line, place: usize) -> Result<Vec<String>, Slip> {
    let mut words = Vec::new(alloc);
    for word in line.words.iter().skip(place) {
        words.push(String::from_str(alloc, word.text.as_str())?)?;
    }
    Ok(words)
}

// Copies the blocks that one disk keeps to another one. Answers how many were written.
fn copy_out<D: Disk>(from: &CaseDisk, to: &mut D) -> Result<u64, Slip> {
    let mut count = 0u64;
    for at in from.held()? {
        if let Ok(size) = to.size()
            && at < size
            && to.write(at, &from.get(at)).is_ok()
        {
            count = count.saturating_add(1);
        }
    }
    Ok(count)
}

// Copies back those of its blocks that another disk keeps, or kept once the same was done on it.
fn copy_back<D: Disk>(from: &mut D, to: &mut CaseDisk, which: &[u64]) -> Result<(), Slip> {
    let mut b = Block::zeros();
    for at in which {
        if let Ok(size) = from.size()
            && *at < size
            && from.read(*at, &mut b).is_ok()
        {
            to.set(*at, &b)?;
        }
    }
    Ok(())
}

impl Bench {
    // The command line on any disk, with what is asked of this run.
    fn run_on<D: Disk>(
        &self,
        words: &[String],
        disk: &mut D,
        next: &Next,
    ) -> Result<(Answer, Vec<u8>), Slip> {
        let no_puts = Vec::from_slice(self.alloc, &next.no_puts)?;
        let mut out = MemorySink::new(self.alloc, no_puts);
        let answer = run(self.alloc, words, disk, &mut out, next.second, next.uuid);
        let text = Vec::from_slice(self.alloc, out.bytes())?;
        Ok((answer, text))
    }

    // The same on the disk of the case, which may stop.
    fn run_case(&mut self, words: &[String], next: &Next) -> Result<(Answer, Vec<u8>), Slip> {
        let none = CaseDisk::new(self.alloc, 0);
        let mut disk = std::mem::replace(&mut self.disk, none);
        disk.begin(&next.fails)?;
        match next.stop {
            None => {
                let came = self.run_on(words, &mut disk, next)?;
                self.disk = disk;
                Ok(came)
            }
            Some((call, torn)) => {
                let mut stopped = StopDisk::new(disk, call, torn);
                let came = self.run_on(words, &mut stopped, next)?;
                self.disk = stopped.into_inner();
                Ok(came)
            }
        }
    }

    // The same on a disk in memory, and on the disk of the case to learn what was written.
    fn run_memory(&mut self, words: &[String], next: &Next) -> Result<(Answer, Vec<u8>), Slip> {
        let mut memory = MemoryDisk::new(self.alloc, self.disk.blocks(), Vec::new(self.alloc));
        copy_out(&self.disk, &mut memory)?;
        let _ = self.run_case(words, &Next::new(self.alloc))?;
        let came = self.run_on(words, &mut memory, next)?;
        let held = self.disk.held()?;
        copy_back(&mut memory, &mut self.disk, &held)?;
        Ok(came)
    }

    fn run_calm(&mut self, words: &[String], next: &Next) -> Result<(Answer, Vec<u8>), Slip> {
        let mut calm = CalmDisk::new(self.alloc, self.disk.blocks())?;
        copy_out(&self.disk, &mut calm)?;
        let _ = self.run_case(words, &Next::new(self.alloc))?;
        let came = self.run_on(words, &mut calm, next)?;
        let held = self.disk.held()?;
        copy_back(&mut calm, &mut self.disk, &held)?;
        Ok(came)
    }

    // Runs a command line, and keeps what comes of it.
    pub(crate) fn run_words(&mut self, words: &[String]) -> Result<(), Slip> {
        let before = self.disk.copy()?;
        let next = std::mem::replace(&mut self.next, Next::new(self.alloc));
        if self.kind != Kind::Case && (!next.fails.is_empty() || next.stop.is_some()) {
            return Err(wrong(self.alloc, "`fail` and `stop` are for `disk` alone"));
        }
        let (answer, text) = match self.kind {
            Kind::Case => self.run_case(words, &next)?,
            Kind::Memory => self.run_memory(words, &next)?,
            Kind::Calm => self.run_calm(words, &next)?,
        };
        self.outcome = Some(Outcome {
            status: Some(answer.status()),
            is_call: false,
            text,
            calls: self.disk.calls(),
            writes: self.disk.writes(),
            syncs: self.disk.syncs(),
            before,
        });
        Ok(())
    }

    // Runs a command line that has to succeed: it lays out something.
    pub(crate) fn do_words(&mut self, line: &Line) -> Result<(), Slip> {
        let words = command_of(self.alloc, line, 1)?;
        self.run_words(&words)?;
        match &self.outcome {
            Some(
                Outcome {
                    status: Some(status),
                    ..
                },
            ) if *status <= 1 => {}
            _ => return Err(wrong(self.alloc, "the run that lays it out did not succeed")),
        }
        self.outcome = None;
        Ok(())
    }

    // Calls a library, and keeps what it says.
    pub(crate) fn call_words(&mut self, line: &Line) -> Result<(), Slip> {
        let words = self.numbers.words_from(line, 1)?;
        let before = self.disk.copy()?;
        let fails = Vec::from_slice(self.alloc, &self.next.fails)?;
        self.next = Next::new(self.alloc);
        self.disk.begin(&fails)?;
        let (status, text) = match call(self.alloc, &mut self.disk, &words) {
            Ok(text) => (None, text),
            Err(CallError::Words) => (Some(16), Vec::new(self.alloc)),
            Err(CallError::DiskFault) => (Some(8), Vec::new(self.alloc)),
            Err(CallError::Unknown) => return Err(wrong(self.alloc, "there is no such call")),
            Err(CallError::NoMemory) => return Err(Slip::NoMemory),
        };
        self.outcome = Some(Outcome {
            status,
            is_call: true,
            text,
            calls: self.disk.calls(),
            writes: self.disk.writes(),
            syncs: self.disk.syncs(),
            before,
        });
        Ok(())
    }

    // Calls a library that has to answer: it lays out something.
    pub(crate) fn make_words(&mut self, line: &Line) -> Result<(), Slip> {
        self.call_words(line)?;
        match &self.outcome {
            Some(Outcome { status: None, .. }) => {}
            _ => return Err(wrong(self.alloc, "the call that lays it out did not answer")),
        }
        self.outcome = None;
        Ok(())
    }
}
