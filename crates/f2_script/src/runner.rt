// Files of cases, and what came of them.
use crate::bench::{Bench, Outcome};
use crate::counts::need_words;
use crate::lines::{Line, line_of};
use crate::slip::{Slip, wrong};
use f2_case_disk::hexadecimal_of;
use f2_disk::Torn;
use std::alloc::Global;

// What the lines that are gathered belong to.
#[derive(Clone, Copy, PartialEq, Eq)]
enum Part {
    None,
    Image,
    Case,
}

/// Runs files of cases one after the other: images and numbers of an earlier file are known in later ones.
#[derive(Drop)]
pub struct Runner {
    bench: Bench,
    file: String,
    part: Part,
    title: Option<Line>,
    body: Vec<Line>,
    passed: u64,
    failures: Vec<String>,
}

impl Bench {
    // `given SECOND UUID`
    fn give(&mut self, line: &Line) -> Result<(), Slip> {
        self.next.second = self.numbers.at(line, 1)?;
        let digits = line.word(2).as_bytes();
        if digits.len() != 32 {
            return Err(wrong(self.alloc, "a uuid has 32 hexadecimal digits"));
        }
        for (k, pair) in digits.chunks(2).enumerate() {
            match pair {
                [high, low] if k < 16 => match (hexadecimal_of(*high), hexadecimal_of(*low)) {
                    (Some(high), Some(low)) if high < 16 && low < 16 => {
                        self.next.uuid[k] = 16 * high + low;
                    }
                    _ => return Err(wrong(self.alloc, "a uuid has 32 hexadecimal digits")),
                },
                _ => return Err(wrong(self.alloc, "a uuid has 32 hexadecimal digits")),
            }
        }
        Ok(())
    }

    // `stop CALL old|new|half`
    fn stop_at(&mut self, line: &Line) -> Result<(), Slip> {
        let torn = match line.word(2) {
            "old" => Torn::Old,
            "new" => Torn::New,
            "half" => Torn::Half,
            _ => return Err(wrong(self.alloc, "stop CALL old, new or half")),
        };
        self.next.stop = Some((self.numbers.at(line, 1)?, torn));
        Ok(())
    }

    // A run is not passed over without a look at its status, nor is `wrong` without an expectation.
    fn need_look(&mut self) -> Result<(), Slip> {
        if !self.looked {
            return Err(wrong(self.alloc, "the status of the run before isn't looked at"));
        }
        if self.wrong {
            return Err(wrong(self.alloc, "no expectation stands behind `wrong`"));
        }
        Ok(())
    }

    // `let NAME NUMBER`
    fn define(&mut self, line: &Line) -> Result<(), Slip> {
        let number = self.numbers.at(line, 2)?;
        self.numbers.name(line.word(1), number)
    }

    fn begin_run(&mut self, line: &Line, place: usize) -> Result<(), Slip> {
        self.need_look()?;
        let words = crate::runs::command_of(self.alloc, line, place)?;
        self.run_words(&words)?;
        self.looked = false;
        Ok(())
    }

    // Does what a line says, other than a text or `each`.
    fn perform_line(&mut self, line: &Line) -> Result<(), Slip> {
        need_words(self.alloc, line)?;
        match line.verb() {
            "on" => self.take_image(line.word(1)),
            "given" => self.give(line),
            "fail" => {
                self.next.fails = self.numbers.from(line, 1)?;
                Ok(())
            }
            "noput" => {
                self.next.no_puts = self.numbers.from(line, 1)?;
                Ok(())
            }
            "stop" => self.stop_at(line),
            "do" => self.do_words(line),
            "make" => self.make_words(line),
            "run" => self.begin_run(line, 1),
            "then" if line.word(1) == "run" => self.begin_run(line, 2),
            "call" => {
                self.need_look()?;
                self.call_words(line)?;
                self.looked = matches!(&self.outcome, Some(Outcome { status: None, .. }));
                Ok(())
            }
            "let" => self.define(line),
            "wrong" => {
                self.wrong = true;
                Ok(())
            }
            _ => self.look_or_lay(line),
        }
    }

    fn look_or_lay(&mut self, line: &Line) -> Result<(), Slip> {
        if let Some(unmet) = self.unmet(line)? {
            return self.judge(unmet);
        }
        if self.lay(line)? {
            return Ok(());
        }
        Err(wrong(self.alloc, "there is no such statement"))
    }

    // Does what the lines say, one after the other, of which none is `each`.
    pub(crate) fn perform_plain(&mut self, lines: &[Line]) -> Result<(), Slip> {
        let mut done = 0;
        for (k, line) in lines.iter().enumerate() {
            if k < done {
                continue;
            }
            self.line = line.number;
            let (_, rest) = lines.split_at(k);
            let count = match line.verb() {
                "|" | "|~" => self.perform_text(rest)?,
                _ => {
                    self.perform_line(line)?;
                    1
                }
            };
            done = k.saturating_add(count);
        }
        self.need_look()
    }

    // Does what the lines say, one after the other.
    pub(crate) fn perform(&mut self, lines: &[Line]) -> Result<(), Slip> {
        let mut done = 0;
        for (k, line) in lines.iter().enumerate() {
            if k < done {
                continue;
            }
            self.line = line.number;
            let (_, rest) = lines.split_at(k);
            let count = match line.verb() {
                "each" => self.perform_each(line, rest)?,
                _ => self.perform_part(rest)?,
            };
            done = k.saturating_add(count);
        }
        Ok(())
    }

    // Does the lines up to the next `each`. Answers how many.
    fn perform_part(&mut self, lines: &[Line]) -> Result<usize, Slip> {
        let is_each = |line: &Line| line.verb() == "each";
        let count = lines.iter().position(is_each).unwrap_or(lines.len());
        let (part, _) = lines.split_at(count.min(lines.len()));
        self.perform_plain(part)?;
        Ok(count.max(1))
    }

    // Compares the text with the first lines, as many as are text. Answers how many.
    fn perform_text(&mut self, lines: &[Line]) -> Result<usize, Slip> {
        let is_other = |line: &Line| line.verb() != "|" && line.verb() != "|~";
        let count = lines.iter().position(is_other).unwrap_or(lines.len());
        let (text, _) = lines.split_at(count.min(lines.len()));
        let unmet = self.unmet_text(text)?;
        self.judge(unmet)?;
        Ok(count.max(1))
    }

    // Does the lines behind `each`, up to the next run that isn't a `then run`. Answers how many, and itself.
    fn perform_each(&mut self, line: &Line, lines: &[Line]) -> Result<usize, Slip> {
        need_words(self.alloc, line)?;
        let is_next = |line: &Line| matches!(line.verb(), "run" | "each" | "call");
        let (_, behind) = lines.split_at(2.min(lines.len()));
        let count = behind.iter().position(is_next).unwrap_or(behind.len());
        let end = count.saturating_add(2).min(lines.len());
        let (part, _) = lines.split_at(end);
        let (_, part) = part.split_at(1.min(end));
        self.each(line.word(1), part)?;
        Ok(end.max(1))
    }
}

impl Runner {
    pub fn new(alloc: Global) -> Runner {
        Runner {
            bench: Bench::new(alloc),
            file: String::new(alloc),
            part: Part::None,
            title: None,
            body: Vec::new(alloc),
            passed: 0,
            failures: Vec::new(alloc),
        }
    }

    /// How many cases passed.
    pub fn passed(&self) -> u64 {
        self.passed
    }

    /// What was wrong in each case that failed: file and line, the case, what was wanted and what came.
    pub fn failures(&self) -> &[String] {
        &self.failures
    }

    // Notes what was wrong at the line that is worked on.
    fn fail(&mut self, alloc: Global, why: &Slip) -> Result<(), Slip> {
        let text = match why {
            Slip::Wrong(text) => text.as_str(),
            Slip::NoMemory => "memory ran out",
        };
        let title = match &self.title {
            Some(title) => title.rest(),
            None => "",
        };
        let (file, line) = (&self.file, self.bench.line);
        self.failures
            .push(format!(in alloc; "{file}:{line}: {title}: {text}")?)?;
        Ok(())
    }

    // Names the numbers of those lines that a failed line left undone: later cases need them.
    fn define_behind(&mut self, body: &[Line]) {
        for line in body {
            if line.verb() == "let" && line.number > self.bench.line {
                let _ = self.bench.define(line);
            }
        }
    }

    // Does the gathered lines of an image or a case.
    fn finish(&mut self, alloc: Global) -> Result<(), Slip> {
        let body = std::mem::replace(&mut self.body, Vec::new(alloc));
        self.bench.begin();
        if let Some(title) = &self.title {
            self.bench.line = title.number;
        }
        let came = match (self.part, &self.title) {
            (Part::Image, Some(title)) => lay_image(&mut self.bench, title, &body),
            (Part::Case, Some(_)) if body.is_empty() => Err(wrong(alloc, "an empty case")),
            (Part::Case, Some(_)) => self.bench.perform(&body),
            _ => Ok(()),
        };
        match came {
            Ok(()) if self.part == Part::Case => self.passed = self.passed.saturating_add(1),
            Ok(()) => {}
            Err(why) => {
                self.fail(alloc, &why)?;
                self.define_behind(&body);
            }
        }
        self.part = Part::None;
        self.title = None;
        Ok(())
    }

    // Takes a line of a file.
    fn take(&mut self, alloc: Global, line: Line) -> Result<(), Slip> {
        match line.verb() {
            "let" if self.part == Part::None => {
                need_words(alloc, &line)?;
                self.bench.define(&line)
            }
            "image" | "case" => {
                self.finish(alloc)?;
                self.part = if line.verb() == "case" {
                    Part::Case
                } else {
                    Part::Image
                };
                self.title = Some(line);
                Ok(())
            }
            _ if self.part == Part::None => Err(wrong(alloc, "no image or case began before")),
            _ => {
                self.body.push(line)?;
                Ok(())
            }
        }
    }

    /// Runs a file of cases with this name and text. The answer is whether memory sufficed.
    pub fn run_file(&mut self, alloc: Global, name: &str, text: &str) -> bool {
        self.run_lines(alloc, name, text).is_ok()
    }

    fn run_lines(&mut self, alloc: Global, name: &str, text: &str) -> Result<(), Slip> {
        self.file = String::from_str(alloc, name)?;
        let mut number = 0u64;
        for line in text.lines() {
            number = number.saturating_add(1);
            let came = match line_of(alloc, number, line) {
                Ok(Some(line)) => self.take(alloc, line),
                Ok(None) => Ok(()),
                Err(why) => Err(why),
            };
            if let Err(why) = came {
                self.bench.line = number;
                self.fail(alloc, &why)?;
            }
        }
        self.finish(alloc)
    }
}

// Lays out the image that a line names, maybe from another one.
fn lay_image(bench: &mut Bench, title: &Line, body: &[Line]) -> Result<(), Slip> {
    need_words(bench.alloc, title)?;
    if title.word(2) == "from" {
        bench.take_image(title.word(3))?;
    } else if title.words.len() != 2 {
        return Err(wrong(bench.alloc, "image NAME, or image NAME from OTHER"));
    }
    bench.perform(body)?;
    bench.keep_image(title.word(1))
}
