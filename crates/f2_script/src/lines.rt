// The lines of a file of cases, and their words.
use crate::slip::{Slip, wrong};
use std::alloc::Global;

// A word of a line; one that was written with quotes is never a number.
#[derive(Drop)]
pub(crate) struct Word {
    pub(crate) text: String,
    pub(crate) quoted: bool,
}

// A line with a statement.
#[derive(Drop)]
pub(crate) struct Line {
    pub(crate) number: u64,
    pub(crate) text: String,
    pub(crate) words: Vec<Word>,
}

impl Line {
    // Its first word.
    pub(crate) fn verb(&self) -> &str {
        match self.words.first() {
            Some(word) => word.text.as_str(),
            None => "",
        }
    }

    // The word at this place, if there is one.
    pub(crate) fn word(&self, place: usize) -> &str {
        match self.words.get(place) {
            Some(word) => word.text.as_str(),
            None => "",
        }
    }

    // What stands behind the first word and a blank.
    pub(crate) fn rest(&self) -> &str {
        match self.text.as_str().split_once(' ') {
            Some((_, rest)) => rest,
            None => "",
        }
    }
}

// Where a reader of words is.
#[derive(Clone, Copy, PartialEq, Eq)]
enum Place {
    Plain,
    Quoted,
    // behind a backslash
    Escape,
    // behind `\x`, and behind its first digit
    First,
    Second(u32),
    // behind `\u`, and in the braces behind it
    Brace,
    Digits(u32),
    // behind `\*`, and in the braces behind it
    Times,
    Count(u32),
}

#[derive(Drop)]
struct Reader {
    words: Vec<Word>,
    word: String,
    last: char,
    begun: bool,
    quoted: bool,
    place: Place,
}

impl Reader {
    fn new(alloc: Global) -> Reader {
        Reader {
            words: Vec::new(alloc),
            word: String::new(alloc),
            last: ' ',
            begun: false,
            quoted: false,
            place: Place::Plain,
        }
    }

    // Ends a word, if one began.
    fn end(&mut self, alloc: Global) -> Result<(), Slip> {
        if self.begun {
            let text = String::from_str(alloc, self.word.as_str())?;
            self.words.push(Word {
                text,
                quoted: self.quoted,
            })?;
        }
        self.word = String::new(alloc);
        self.begun = false;
        self.quoted = false;
        Ok(())
    }

    fn push(&mut self, c: char) -> Result<Place, Slip> {
        self.begun = true;
        self.last = c;
        self.word.push(c)?;
        Ok(Place::Quoted)
    }

    fn plain(&mut self, alloc: Global, c: char) -> Result<Place, Slip> {
        match c {
            ' ' | '\t' => self.end(alloc)?,
            '"' => {
                self.begun = true;
                self.quoted = true;
                return Ok(Place::Quoted);
            }
            _ => {
                let _ = self.push(c)?;
            }
        }
        Ok(Place::Plain)
    }

    fn escaped(&mut self, alloc: Global, c: char) -> Result<Place, Slip> {
        match c {
            '0' => self.push('\0'),
            'n' => self.push('\n'),
            't' => self.push('\t'),
            '\\' | '"' => self.push(c),
            'x' => Ok(Place::First),
            'u' => Ok(Place::Brace),
            '*' => Ok(Place::Times),
            _ => Err(wrong(alloc, "an unknown escape")),
        }
    }

    // The second digit of a byte, which is below 0x80.
    fn second(&mut self, alloc: Global, high: u32, c: char) -> Result<Place, Slip> {
        match (c.to_digit(16), high) {
            (Some(low), 0..=7) => match char::from_u32(high * 16 + low.min(15)) {
                Some(c) => self.push(c),
                None => Err(wrong(alloc, "no character has this number")),
            },
            _ => Err(wrong(alloc, "no byte from \\x00 to \\x7f")),
        }
    }

    fn digit(&mut self, alloc: Global, number: u32, c: char) -> Result<Place, Slip> {
        if c == '}' {
            return match char::from_u32(number) {
                Some(c) => self.push(c),
                None => Err(wrong(alloc, "no character has this number")),
            };
        }
        match c.to_digit(16) {
            Some(digit) if number < 0x0100_0000 => Ok(Place::Digits(number * 16 + digit)),
            _ => Err(wrong(alloc, "no hexadecimal digit")),
        }
    }

    // The character before stands there so often, at most 9999 times.
    fn count(&mut self, alloc: Global, number: u32, c: char) -> Result<Place, Slip> {
        if c == '}' {
            for _ in 1..number {
                let last = self.last;
                let _ = self.push(last)?;
            }
            return Ok(Place::Quoted);
        }
        match c.to_digit(10) {
            Some(digit) if number < 1000 => Ok(Place::Count(number * 10 + digit)),
            _ => Err(wrong(alloc, "no count of at most four digits")),
        }
    }

    fn take(&mut self, alloc: Global, c: char) -> Result<(), Slip> {
        let place = match self.place {
            Place::Plain => self.plain(alloc, c)?,
            Place::Quoted => match c {
                '"' => Place::Plain,
                '\\' => Place::Escape,
                _ => self.push(c)?,
            },
            Place::Escape => self.escaped(alloc, c)?,
            Place::First => match c.to_digit(16) {
                Some(high) => Place::Second(high),
                None => return Err(wrong(alloc, "no hexadecimal digit")),
            },
            Place::Second(high) => self.second(alloc, high, c)?,
            Place::Brace if c == '{' => Place::Digits(0),
            Place::Brace => return Err(wrong(alloc, "no brace behind \\u")),
            Place::Digits(number) => self.digit(alloc, number, c)?,
            Place::Times if c == '{' => Place::Count(0),
            Place::Times => return Err(wrong(alloc, "no brace behind \\*")),
            Place::Count(number) => self.count(alloc, number, c)?,
        };
        self.place = place;
        Ok(())
    }
}

// The words of a text.
pub(crate) fn words_of(alloc: Global, text: &str) -> Result<Vec<Word>, Slip> {
    let mut reader = Reader::new(alloc);
    for c in text.chars() {
        reader.take(alloc, c)?;
    }
    if reader.place != Place::Plain {
        return Err(wrong(alloc, "a quote isn't closed"));
    }
    reader.end(alloc)?;
    Ok(reader.words)
}

// Whether a line is text that a run is to print, whose words are not looked at.
fn is_text(text: &str) -> bool {
    text.starts_with('|')
}

// The line of this number, if it is no comment and not empty. Its text has no blanks at its start, nor at its end unless
// it is text that a run is to print.
pub(crate) fn line_of(alloc: Global, number: u64, text: &str) -> Result<Option<Line>, Slip> {
    let text = text.trim_start();
    if text.is_empty() || text.starts_with('#') {
        return Ok(None);
    }
    let text = if is_text(text) { text } else { text.trim_end() };
    let words = if is_text(text) {
        let mut words = Vec::new(alloc);
        let verb = if text.starts_with("|~") { "|~" } else { "|" };
        words.push(Word {
            text: String::from_str(alloc, verb)?,
            quoted: false,
        })?;
        words
    } else {
        words_of(alloc, text)?
    };
    Ok(Some(Line {
        number,
        text: String::from_str(alloc, text)?,
        words,
    }))
}
