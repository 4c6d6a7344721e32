// The numbers of words.
use crate::lines::{Line, Word};
use crate::slip::{Slip, wrong};
use f2_case_disk::number_of;
use std::alloc::Global;
use std::collections::BTreeMap;

// The names that stand for numbers.
#[derive(Drop)]
pub(crate) struct Numbers {
    alloc: Global,
    named: BTreeMap<String, u64>,
}

impl Numbers {
    pub(crate) fn new(alloc: Global) -> Numbers {
        Numbers {
            alloc,
            named: BTreeMap::new(alloc),
        }
    }

    // Gives a number a name.
    pub(crate) fn name(&mut self, name: &str, number: u64) -> Result<(), Slip> {
        let name = String::from_str(self.alloc, name)?;
        self.named.insert(name, number)?;
        Ok(())
    }

    // The number of digits or of a name.
    fn factor(&self, text: &str) -> Option<u64> {
        match number_of(text) {
            Some(number) => Some(number),
            None => self.named.get(text).copied(),
        }
    }

    // The number of a sum of products of such.
    pub(crate) fn value(&self, text: &str) -> Option<u64> {
        let mut sum = 0u64;
        for term in text.split('+') {
            let mut product = 1u64;
            for factor in term.split('*') {
                product = product.checked_mul(self.factor(factor)?)?;
            }
            sum = sum.checked_add(product)?;
        }
        Some(sum)
    }

    // The number of a word.
    pub(crate) fn of_word(&self, word: &Word) -> Result<u64, Slip> {
        match self.value(word.text.as_str()) {
            Some(number) if !word.quoted => Ok(number),
            _ => {
                let text = &word.text;
                Err(Slip::Wrong(format!(in self.alloc; "{text} is no number")?))
            }
        }
    }

    // The number of the word at this place of a line.
    pub(crate) fn at(&self, line: &Line, place: usize) -> Result<u64, Slip> {
        match line.words.get(place) {
            Some(word) => self.of_word(word),
            None => Err(wrong(self.alloc, "a number is missing")),
        }
    }

    // The numbers of all words from this place on.
    pub(crate) fn from(&self, line: &Line, place: usize) -> Result<Vec<u64>, Slip> {
        let mut numbers = Vec::new(self.alloc);
        for word in line.words.iter().skip(place) {
            numbers.push(self.of_word(word)?)?;
        }
        Ok(numbers)
    }

    // The words from this place on; where one is a number, its digits.
    pub(crate) fn words_from(&self, line: &Line, place: usize) -> Result<Vec<String>, Slip> {
        let mut words = Vec::new(self.alloc);
        for word in line.words.iter().skip(place) {
            let text = match self.value(word.text.as_str()) {
                Some(number) if !word.quoted => format!(in self.alloc; "{number}")?,
                _ => String::from_str(self.alloc, word.text.as_str())?,
            };
            words.push(text)?;
        }
        Ok(words)
    }
}
