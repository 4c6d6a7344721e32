// What the statements of a case work on.
use crate::lines::Line;
use crate::numbers::Numbers;
use crate::slip::{Slip, wrong};
use crate::user_image::{chain_image, full_image, user_image};
use f2_case_disk::CaseDisk;
use f2_disk::Torn;
use std::alloc::Global;
use std::collections::BTreeMap;

// Which disk of f2_disk a run gets besides the disk for cases.
#[derive(Clone, Copy, PartialEq, Eq)]
pub(crate) enum Kind {
    Case,
    Memory,
    Calm,
}

// What is asked of the next run: its second and uuid, which calls of the disk and puts of the sink fail, and where it stops.
#[derive(Drop)]
pub(crate) struct Next {
    pub(crate) second: u64,
    pub(crate) uuid: [u8; 16],
    pub(crate) fails: Vec<u64>,
    pub(crate) no_puts: Vec<u64>,
    pub(crate) stop: Option<(u64, Torn)>,
}

impl Next {
    pub(crate) fn new(alloc: Global) -> Next {
        Next {
            second: 5,
            uuid: [7; 16],
            fails: Vec::new(alloc),
            no_puts: Vec::new(alloc),
            stop: None,
        }
    }
}

// What came of a run or a call: its status, or none of a call that answers; its text, and its calls of the disk.
#[derive(Drop)]
pub(crate) struct Outcome {
    pub(crate) status: Option<u8>,
    pub(crate) is_call: bool,
    pub(crate) text: Vec<u8>,
    pub(crate) calls: u64,
    pub(crate) writes: u64,
    pub(crate) syncs: u64,
    pub(crate) before: CaseDisk,
}

#[derive(Drop)]
pub(crate) struct Bench {
    pub(crate) alloc: Global,
    pub(crate) numbers: Numbers,
    pub(crate) images: BTreeMap<String, CaseDisk>,
    pub(crate) disk: CaseDisk,
    pub(crate) kind: Kind,
    pub(crate) next: Next,
    pub(crate) outcome: Option<Outcome>,
    // the next expectation is to fail
    pub(crate) wrong: bool,
    // the last run's status was looked at
    pub(crate) looked: bool,
    // the line that is worked on
    pub(crate) line: u64,
}

impl Bench {
    pub(crate) fn new(alloc: Global) -> Bench {
        Bench {
            alloc,
            numbers: Numbers::new(alloc),
            images: BTreeMap::new(alloc),
            disk: CaseDisk::new(alloc, 0),
            kind: Kind::Case,
            next: Next::new(alloc),
            outcome: None,
            wrong: false,
            looked: true,
            line: 0,
        }
    }

    // Begins an image or a case, on an empty disk.
    pub(crate) fn begin(&mut self) {
        self.disk = CaseDisk::new(self.alloc, 0);
        self.kind = Kind::Case;
        self.next = Next::new(self.alloc);
        self.outcome = None;
        self.wrong = false;
        self.looked = true;
    }

    // Begins with a copy of an image.
    pub(crate) fn take_image(&mut self, name: &str) -> Result<(), Slip> {
        match self.images.get(name) {
            Some(image) => {
                self.disk = image.copy()?;
                Ok(())
            }
            None => Err(wrong(self.alloc, "there is no such image")),
        }
    }

    // Keeps the disk as an image.
    pub(crate) fn keep_image(&mut self, name: &str) -> Result<(), Slip> {
        if self.images.get(name).is_some() {
            return Err(wrong(self.alloc, "there is an image of this name already"));
        }
        let image = self.disk.copy()?;
        let name = String::from_str(self.alloc, name)?;
        self.images.insert(name, image)?;
        Ok(())
    }

    // `lay user|chain|full`: an image of those that are laid out by code.
    pub(crate) fn lay_image(&mut self, line: &Line) -> Result<(), Slip> {
        self.disk = match line.word(1) {
            "user" => user_image(self.alloc)?,
            "chain" => chain_image(self.alloc)?,
            "full" => full_image(self.alloc)?,
            _ => return Err(wrong(self.alloc, "lay user, chain or full")),
        };
        Ok(())
    }
}
