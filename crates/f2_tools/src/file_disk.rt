// A file of the machine as a disk. It tells nothing of content: what it gives and keeps is trusted.
ghost use Rattle.std.specs.Prelude.{◌≡◌, ◌<◌, ◌≤◌, ◌^◌, true, OnErr, IsOk};
ghost use Rattle.f2_disk.specs.Disk.{Rose};
ghost use Rattle.f2_tools.specs.Edge.{file_state, tells_none, told_none};

use crate::ahead::Ahead;
use f2_disk::{Block, Disk, DiskFault};
use std::fs::{self, File, OpenOptions};
use std::io;
use std::os::unix::fs::FileExt;

/// An open file, or none, whose length in blocks was taken when it was opened. A last part that is shorter than a
/// block doesn't count.
#[derive(Drop)]
pub struct FileDisk {
    file: Option<File>,
    blocks: u64,
    pending: bool,
    faults: u64,
    writes: u64,
    ahead: Ahead,
    ghost small: { blocks < 2 ^ 52 },
}

// Opens a regular file for reading and writing, or, where that is refused, for reading alone. Other kinds of file are
// not opened at all, since a pipe would wait for its other end.
fn open_file(rt: &HostRuntime, image: &str) -> io::Result<(File, u64)> {
    if !fs::metadata(rt, image)?.is_file() {
        return Err(io::Error::from(io::ErrorKind::InvalidInput));
    }
    let file = match OpenOptions::new().read(true).write(true).open(rt, image) {
        Ok(file) => file,
        Err(_) => File::open(rt, image)?,
    };
    let length = file.metadata()?.len();
    Ok((file, length))
}

impl FileDisk {
    /// A disk whose calls fail.
    pub fn none() -> FileDisk {
        FileDisk {
            file: None,
            blocks: 0,
            pending: false,
            faults: 0,
            writes: 0,
            ahead: Ahead::none(),
        }
    }

    /// The file with this name, or a disk whose calls fail where it can't be opened.
    pub fn open(rt: &HostRuntime, image: &str) -> FileDisk {
        match open_file(rt, image) {
            Ok((file, length)) => FileDisk {
                file: Some(file),
                blocks: length / 4096,
                pending: false,
                faults: 0,
                writes: 0,
                ahead: Ahead::none(),
            },
            Err(_) => FileDisk::none(),
        }
    }

    // The answer of a call that went well or not.
    fn answer(faults: &mut u64, well: bool) -> Result<(), DiskFault>
        ensures later { faults.old ≤ faults.new }
        ensures rose { OnErr result (Rose faults.old faults.new) }
        ensures well { IsOk result → well ≡ true }
    {
        if well {
            return Ok(());
        }
        *faults = faults.saturating_add(1);
        Err(DiskFault)
    }
}

impl Disk for FileDisk {
    ghost state = { λ d. file_state d.blocks d.pending d.faults d.writes };

    ghost whole = { λ d image told. told_none told };

    ghost settled = { λ d c calm left. absurd left };

    ghost stays = { λ d image tells told. tells_none tells };

    ghost counts_now = { λ d t c le left. left };

    ghost only_now = { λ d c left. left };

    fn size(&mut self) -> Result<u64, DiskFault> {
        let well = matches!(&self.file, Some(_));
        FileDisk::answer(&mut self.faults, well)?;
        Ok(self.blocks)
    }

    fn read(&mut self, at: u64, into: &mut Block) -> Result<(), DiskFault> {
        let blocks = self.blocks;
        let well = match &self.file {
            Some(file) => self.ahead.find(file, at, blocks),
            None => false,
        };
        if let Some(bytes) = self.ahead.get(at) {
            into.put(0, bytes);
        }
        FileDisk::answer(&mut self.faults, well)
    }

    fn write(&mut self, at: u64, from: &Block) -> Result<(), DiskFault> {
        self.writes = self.writes.saturating_add(1);
        self.pending = true;
        self.ahead.forget(at);
        let well = match &self.file {
            Some(file) => file.write_all_at(from.bytes(), at * 4096).is_ok(),
            None => false,
        };
        FileDisk::answer(&mut self.faults, well)
    }

    fn sync(&mut self) -> Result<(), DiskFault> {
        let well = match &self.file {
            Some(file) => file.sync_all().is_ok(),
            None => false,
        };
        FileDisk::answer(&mut self.faults, well)?;
        self.pending = false;
        Ok(())
    }
}
