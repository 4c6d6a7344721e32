// The adapters, on real files in the test's folder and on the test's own standard output, and the words for memory.
use crate::file_disk::FileDisk;
use crate::fresh::{fresh_uuid, time};
use crate::memory_image::memory_blocks;
use crate::stdout_sink::StdoutSink;
use f2_disk::{Block, Disk, DiskFault, Sink};
use std::fs;
use std::test::Fail;

#[test]
fn a_file_is_a_disk(rt: HostRuntime) -> Result<(), Fail> {
    // two blocks and a part of one
    fs::write(&rt, "image", [7u8; 9000].as_slice())?;
    let mut disk = FileDisk::open(&rt, "image");
    let size = disk.size()?;
    assert_eq!(rt; size, 2);
    let mut b = Block::zeros();
    disk.read(1, &mut b)?;
    assert_eq!(rt; b.bytes(), [7; 4096].as_slice());
    b.put(0, b"new");
    disk.write(0, &b)?;
    disk.sync()?;
    let mut again = Block::zeros();
    disk.read(0, &mut again)?;
    assert_eq!(rt; again.bytes(), b.bytes());
    let bytes = fs::read(&rt, "image")?;
    assert_eq!(rt; bytes.len(), 9000);
    assert!(rt; bytes.starts_with(b.bytes()));
    assert!(rt; bytes.ends_with(&[7; 4904]));
    Ok(())
}

#[test]
fn blocks_that_are_read_ahead_are_as_written(rt: HostRuntime) -> Result<(), Fail> {
    // ten blocks, the last four of which are cut off under the disk
    fs::write(&rt, "order", [7u8; 40_960].as_slice())?;
    let mut disk = FileDisk::open(&rt, "order");
    let size = disk.size()?;
    assert_eq!(rt; size, 10);
    let mut b = Block::zeros();
    disk.read(0, &mut b)?;
    disk.read(1, &mut b)?;
    disk.read(2, &mut b)?;
    disk.read(3, &mut b)?;
    assert_eq!(rt; b.bytes(), [7; 4096].as_slice());
    let mut new = Block::zeros();
    new.put(0, b"new");
    disk.write(5, &new)?;
    disk.read(4, &mut b)?;
    assert_eq!(rt; b.bytes(), [7; 4096].as_slice());
    disk.read(5, &mut b)?;
    assert_eq!(rt; b.bytes(), new.bytes());
    fs::write(&rt, "order", [8u8; 28_672].as_slice())?;
    disk.read(6, &mut b)?;
    assert_eq!(rt; disk.read(7, &mut b), Err(DiskFault));
    Ok(())
}

#[test]
fn what_is_no_file_fails(rt: HostRuntime) -> Result<(), Fail> {
    for name in ["missing", "/", ""] {
        assert_eq!(rt; FileDisk::open(&rt, name).size(), Err(DiskFault));
    }
    assert_eq!(rt; FileDisk::none().size(), Err(DiskFault));
    assert_eq!(rt; FileDisk::none().sync(), Err(DiskFault));
    // a file that gets shorter under the disk
    fs::write(&rt, "short", [7u8; 8192].as_slice())?;
    let mut disk = FileDisk::open(&rt, "short");
    let size = disk.size()?;
    assert_eq!(rt; size, 2);
    fs::write(&rt, "short", [7u8; 5000].as_slice())?;
    let mut b = Block::zeros();
    assert_eq!(rt; disk.read(1, &mut b), Err(DiskFault));
    disk.read(0, &mut b)?;
    Ok(())
}

#[test]
fn standard_output_is_a_sink(rt: HostRuntime) -> Result<(), Fail> {
    let mut out = StdoutSink::new(rt.stdout());
    out.put(b"a line on standard output\n")?;
    Ok(())
}

#[test]
fn some_words_ask_for_memory(rt: HostRuntime) {
    for (word, blocks) in [
        ("mem:0", Some(0)),
        ("mem:16384", Some(16384)),
        ("mem:000016384", Some(16384)),
        ("mem:268435456", Some(268_435_456)),
        ("mem:268435457", None),
        ("mem:999999999", None),
        ("mem:0000016384", None),
        ("mem:", None),
        ("mem:+1", None),
        ("mem:-1", None),
        ("mem:0x10", None),
        ("mem:1 ", None),
        ("mem: 1", None),
        ("MEM:1", None),
        ("mem1", None),
        ("16384", None),
        ("", None),
    ] {
        assert_eq!(rt; memory_blocks(word), blocks, "{word}");
    }
}

#[test]
fn the_clock_gives_uuids(rt: HostRuntime) {
    // later than this was written
    assert!(rt; time(&rt).as_secs() > 1_700_000_000);
    let id = fresh_uuid(1);
    assert!(rt; id != fresh_uuid(2));
    assert_eq!(rt; (id[6] >> 4, id[8] >> 6), (4, 2));
}
