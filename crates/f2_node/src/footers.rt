// The footer of a node.
ghost use Rattle.std.specs.Prelude.{◌≡◌, ◌++◌, IsTrue, take};
ghost use Rattle.f2_bytes.specs.Fields.{lie_apart};
ghost use Rattle.f2_bytes.specs.Node.{footer_rows};
ghost use Rattle.f2_node.specs.Records.{footer_of, FitsFooter};
ghost use Rattle.f2_node.specs.Records.{footer_bytes as bytes_of_footer};

use crate::records::Footer;
use byteorder::{ByteOrder, LittleEndian};
use f2_bytes::{Field, FieldTable, u32_at, u64_at};
use f2_disk::Block;

/// The numbers of a node's footer, by their place in its block: the nid, the number of its inode, the flags, the version
/// of the checkpoint, and the address of the next node that was written.
pub const FOOTER: FieldTable<5> = FieldTable {
    rows: [
        Field {
            offset: 4072,
            width: 4,
        },
        Field {
            offset: 4076,
            width: 4,
        },
        Field {
            offset: 4080,
            width: 4,
        },
        Field {
            offset: 4084,
            width: 8,
        },
        Field {
            offset: 4092,
            width: 4,
        },
    ],
};

/// The rows of `FOOTER` are those of the format, lie in the 4096 bytes of a node, and don't overlap.
pub fn footer_rows_lie_apart()
    ensures rows { FOOTER.rows ≡ footer_rows }
    ensures apart { IsTrue (lie_apart 4096 FOOTER.rows) }
{}

/// The footer of the node in a block.
pub fn footer(b: &Block) -> Footer
    ensures { result ≡ footer_of b.now }
{
    let bytes = b.bytes();
    Footer {
        nid: u32_at(bytes, 4072),
        ino: u32_at(bytes, 4076),
        flag: u32_at(bytes, 4080),
        cp_ver: u64_at(bytes, 4084),
        next: u32_at(bytes, 4092),
    }
}

// The 24 bytes of a footer.
fn footer_bytes(f: Footer) -> [u8; 24]
    ensures bytes { result ≡ bytes_of_footer f }
    ensures fits { FitsFooter f }
{
    let mut bytes = [0; 24];
    LittleEndian::write_u32(&mut bytes[0..4], f.nid);
    LittleEndian::write_u32(&mut bytes[4..8], f.ino);
    LittleEndian::write_u32(&mut bytes[8..12], f.flag);
    LittleEndian::write_u64(&mut bytes[12..20], f.cp_ver);
    LittleEndian::write_u32(&mut bytes[20..24], f.next);
    bytes
}

/// Puts a footer into a block; only its last 24 bytes change.
pub fn set_footer(b: &mut Block, f: &Footer)
    ensures read { footer_of b.new ≡ f.now }
    ensures others { take 4072 b.new ≡ take 4072 b.old }
{
    b.put(4072, &footer_bytes(*f));
}
