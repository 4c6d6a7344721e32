// Tables of the numbers in a record.
ghost use Rattle.std.specs.Prelude.{◌≡◌, ◌≤◌, ◌<◌, ◌+◌, ◌^◌, length};
ghost use Rattle.f2_bytes.specs.Bytes.{number_at, with_number};

use byteorder::{ByteOrder, LittleEndian};

/// The place of a number in a record.
#[derive(Clone, Copy, Debug, PartialEq, Eq)]
pub struct Field {
    /// Its first byte, counted from the start of the record.
    pub offset: usize,
    /// How many bytes it has, the lowest first.
    pub width: usize,
}

/// The places of the `N` numbers of a record.
#[derive(Clone, Copy)]
pub struct FieldTable<const N: usize> {
    pub rows: [Field; N],
}

// The rows of a table, each by its offset and its width.
macro_rules! rows {
    ($($offset:literal $width:literal),* $(,)?) => {
        [$(Field { offset: $offset, width: $width }),*]
    };
}

pub(crate) use rows;

// The number in the `width` bytes from `offset` on.
fn number(b: &[u8], offset: usize, width: usize) -> u64
    requires inside { offset + width ≤ length b.now }
    requires narrow { width ≤ 8 }
    ensures value { result ≡ number_at b.now offset width }
    ensures fits { result < 256 ^ width }
{
    if width == 0 {
        return 0;
    }
    LittleEndian::read_uint(&b[offset..offset + width], width)
}

// Puts a number into the `width` bytes from `offset` on.
pub(crate) fn put_number(b: &mut [u8], offset: usize, width: usize, value: u64)
    requires inside { offset + width ≤ length b.old }
    requires narrow { width ≤ 8 }
    requires fits { value < 256 ^ width }
    ensures bytes { b.new ≡ with_number b.old offset width value }
    ensures read { number_at b.new offset width ≡ value }
{
    if width > 0 {
        LittleEndian::write_uint(&mut b[offset..offset + width], value, width);
    }
}

impl<const N: usize> FieldTable<N> {
    ghost use Rattle.f2_bytes.specs.Fields.{row_at, field_at, with_field};

    /// The number in row `k` of the record `b`.
    pub fn get(&self, b: &[u8], k: usize) -> u64
        requires row { k < N }
        requires inside { let row = row_at self.now.rows k in row.offset + row.width ≤ length b.now }
        requires narrow { (row_at self.now.rows k).width ≤ 8 }
        ensures value { result ≡ field_at self.now.rows b.now k }
        ensures fits { result < 256 ^ (row_at self.now.rows k).width }
    {
        let row = self.rows[k];
        number(b, row.offset, row.width)
    }

    /// Puts the number `v` into row `k` of the record `b`, and changes no other byte.
    pub fn set(&self, b: &mut [u8], k: usize, v: u64)
        requires row { k < N }
        requires inside { let row = row_at self.now.rows k in row.offset + row.width ≤ length b.old }
        requires narrow { (row_at self.now.rows k).width ≤ 8 }
        requires fits { v < 256 ^ (row_at self.now.rows k).width }
        ensures bytes { b.new ≡ with_field self.now.rows b.old k v }
        ensures read { field_at self.now.rows b.new k ≡ v }
    {
        let row = self.rows[k];
        put_number(b, row.offset, row.width, v);
    }
}
