// The lines of a record's fields.
ghost use Rattle.std.specs.Prelude.{◌≡◌, ◌≤◌, ◌+◌, ◌*◌, ◌++◌, ◌&&◌, nat_le, length, map, IsTrue, OnOk};
ghost use Rattle.std.specs.List.{list_all};
ghost use Rattle.f2_bytes.specs.Fields.{lies_in};
ghost use Rattle.f2_dump.specs.Fields.{field_line, field_lines};

use f2_bytes::FieldTable;
use f2_disk::Block;
use itoa::Buffer;
use std::alloc::AllocError;

// Does this for each field of a table, in its order.
macro_rules! each_field {
    ($count:ident, $k:ident => $each:expr) => {
        for $k in 0..$count {
            $each;
        }
    };
}

// Appends the line of a field.
fn push_line(text: &mut Vec<u8>, name: &str, number: u64) -> Result<(), AllocError>
    ensures line { OnOk result (text.new.items ≡ text.old.items ++ field_line name.now number) }
    ensures size { length text.new.items ≤ length text.old.items + length name.now + 22 }
{
    let mut buffer = Buffer::new();
    text.extend_from_slice(name.as_bytes())?;
    text.extend_from_slice(b" ")?;
    text.extend_from_slice(buffer.format(number).as_bytes())?;
    text.extend_from_slice(b"\n")
}

/// Appends the lines of the fields that a table places in a block.
pub fn push_fields<const N: usize>(
    text: &mut Vec<u8>,
    names: &[&str],
    table: &FieldTable<N>,
    block: &Block,
) -> Result<(), AllocError>
    requires names { length names.now ≡ N }
    requires rows { IsTrue (list_all (λ row. lies_in 4096 row && nat_le row.width 8) table.now.rows) }
    requires short { IsTrue (list_all (λ name. nat_le (length name.now) 42) names.now) }
    ensures lines { OnOk result (text.new.items ≡ text.old.items ++ field_lines (map (λ name. name.now) names.now) table.now.rows block.now) }
    ensures size { length text.new.items ≤ length text.old.items + 64 * N }
{
    let bytes = block.bytes();
    each_field!(N, k => push_line(text, names[k], table.get(bytes, k))?);
    Ok(())
}
