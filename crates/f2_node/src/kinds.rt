// The kinds of files.
ghost use Rattle.std.specs.Prelude.{◌≡◌, option_map};
ghost use Rattle.f2_bytes.specs.Node.{type_of_mode};
ghost use Rattle.f2_node.specs.Records.{type_of};

use crate::records::Kind;

/// The kind that the upper four bits of a mode say, if any.
pub fn kind(mode: u16) -> Option<Kind>
    ensures { option_map type_of result ≡ type_of_mode mode }
{
    match mode / 4096 {
        8 => Some(Kind::Regular),
        4 => Some(Kind::Directory),
        2 => Some(Kind::Character),
        6 => Some(Kind::BlockDevice),
        1 => Some(Kind::Fifo),
        12 => Some(Kind::Socket),
        10 => Some(Kind::Symlink),
        _ => None,
    }
}
