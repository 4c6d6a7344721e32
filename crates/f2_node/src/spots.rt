// Where the blocks of a file have their addresses.
ghost use Rattle.std.specs.Prelude.{◌≡◌, ◌≤◌, option_map};
ghost use Rattle.f2_bytes.specs.Node.{locate as located, parent_of as above};
ghost use Rattle.f2_node.specs.Records.{spot_of};

use crate::records::Spot;

// How many numbers a direct or an indirect node has.
const IN_NODE: u64 = 1018;

// How many blocks hang on an indirect node, and on the double indirect one.
const IN_INDIRECT: u64 = IN_NODE * IN_NODE;

const IN_DOUBLE: u64 = IN_NODE * IN_INDIRECT;

/// Where block `k` of a file has its address, in an inode with this many address words, at most 923. None exactly past
/// the last block that a file can have.
#[tactic(auto, unfolding(f2_bytes::specs::Node::locate))]
pub fn locate(k: u64, addresses: u32) -> Option<Spot>
    requires { addresses ≤ 923 }
    ensures { option_map spot_of result ≡ located k addresses }
{
    let n = u64::from(addresses);
    if k < n {
        return Some(Spot {
            offset: 0,
            slot: k as u32,
        });
    }
    if k < n + IN_NODE {
        return Some(Spot {
            offset: 1,
            slot: (k - n) as u32,
        });
    }
    if k < n + 2 * IN_NODE {
        return Some(Spot {
            offset: 2,
            slot: (k - n - IN_NODE) as u32,
        });
    }
    let p = k - n - 2 * IN_NODE;
    if p < IN_INDIRECT {
        return Some(Spot {
            offset: 4 + (p / IN_NODE) as u32,
            slot: (p % IN_NODE) as u32,
        });
    }
    let p = k - n - 2 * IN_NODE - IN_INDIRECT;
    if p < IN_INDIRECT {
        return Some(Spot {
            offset: 1023 + (p / IN_NODE) as u32,
            slot: (p % IN_NODE) as u32,
        });
    }
    let p = k - n - 2 * IN_NODE - 2 * IN_INDIRECT;
    if p < IN_DOUBLE {
        return Some(Spot {
            offset: 2043 + 1019 * (p / IN_INDIRECT) as u32 + (p % IN_INDIRECT / IN_NODE) as u32,
            slot: (p % IN_NODE) as u32,
        });
    }
    None
}

/// The node above the one at this offset, and the place there that names it: of the inode the slots 0 to 4 are its nids.
/// None exactly for the inode itself and from offset 1,039,384 on.
#[tactic(auto, unfolding(f2_bytes::specs::Node::parent_of, f2_bytes::specs::Node::offset_limit))]
pub fn parent_of(offset: u32) -> Option<Spot>
    ensures { option_map spot_of result ≡ above offset }
{
    let (offset, slot) = match offset {
        0 => return None,
        1..=3 => (0, offset - 1),
        4..=1021 => (3, offset - 4),
        1022 => (0, 3),
        1023..=2040 => (1022, offset - 1023),
        2041 => (0, 4),
        2042..=1_039_383 => {
            let indirect = (offset - 2042) / 1019;
            let place = (offset - 2042) % 1019;
            if place == 0 {
                (2041, indirect)
            } else {
                (2042 + 1019 * indirect, place - 1)
            }
        }
        _ => return None,
    };
    Some(Spot { offset, slot })
}
