// The sizes of a new image, from its length.
ghost use Rattle.std.specs.Prelude.{◌≡◌, ◌/◌, ◌^◌, ◌≤◌};
ghost use Rattle.f2_bytes.specs.Format.{segments_for};
ghost use Rattle.f2_super.specs.Geometry.{geometry_answer};

use crate::{Geometry, GeometryRefusal};

// The segments that a table of so many entries takes, with so many of them in a block.
fn segments_for(entries: u64, per_block: u64) -> u64
    requires entries { entries ≤ 2 ^ 40 }
    requires some { 1 ≤ per_block }
    requires few { per_block ≤ 512 }
    ensures { result ≡ segments_for entries per_block }
{
    entries.div_ceil(per_block).div_ceil(512)
}

/// The sizes of a new image of this many blocks.
#[tactic(auto, unfolding(f2_bytes::specs::Format::geometry_of, crate::specs::Geometry::geometry_answer))]
pub fn geometry_of(blocks: u64) -> Result<Geometry, GeometryRefusal>
    ensures { result ≡ geometry_answer blocks }
{
    if blocks > 1 << 28 {
        return Err(GeometryRefusal::TooLarge(blocks));
    }
    let all = (blocks / 512).saturating_sub(1);
    let sit = 2 * segments_for(all, 55);
    let left = all.saturating_sub(2 + sit);
    let nat = 2 * segments_for(512 * left, 455).min(60 - sit / 2);
    let left = left.saturating_sub(nat);
    let ssa = left.div_ceil(512);
    let main = left.saturating_sub(ssa);
    if main < 24 {
        return Err(GeometryRefusal::TooSmall { main, least: 24 });
    }
    Ok(Geometry {
        blocks,
        segments: (2 + sit + nat + ssa + main) as u32,
        sit: sit as u32,
        nat: nat as u32,
        ssa: ssa as u32,
        main: main as u32,
    })
}

/// The sizes of a new image of this many sectors of 512 bytes, a last part of a block left out.
pub fn geometry(sectors: u64) -> Result<Geometry, GeometryRefusal>
    ensures { result ≡ geometry_answer (sectors / 8) }
{
    geometry_of(sectors / 8)
}
