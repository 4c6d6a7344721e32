// Marks on the segments of the main area.
ghost use Rattle.std.specs.Prelude.{◌≡◌, ◌==◌, IfOk};
ghost use Rattle.f2_free.specs.SegmentMarks.{MarkTable, MarksMore, MarksBlocks};
ghost use Rattle.f2_free.specs.SegmentMarks.{is_marked as is_marked_in, unmarked as unmarked_in};

use f2_bytes::Layout;
use std::alloc::{AllocError, Global};
use std::marker::Model;

// For each segment of the main area whether it is marked.
#[derive(Drop)]
pub struct Marks {
    main: u32,
    segments: Vec<bool>,
}

impl Model for Marks {
    ghost use Rattle.std.specs.Prelude.{◌<◌, ◌^◌, length};
    ghost use Rattle.f2_free.specs.SegmentMarks.{MarkTable};

    ghost Value = { MarkTable };

    ghost view = { λ m. record { main = m.main; segments = m.segments.items } };

    ghost invariant = { λ m. length m.segments.items < 2 ^ 32 };
}

impl Marks {
    ghost use Rattle.std.specs.Prelude.{ℕ, false, length};

    // No segment of this layout is marked.
    pub fn new(alloc: Global, l: &Layout) -> Result<Marks, AllocError>
        ensures main { IfOk result (λ m. m.main ≡ l.now.main) }
        ensures count { IfOk result (λ m. length m.segments ≡ l.now.segments) }
        ensures none { IfOk result (λ m. (segment : ℕ) → is_marked_in m segment ≡ false) }
    {
        Ok(Marks {
            main: l.main,
            segments: vec![in alloc; false; l.segments as usize]?,
        })
    }

    // Marks a segment, if there is one of this number.
    pub fn mark_segment(&mut self, segno: u32)
        ensures { MarksMore self.old self.new (λ segment. segno == segment) }
    {
        let at = segno as usize;
        if at < self.segments.len() {
            self.segments[at] = true;
        }
    }

    // Marks the segment of the block at this address, where that lies in the main area.
    pub fn mark(&mut self, address: u32)
        ensures { MarksBlocks self.old self.new (λ a. address == a) }
    {
        if address >= self.main {
            self.mark_segment((address - self.main) / 512);
        }
    }

    // The segments without a mark, in ascending order.
    pub fn unmarked(&self, alloc: Global) -> Result<Vec<u32>, AllocError>
        ensures { IfOk result (λ segments. segments.items ≡ unmarked_in self.now) }
    {
        let mut segments = Vec::new(alloc);
        for segment in 0..self.segments.len() {
            if !self.segments[segment] {
                segments.push(segment as u32)?;
            }
        }
        Ok(segments)
    }
}
