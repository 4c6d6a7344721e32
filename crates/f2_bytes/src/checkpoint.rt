// The numbers of a checkpoint.
ghost use Rattle.std.specs.Prelude.{◌≡◌, IsTrue};
ghost use Rattle.f2_bytes.specs.Fields.{lie_apart};
ghost use Rattle.f2_bytes.specs.Checkpoint.{checkpoint_rows};

use crate::fields::rows;
use crate::{Field, FieldTable};

/// The numbers of a checkpoint, which has 4096 bytes.
pub const CHECKPOINT: FieldTable<65> = FieldTable {
    rows: rows![
        0 8, 8 8, 16 8, 24 4, 28 4, 32 4, 36 4, 40 4, 44 4, 48 4, 52 4, 56 4, 60 4, 64 4, 68 2, 70 2, 72 2, 74 2,
        76 2, 78 2, 80 2, 82 2, 84 4, 88 4, 92 4, 96 4, 100 4, 104 4, 108 4, 112 4, 116 2, 118 2, 120 2, 122 2,
        124 2, 126 2, 128 2, 130 2, 132 4, 136 4, 140 4, 144 4, 148 4, 152 4, 156 4, 160 4, 164 4, 168 8, 176 1,
        177 1, 178 1, 179 1, 180 1, 181 1, 182 1, 183 1, 184 1, 185 1, 186 1, 187 1, 188 1, 189 1, 190 1, 191 1,
        4092 4,
    ],
};

/// The rows of `CHECKPOINT` are those of the format, lie in the 4096 bytes of a checkpoint, and don't overlap.
pub fn checkpoint_rows_lie_apart()
    ensures rows { CHECKPOINT.rows ≡ checkpoint_rows }
    ensures apart { IsTrue (lie_apart 4096 CHECKPOINT.rows) }
{}
