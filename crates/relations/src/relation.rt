// A table of sixteen rows of sixteen: row p says at q whether p is related to q.
ghost use Rattle.std.specs.Prelude.{◌≡◌, ℕ, ◌<◌, [], length, slice_index_or};

pub mod access;

#[derive(Clone, Copy)]
pub struct Relation {
    rows: [[bool; 16]; 16],
    ghost high: { length rows ≡ 16 },
    ghost wide: { (p : ℕ) → p < 16 → length (slice_index_or rows p []) ≡ 16 },
}
