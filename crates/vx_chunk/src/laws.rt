//! Laws of sizes and of rows.

ghost use Rattle.std.specs.Prelude.{◌≡◌, ◌+◌, ◌≤◌, ℕ, List, length, IsTrue};
ghost use Rattle.vx_model.specs.Words.{joined_by, total_by};
ghost use Rattle.vx_model.specs.Ty.{Ty};
ghost use Rattle.vx_model.specs.CellData.{CellData};
ghost use Rattle.vx_model.specs.ChunkData.{ChunkData, plain_piece, chunked_piece, pieces_of, piece_type, cells, joined_cells, row_values, row_size, held};
ghost use Rattle.vx_chunk_cells.specs.Window.{window};
ghost use Rattle.vx_chunk.specs.Conditions.{are_of_type};
ghost use Rattle.vx_layout_spec.specs.Parts.{all_parts};

/// A law, no work: sizes add up. Both sizes of chunks that are joined are the sums of theirs; the row sizes of two
/// slices, one behind the other, sum to that of both.
pub fn sizes_add_up()
    ensures held { (t : Ty) → (ps : List ChunkData) → held (chunked_piece t (pieces_of (all_parts ps))) ≡ total_by held ps }
    ensures rows { (t : Ty) → (ps : List ChunkData) → IsTrue (are_of_type t ps) → row_size (chunked_piece t (pieces_of (all_parts ps))) ≡ total_by row_size ps }
    ensures slices { (t : Ty) → (cs : List CellData) → (a b c : ℕ) → a ≤ b → b ≤ c
        → row_size (plain_piece t (window a b cs)) + row_size (plain_piece t (window b c cs)) ≡ row_size (plain_piece t (window a c cs)) }
{}

/// A law, no work: rows follow cells. A chunk with the cells of a slice has the rows of it, one with the cells of
/// chunks that are joined has their rows, and a chunk has its plain form's rows.
pub fn rows_follow_cells()
    ensures slice { (p c : ChunkData) → (from to : ℕ) → cells c ≡ window from to (cells p) → row_values c ≡ window from to (row_values p) }
    ensures joined { (c : ChunkData) → (ps : List ChunkData) → cells c ≡ joined_cells (pieces_of ps) → row_values c ≡ joined_by row_values ps }
    ensures plain { (p : ChunkData) → row_values (plain_piece (piece_type p) (cells p)) ≡ row_values p }
    ensures count { (p : ChunkData) → length (row_values p) ≡ length (cells p) }
{}
