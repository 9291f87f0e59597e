ghost use Rattle.std.specs.Prelude.{◌≡◌, ℕ, ◌+◌, ◌-◌, ◌*◌, ◌<◌, ◌≤◌, ◌++◌, length, take, drop, [], slice_index_or, slice_set};
ghost use Rattle.cell_pool.specs.Cells.{cells_for};
ghost use Rattle.cell_pool.specs.Region.{walk, after, times, content, filled};

/// The size of a cell in bytes.
pub(crate) const CELL: usize = 256;

/// How many cells so many bytes take: one even for none.
pub(crate) fn cells_needed(count: usize) -> usize
    ensures { result ≡ cells_for count }
{
    count.div_ceil(CELL).max(1)
}

/// Overwrites the front of a cell.
fn overwrite(cell: &mut [u8; 256], piece: &[u8])
    requires { length piece.now ≤ 256 }
    ensures { cell.new ≡ piece.now ++ drop (length piece.now) cell.old }
{
    cell[..piece.len()].copy_from_slice(piece);
}

/// Writes the bytes into the cells of a chain, and gives the cell that comes after it.
pub(crate) fn fill(
    cells: &mut [[u8; 256]],
    links: &[u32],
    first: u32,
    count: usize,
    bytes: &[u8],
) -> u32
    requires inside_cells { (c : ℕ) → 0 < times c (walk links.now first count) → c < length cells.old }
    requires inside_links { (c : ℕ) → 0 < times c (walk links.now first count) → c < length links.now }
    ensures cells { cells.new ≡ filled cells.old (walk links.now first count) bytes.now }
    ensures next { result ≡ after links.now first count }
{
    let mut cell = first;
    let mut left = count;
    let mut done = 0;
    while left > 0 {
        let part = (bytes.len() - done).min(CELL);
        overwrite(&mut cells[cell as usize], &bytes[done..done + part]);
        done += part;
        cell = links[cell as usize];
        left -= 1;
    }
    cell
}

/// Copies a piece to this place in `out`.
fn copy_piece(out: &mut [u8], at: usize, piece: &[u8])
    requires { at + length piece.now ≤ length out.old }
    ensures { out.new ≡ take at out.old ++ piece.now ++ drop (at + length piece.now) out.old }
{
    out[at..at + piece.len()].copy_from_slice(piece);
}

/// Copies so many bytes of a chain of so many cells to the front of `out`.
pub(crate) fn copy_out(
    cells: &[[u8; 256]],
    links: &[u32],
    first: u32,
    count: usize,
    size: usize,
    out: &mut [u8],
)
    requires inside_cells { (c : ℕ) → 0 < times c (walk links.now first count) → c < length cells.now }
    requires inside_links { (c : ℕ) → 0 < times c (walk links.now first count) → c < length links.now }
    requires enough { size ≤ 256 * count }
    requires room { size ≤ length out.old }
    ensures { out.new ≡ take size (content cells.now (walk links.now first count)) ++ drop size out.old }
{
    let mut cell = first;
    let mut left = count;
    let mut done = 0;
    while left > 0 {
        let part = (size - done).min(CELL);
        copy_piece(out, done, &cells[cell as usize][..part]);
        done += part;
        cell = links[cell as usize];
        left -= 1;
    }
}

/// The last cell of a chain.
pub(crate) fn last_cell(links: &[u32], first: u32, count: usize) -> u32
    requires some { 0 < count }
    requires inside { (c : ℕ) → 0 < times c (walk links.now first count) → c < length links.now }
    ensures { result ≡ after links.now first (count - 1) }
{
    let mut cell = first;
    let mut left = count - 1;
    while left > 0 {
        cell = links[cell as usize];
        left -= 1;
    }
    cell
}
