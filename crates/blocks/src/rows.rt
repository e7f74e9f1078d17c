// The tables by rows, for the search: the entries of one function under eight choices are the bytes of one word, so that the terms of several outputs
// are joined under all eight at once. Where the terms of a block choose apart there are sixteen choices, and a second row for each function.
// The main property: `rows_of` hands out the rows of a class.
ghost use Rattle.std.specs.Prelude.{◌≡◌, ℕ, ◌+◌, ◌*◌, ◌≤◌, ◌<◌, length};
ghost use Rattle.numbers.specs.Bytes.{at};
ghost use Rattle.numbers.specs.Words.{word};
ghost use Rattle.expansions.specs.BlockTable.{entry, own_entry, Rows};

use crate::block_table::block_table;
use crate::own_table::own_table;
use expansions::kinds::{Class, apart};

// The rows that there is room for: two for each of the 256 bytes that stand for a function.
pub const ROWS: usize = 512;

// The eight entries from `start` on: the entry at start + q is byte q.
fn row_at(entries: &[u8], start: usize) -> u64
    requires { start + 8 ≤ length entries.now }
    ensures { result ≡ word 8 (λ q. at entries.now (start + q)) }
{
    let mut row = [0u8; 8];
    row.copy_from_slice(&entries[start..start + 8]);
    u64::from_le_bytes(row)
}

// The rows of all 256 functions of three inputs, under the eight polarities.
fn block_rows() -> [u64; ROWS]
    ensures { (g : ℕ) → g < 256 → at result g ≡ word 8 (entry g) }
{
    let entries = block_table();
    let mut all = [0u64; ROWS];
    for g in 0..256 {
        all[g] = row_at(&entries, g * 8);
    }
    all
}

// The rows of the functions of two inputs, whose four bits the 256 bytes have lowest: row y is that of the byte y & 255 under the first eight choices,
// and from 256 on under the last eight.
fn own_rows() -> [u64; ROWS]
    ensures { (h g : ℕ) → h < 2 → g < 256 → at result (h * 256 + g) ≡ word 8 (λ q. own_entry g (h * 8 + q)) }
{
    let entries = own_table();
    let mut all = [0u64; ROWS];
    for (y, row) in all.iter_mut().enumerate() {
        *row = row_at(&entries, (y & 15) * 16 + (y >> 8) * 8);
    }
    all
}

// The rows of a class with k mixed inputs. It refuses nothing; who searches takes them once and lends them down.
pub fn rows_of(class: Class, k: usize) -> [u64; ROWS]
    ensures { Rows class k result }
{
    if apart(class, k) {
        own_rows()
    } else {
        block_rows()
    }
}
