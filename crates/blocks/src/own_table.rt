// The table of the free class, of two inputs (document 02, W-207). Its main property: entry (g, x), the byte of coefficients of the two-input function g
// under the choice x of a polarity for each of its terms, stands at g * 16 + x. The array is handed out whole, as the block table is.
ghost use Rattle.std.specs.Prelude.{◌≡◌};
ghost use Rattle.expansions.specs.BlockTable.{own_table};

const ENTRIES: [u8; 256] = [
    0, 0, 0, 0, 0, 0, 0, 0, 0, 0, 0, 0, 0, 0, 0, 0, 15, 11, 13, 8, 14, 11, 12, 8, 14, 10, 13, 8,
    15, 10, 12, 8, 10, 14, 8, 13, 10, 15, 8, 12, 11, 15, 8, 13, 11, 14, 8, 12, 5, 5, 5, 5, 4, 4, 4,
    4, 5, 5, 5, 5, 4, 4, 4, 4, 12, 8, 14, 11, 13, 8, 15, 11, 12, 8, 15, 10, 13, 8, 14, 10, 3, 3, 3,
    3, 3, 3, 3, 3, 2, 2, 2, 2, 2, 2, 2, 2, 6, 6, 6, 6, 7, 7, 7, 7, 7, 7, // (6, 9)
    7, 7, 6, 6, 6, 6, 9, 13, 11, 14, 9, 12, 11, 15, 9, 13, 10, 15, 9, 12, 10, 14, 8, 12, 10, 15, 8,
    13, 10, 14, 8, 12, 11, 14, 8, 13, 11, 15, 7, 7, 7, 7, 6, 6, 6, 6, 6, 6, 6, 6, 7, 7, 7, 7, 2, 2,
    2, 2, 2, 2, 2, 2, 3, 3, 3, 3, 3, 3, 3, 3, 13, 9, 15, 10, 12, 9, 14, 10, 13, 9, 14, 11, 12, 9,
    15, 11, 4, 4, 4, 4, 5, 5, 5, 5, 4, 4, 4, 4, 5, 5, 5, 5, 11, 15, 9, 12, 11, 14, 9, 13, 10, 14,
    9, 12, 10, 15, 9, 13, 14, 10, 12, 9, 15, 10, 13, 9, 15, 11, 12, 9, 14, 11, 13, 9, 1, 1, 1, 1,
    1, 1, 1, 1, 1, 1, 1, 1, 1, 1, 1, 1,
];

// The whole table, for functions g below 16 and choices x below 16, entry (g, x) at g * 16 + x. It takes nothing and refuses nothing.
pub fn own_table() -> [u8; 256]
    ensures { result ≡ own_table }
{
    ENTRIES
}
