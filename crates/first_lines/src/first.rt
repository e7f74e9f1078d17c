// The first line of a `form` or a `form2` listing: the family's word, and the fields n, m, k, M, i, products and literals. The field k is a digit, and of
// the free class an `f` before it.
ghost use Rattle.std.specs.Prelude.{◌≡◌, ◌∷◌, ◌++◌, map, ◌+◌, ◌≤◌, length};
ghost use Rattle.listings.specs.Listing.{decimal, form_word, form_line, mixed_mark, mixed_field};
ghost use Rattle.writing.specs.Put.{Put};

use expansions::families::Family;
use expansions::kinds::Class;
use writing::line::write_numbers;
use writing::writer::Writer;

// The first word.
#[tactic(auto, unfolding(listings::specs::Listing::form_word, listings::specs::Parts::bytes))]
fn form_word(family: Family) -> &'static [u8]
    ensures { result.now ≡ form_word family }
{
    match family {
        Family::One => b"form",
        Family::Two => b"form2",
    }
}

// The bytes of the first word.
pub fn word_length(family: Family) -> usize
    ensures { result ≡ length (form_word family) }
{
    form_word(family).len()
}

// What stands before the digit in the field k.
#[tactic(auto, unfolding(listings::specs::Listing::mixed_mark, listings::specs::Parts::bytes))]
fn mixed_mark(class: Class) -> &'static [u8]
    ensures { result.now ≡ mixed_mark class }
{
    match class {
        Class::Block => b"",
        Class::Free => b"f",
    }
}

// The bytes before the digit in the field k.
pub fn mark_length(class: Class) -> usize
    ensures { result ≡ length (mixed_mark class) }
{
    mixed_mark(class).len()
}

// The field k, after a tab.
fn write_mixed(class: Class, k: usize, start: Writer, out: &mut [u8]) -> Writer
    requires { start.at + (1 + length (mixed_field class k)) ≤ length out.old }
    ensures { Put out.old start.at (9 ∷ mixed_field class k) out.new result.at }
{
    start
        .byte(out, b'\t')
        .word(out, mixed_mark(class))
        .number(out, k)
}

// The first line: `sizes` are the numbers before the field k, and `counts` those after it.
pub fn write_form(
    class: Class,
    family: Family,
    start: Writer,
    out: &mut [u8],
    sizes: &[usize],
    k: usize,
    counts: &[usize],
) -> Writer
    requires sizes_len_bound { (length sizes.now ≤ 7) × (length counts.now ≤ 7) }
    requires counts_in_bounds { start.at + length (form_line family (map decimal sizes.now ++ mixed_field class k ∷ map decimal counts.now)) ≤ length out.old }
    ensures { Put out.old start.at (form_line family (map decimal sizes.now ++ mixed_field class k ∷ map decimal counts.now)) out.new result.at }
{
    let word = start.word(out, form_word(family));
    let before = write_numbers(word, out, sizes);
    let after = write_mixed(class, k, before, out);
    write_numbers(after, out, counts).byte(out, b'\n')
}
