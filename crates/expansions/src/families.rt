// The part families and the rules by which they charge, in numbers: what a product weighs, and how products and literals are had back from a sum of
// weights. Document 02, W-203: "Parts of family two are priced by area: 4 × products + literals."
ghost use Rattle.std.specs.Prelude.{◌≡◌};
ghost use Rattle.expansions.specs.Rules.{rule_of};

// The family that a table is for: the first word of a table text is `table` for family one and `table2` for family two.
#[derive(Clone, Copy, Debug, PartialEq, Eq)]
pub enum Family {
    One,
    Two,
}

// What a product weighs without its literals, and what each literal of it adds.
#[derive(Clone, Copy, Debug, PartialEq, Eq)]
pub struct Weights {
    pub product: u32,
    pub literal: u32,
}

// Products and literals.
#[derive(Clone, Copy, Debug, PartialEq, Eq)]
pub struct Counts {
    pub products: usize,
    pub literals: usize,
}

// The weights of a family's rule. In family one a sum of weights is products * 4096 + literals, in family two
// (4 * products + literals) * 512 + products.
pub fn weights_of(family: Family) -> Weights
    ensures { (result.product ≡ (rule_of family).product) × (result.literal ≡ (rule_of family).literal) }
{
    match family {
        Family::One => Weights {
            product: 4096,
            literal: 1,
        },
        Family::Two => Weights {
            product: 4 * 512 + 1,
            literal: 512,
        },
    }
}

// The products and the literals whose weights, by a family's rule, have this sum. The quotient by 4096 is a shift by 12 and that by 512 one by 9; the
// remainders are masks.
pub fn counts_in(family: Family, sum: u32) -> Counts
    ensures { (result.products ≡ (rule_of family).products_in sum) × (result.literals ≡ (rule_of family).literals_in sum) }
{
    match family {
        Family::One => Counts {
            products: (sum >> 12) as usize,
            literals: (sum & 4095) as usize,
        },
        Family::Two => Counts {
            products: (sum & 511) as usize,
            literals: (sum >> 9).saturating_sub(4 * (sum & 511)) as usize,
        },
    }
}
