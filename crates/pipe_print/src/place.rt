#![tactic(auto)]
//! The places of expressions.

/// What the grammar accepts at the place of an expression. Any other expression is put in parentheses.
#[derive(Clone, Copy)]
pub(crate) enum ExpressionPlace {
    /// Any expression.
    Sum,
    /// No sum.
    Product,
    /// No sum and no product.
    Unary,
}

impl ExpressionPlace {
    ghost use Rattle.std.specs.Prelude.{◌≡◌, List};
    ghost use Rattle.pipe_tokens.specs.declared.token.Token.{Token};
    ghost use Rattle.pipe_print.specs.Canonical.{grouped_if, sum_in, product_in};

    // Whether a sum has parentheses here.
    pub fn has_sums_in_parentheses(self) -> bool
        ensures { (ts : List Token) → sum_in self ts ≡ grouped_if result ts }
    {
        match self {
            ExpressionPlace::Sum => false,
            ExpressionPlace::Product | ExpressionPlace::Unary => true,
        }
    }

    // Whether a product has parentheses here.
    pub fn has_products_in_parentheses(self) -> bool
        ensures { (ts : List Token) → product_in self ts ≡ grouped_if result ts }
    {
        match self {
            ExpressionPlace::Sum | ExpressionPlace::Product => false,
            ExpressionPlace::Unary => true,
        }
    }
}
