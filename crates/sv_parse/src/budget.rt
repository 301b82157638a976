// How much deeper trees may become.
ghost use Rattle.std.specs.Prelude.{◌≡◌, ℕ, ◌+◌, ◌-◌, ◌≤◌, MatchResult};
ghost use Rattle.sv_tree.specs.Depth.{most_depth};
ghost use Rattle.sv_parse.specs.declared.tokens.ReadError.TheVariants.{TooDeep};

use crate::tokens::ReadError;
use std::marker::Model;
use sv_tree::{MOST_DEPTH, Token};

/// How many brackets, operators and statements may still stand in one another: the greatest depth of a tree (own) less the depth around
/// what is read. It is seen as that number.
#[derive(Clone, Copy)]
pub struct Budget {
    left: u32,
}

impl Model for Budget {
    ghost use Rattle.std.specs.Prelude.{ℕ, ◌≤◌};
    ghost use Rattle.sv_tree.specs.Depth.{most_depth};

    ghost Value = { ℕ };

    ghost view = { λ b. b.left };

    ghost invariant = { λ b. b.left ≤ most_depth };

    ghost inverse = { λ n. record { left = n } };
}

impl Budget {
    /// What may stand in a whole file.
    pub fn whole() -> Budget
        ensures { result ≡ most_depth }
    {
        Budget { left: MOST_DEPTH }
    }

    /// What is left at this depth.
    pub fn at(depth: u32) -> Budget
        requires { depth ≤ most_depth }
        ensures { result ≡ most_depth - depth }
    {
        Budget {
            left: MOST_DEPTH - depth,
        }
    }

    /// How much is left.
    pub fn left(self) -> u32
        ensures value { result ≡ self }
        ensures within { result ≤ most_depth }
    {
        self.left
    }

    /// What is left for a tree that is one deeper, which begins with these tokens.
    pub fn deeper<'a>(self, tokens: &'a [Token]) -> Result<Budget, ReadError<'a>>
        ensures { MatchResult result (λ b. (b + 1 ≡ self) × (self ≤ most_depth)) (λ e. (e ≡ TooDeep tokens.entry) × (self ≡ 0)) }
    {
        if self.left == 0 {
            return Err(ReadError::TooDeep(tokens));
        }
        Ok(Budget {
            left: self.left - 1,
        })
    }
}
