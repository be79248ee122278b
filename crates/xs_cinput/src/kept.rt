//! The tokens that the grammar reads: those that are not dropped.
ghost use Rattle.std.specs.Option.{option_copied};
ghost use Rattle.std.specs.Prelude.{◌≡◌, slice_get};
ghost use Rattle.xs_base.specs.Readers.{tail};
ghost use Rattle.xs_cinput.specs.TokenInput as spec;

use crate::token_tests::{is_passed, is_passed_pair};
use std::marker::Model;
use xs_ctok::Token;

/// The tokens that are left. Contracts see those that are not dropped.
#[derive(Drop)]
pub struct Kept<'a> {
    rest: &'a [Token],
    whole: bool,
}

impl<'a> Model for Kept<'a> {
    ghost use Rattle.std.specs.Prelude.{◌≡◌, List};
    ghost use Rattle.xs_cinput.specs.TokenInput.{is_settled, kept};
    ghost use Rattle.xs_ctok.specs.declared.token.Token.{Token};

    ghost Value = { List Token };

    ghost view = { λ k. kept k.whole k.rest.now };

    ghost invariant = { λ k. is_settled k.whole k.rest.now };
}

// The tokens from the first one on that is not dropped.
fn settled(whole: bool, tokens: &[Token]) -> &[Token]
    ensures same { spec.kept whole result.now ≡ spec.kept whole tokens.now }
    ensures settled { spec.is_settled whole result.now }
{
    let mut rest = tokens;
    while let [first, after @ ..] = rest {
        if is_passed(whole, first) {
            rest = after;
        } else if is_passed_pair(first, after) {
            rest = after_first(after);
        } else {
            return rest;
        }
    }
    rest
}

// What stands after the first token, if there is one.
fn after_first(tokens: &[Token]) -> &[Token]
    ensures { result.now ≡ tail tokens.now }
{
    match tokens {
        [] => tokens,
        [_, after @ ..] => after,
    }
}

impl<'a> Kept<'a> {
    /// All of these tokens. Lines that are passed over are dropped where they are a whole file.
    pub fn new(tokens: &'a [Token], whole: bool) -> Kept<'a>
        ensures { result ≡ spec.kept whole tokens.now }
    {
        Kept {
            rest: settled(whole, tokens),
            whole,
        }
    }

    /// The same tokens again.
    pub fn ahead(&self) -> Kept<'a>
        ensures { result ≡ self.now }
    {
        Kept {
            rest: self.rest,
            whole: self.whole,
        }
    }

    /// The first token that is left, if there is one.
    pub fn first(&self) -> Option<&'a Token>
        ensures { option_copied result ≡ slice_get self.now 0 }
    {
        self.rest.first()
    }

    /// Passes over the first token, if there is one.
    pub fn skip(&mut self)
        ensures { self.new ≡ tail self.old }
    {
        if let [_, after @ ..] = self.rest {
            self.rest = settled(self.whole, after);
        }
    }
}
