//! What is left of a list of tokens that is read from the front.
ghost use Rattle.std.specs.Option.{option_copied};
ghost use Rattle.std.specs.Prelude.{◌≡◌, ◌≤◌, drop, length, slice_get};
ghost use Rattle.xs_base.specs.Readers.{tail};

use std::marker::Model;

/// The tokens that are left, of any type. Contracts see the list of them.
#[derive(Drop)]
pub struct TokenList<'a, T> {
    rest: &'a [T],
}

impl<'a, T> Model for TokenList<'a, T> {
    ghost use Rattle.std.specs.Coded.{coded_list};
    ghost use Rattle.std.specs.Prelude.{List};

    ghost Value = { List T };

    ghost coded = { coded_list T.code };

    ghost view = { λ c. c.rest.now };
}

impl<'a, T> TokenList<'a, T> {
    /// All tokens of a list.
    pub fn new(rest: &'a [T]) -> TokenList<'a, T>
        ensures { result ≡ rest.now }
    {
        TokenList { rest }
    }

    /// The tokens, borrowed.
    pub fn as_slice(&self) -> &'a [T]
        ensures { result.now ≡ self.now }
    {
        self.rest
    }

    /// How many tokens are left.
    pub fn len(&self) -> usize
        ensures { result ≡ length self.now }
    {
        self.rest.len()
    }

    /// The first token that is left, if there is one.
    pub fn first(&self) -> Option<&'a T>
        ensures { option_copied result ≡ slice_get self.now 0 }
    {
        self.rest.first()
    }

    /// Passes over the first token, if there is one.
    pub fn skip(&mut self)
        ensures { self.new ≡ tail self.old }
    {
        if let [_, rest @ ..] = self.rest {
            self.rest = rest;
        }
    }

    /// Passes over so many tokens.
    pub fn skip_many(&mut self, count: usize)
        requires { count ≤ length self.old }
        ensures { self.new ≡ drop count self.old }
    {
        self.rest = self.rest.split_at(count).1;
    }
}
