//! The tokens that are left, and what stands around them.
ghost use Rattle.std.specs.Option.{option_copied};
ghost use Rattle.std.specs.Prelude.{◌≡◌, ◌^◌, ◌<◌, slice_get};
ghost use Rattle.xs_base.specs.Readers.{tail};
ghost use Rattle.xs_base.specs.declared.fault.Refuse.TheVariants as refuse;
ghost use Rattle.xs_base.specs.declared.fault_codes.TheConstants.{NESTED_TOO_DEEP, NO_READING_HERE};
ghost use Rattle.xs_cinput.specs.TokenInput as spec;
ghost use Rattle.xs_cinput.specs.TokenInput.{Reads};
ghost use Rattle.xs_cinput.specs.TypeReader as types;

use crate::kept::Kept;
use crate::token_tests::{is_name, is_sign, is_type, is_variable, is_word};
use crate::type_names::TypeNames;
use std::alloc::Global;
use std::marker::Model;
use xs_base::fault_codes::{NESTED_TOO_DEEP, NO_READING_HERE};
use xs_base::{Bytes, Fault, FileOf, Refuse};
use xs_ctok::Token;

/// The tokens that are left, the names of the types that are declared, the file, the line of a
/// fault at the early end, and turns enough for a loop that consumes a token in each.
#[derive(Drop)]
pub struct Cursor<'t, 'n> {
    rest: Kept<'t>,
    types: &'n TypeNames,
    file: FileOf,
    last: u32,
    turns: usize,
}

impl<'t, 'n> Model for Cursor<'t, 'n> {
    ghost use Rattle.std.specs.Prelude.{◌^◌, ◌<◌};
    ghost use Rattle.xs_cinput.specs.TokenInput.{Input};

    ghost Value = { Input };

    ghost view = { λ c. record {
      rest = c.rest;
      types = c.types.now;
      file = c.file;
      last = c.last;
      turns = c.turns;
    } };

    ghost invariant = { λ c. c.turns < 2 ^ 32 };
}

impl<'t, 'n> Cursor<'t, 'n> {
    /// These tokens with these types.
    pub fn new(
        rest: Kept<'t>,
        types: &'n TypeNames,
        file: FileOf,
        last: u32,
        turns: usize,
    ) -> Cursor<'t, 'n>
        requires { turns < 2 ^ 32 }
        ensures { result ≡ record {
          rest = rest.entry;
          types = types.now;
          file = file;
          last = last;
          turns = turns;
        } }
    {
        Cursor {
            rest,
            types,
            file,
            last,
            turns,
        }
    }

    /// The tokens that are left.
    pub fn into_rest(self) -> Kept<'t>
        ensures { result ≡ self.entry.rest }
    {
        let Cursor { rest, .. } = self;
        rest
    }

    /// The tokens after the next one.
    #[tactic(auto, unfolding(crate::specs::TokenInput::next))]
    pub fn rest_after(&self) -> Kept<'t>
        ensures { result ≡ tail self.now.rest }
    {
        let mut rest = self.rest.ahead();
        rest.skip();
        rest
    }

    /// The types that are declared.
    pub fn types(&self) -> &'n TypeNames
        ensures { result.now ≡ self.now.types }
    {
        self.types
    }

    /// A cursor of its own at the same token.
    pub fn ahead(&self) -> Cursor<'t, 'n>
        ensures { result ≡ self.now }
    {
        Cursor {
            rest: self.rest.ahead(),
            types: self.types,
            file: self.file,
            last: self.last,
            turns: self.turns,
        }
    }

    /// The next token, if there is one.
    pub fn first(&self) -> Option<&'t Token>
        ensures { option_copied result ≡ slice_get self.now.rest 0 }
    {
        self.rest.first()
    }

    /// Turns enough for a loop that consumes a token in each.
    pub fn turns(&self) -> usize
        ensures turns { result ≡ self.now.turns }
        ensures few { result < 2 ^ 32 }
    {
        self.turns
    }

    /// Whether no token is left.
    #[tactic(auto, unfolding(crate::specs::TokenInput::at_end))]
    pub fn at_end(&self) -> bool
        ensures { result ≡ spec.at_end self.now }
    {
        match self.rest.first() {
            None => true,
            Some(_) => false,
        }
    }

    /// The line of the next token, or of the early end.
    #[tactic(auto, unfolding(crate::specs::TokenInput::line))]
    pub fn line(&self) -> u32
        ensures { result ≡ spec.line self.now }
    {
        match self.rest.first() {
            None => self.last,
            Some(first) => first.span.line,
        }
    }

    /// Whether this punctuator comes next.
    #[tactic(auto, unfolding(crate::specs::TokenInput::sees))]
    pub fn sees(&self, text: &[u8]) -> bool
        ensures { result ≡ spec.sees text.now self.now }
    {
        match self.rest.first() {
            None => false,
            Some(first) => is_sign(text, first),
        }
    }

    /// Whether this word comes next.
    #[tactic(auto, unfolding(crate::specs::TokenInput::sees_word))]
    pub fn sees_word(&self, text: &[u8]) -> bool
        ensures { result ≡ spec.sees_word text.now self.now }
    {
        match self.rest.first() {
            None => false,
            Some(first) => is_word(text, first),
        }
    }

    /// Whether a word comes next that may be a name of something.
    #[tactic(auto, unfolding(crate::specs::TokenInput::sees_name))]
    pub fn sees_name(&self) -> bool
        ensures { result ≡ spec.sees_name self.now }
    {
        match self.rest.first() {
            None => false,
            Some(first) => is_name(first),
        }
    }

    /// Whether a type comes next.
    #[tactic(auto, unfolding(crate::specs::TokenInput::sees_type))]
    pub fn sees_type(&self) -> bool
        ensures { result ≡ spec.sees_type self.now }
    {
        match self.rest.first() {
            None => false,
            Some(first) => is_type(self.types, first),
        }
    }

    /// Whether a word comes next that may be the name of a variable, a parameter or what is called.
    #[tactic(auto, unfolding(crate::specs::TokenInput::sees_variable))]
    pub fn sees_variable(&self) -> bool
        ensures { result ≡ spec.sees_variable self.now }
    {
        match self.rest.first() {
            None => false,
            Some(first) => is_variable(self.types, first),
        }
    }

    /// The fault of this code at the next token.
    #[tactic(auto, unfolding(crate::specs::TokenInput::fault))]
    pub fn fault(&self, alloc: Global, code: u16) -> Refuse
        ensures { result ≡ refuse.Fault (spec.fault code self.now) }
    {
        Refuse::Fault(Fault::bare(alloc, self.file, self.line(), code))
    }

    /// The fault of a token with no reading.
    pub fn refuse(&self, alloc: Global) -> Refuse
        ensures { result ≡ refuse.Fault (spec.fault NO_READING_HERE self.now) }
    {
        self.fault(alloc, NO_READING_HERE)
    }

    /// The fault of what would stand too deep.
    pub fn too_deep(&self, alloc: Global) -> Refuse
        ensures { result ≡ refuse.Fault (spec.fault NESTED_TOO_DEEP self.now) }
    {
        self.fault(alloc, NESTED_TOO_DEEP)
    }

    /// Passes over the next token, if there is one.
    #[tactic(auto, unfolding(crate::specs::TokenInput::next))]
    pub fn skip(&mut self)
        ensures { self.new ≡ spec.next self.old }
    {
        self.rest.skip();
    }

    /// Consumes the next token, if there is one, and gives its text.
    #[tactic(auto, unfolding(crate::specs::TokenInput::next, crate::specs::TokenInput::spelling))]
    pub fn take(&mut self) -> &'t [u8]
        ensures text { result.now ≡ spec.spelling self.old }
        ensures next { self.new ≡ spec.next self.old }
    {
        match self.rest.first() {
            None => {
                self.rest.skip();
                &[]
            }
            Some(first) => {
                self.rest.skip();
                first.text.as_slice()
            }
        }
    }

    /// Consumes this punctuator, if it comes next.
    #[tactic(auto, unfolding(crate::specs::TokenInput::after))]
    pub fn eat(&mut self, text: &[u8]) -> bool
        ensures found { result ≡ spec.sees text.now self.old }
        ensures after { self.new ≡ spec.after text.now self.old }
    {
        let found = self.sees(text);
        if found {
            self.skip();
        }
        found
    }

    /// Passes over the next token, which has to be the one that is expected.
    pub fn passed(&mut self, alloc: Global, is_expected: bool) -> Result<(), Refuse>
        ensures { Reads (λ u. u) (spec.passed is_expected self.old) result self.new }
    {
        if is_expected {
            self.skip();
            Ok(())
        } else {
            Err(self.refuse(alloc))
        }
    }

    // Consumes the next token, which has to be the one that is expected, and gives its text.
    fn consumed(&mut self, alloc: Global, is_expected: bool) -> Result<Bytes, Refuse>
        ensures { Reads (λ b. b) (spec.consumed is_expected self.old) result self.new }
    {
        if is_expected {
            Ok(Bytes::from_slice(alloc, self.take())?)
        } else {
            Err(self.refuse(alloc))
        }
    }

    /// Consumes this punctuator, which has to come next.
    #[tactic(auto, unfolding(crate::specs::TokenInput::expect))]
    pub fn expect(&mut self, alloc: Global, text: &[u8]) -> Result<(), Refuse>
        ensures { Reads (λ u. u) (spec.expect text.now self.old) result self.new }
    {
        let is_expected = self.sees(text);
        self.passed(alloc, is_expected)
    }

    /// Consumes this word, which has to come next.
    #[tactic(auto, unfolding(crate::specs::TokenInput::expect_word))]
    pub fn expect_word(&mut self, alloc: Global, text: &[u8]) -> Result<(), Refuse>
        ensures { Reads (λ u. u) (spec.expect_word text.now self.old) result self.new }
    {
        let is_expected = self.sees_word(text);
        self.passed(alloc, is_expected)
    }

    /// Consumes a word that may be a name of something, which has to come next.
    #[tactic(auto, unfolding(crate::specs::TokenInput::a_name))]
    pub fn name(&mut self, alloc: Global) -> Result<Bytes, Refuse>
        ensures { Reads (λ b. b) (spec.a_name self.old) result self.new }
    {
        let is_expected = self.sees_name();
        self.consumed(alloc, is_expected)
    }

    /// Consumes the name of a variable, a parameter or what is called, which has to come next.
    #[tactic(auto, unfolding(crate::specs::TokenInput::a_variable))]
    pub fn variable(&mut self, alloc: Global) -> Result<Bytes, Refuse>
        ensures { Reads (λ b. b) (spec.a_variable self.old) result self.new }
    {
        let is_expected = self.sees_variable();
        self.consumed(alloc, is_expected)
    }

    /// Consumes a word of a type, which has to come next.
    pub fn type_word(&mut self, alloc: Global) -> Result<Bytes, Refuse>
        ensures { Reads (λ b. b) (types.a_type_word self.old) result self.new }
    {
        let is_expected = self.sees_type();
        self.consumed(alloc, is_expected)
    }
}
