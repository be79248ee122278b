//! The parts that are left of a line.
ghost use Rattle.std.specs.Prelude.{◌≡◌, ◌<◌, ◌^◌, MatchOption, None, Some};
ghost use Rattle.xs_script.specs.PartInput as spec;
ghost use Rattle.xs_script.specs.PartInput.{Reads};

use crate::line_part::{Kind, Mark, Stop, Token};
use crate::scope::{Scope, is_alive};
use std::alloc::Global;
use std::marker::Model;
use xs_base::{Bytes, TokenList};

/// The parts that are left, and what was met so far that is at fault in a line with a reading.
#[derive(Drop)]
pub struct Cursor<'a> {
    rest: TokenList<'a, Token>,
    scope: &'a Scope,
    met: Met,
}

impl<'a> Model for Cursor<'a> {
    ghost use Rattle.xs_script.specs.PartInput.{Input};

    ghost Value = { Input };

    ghost view = { λ c. record {
      rest = c.rest;
      scope = c.scope.now;
      unknown = c.met.unknown;
      beyond = c.met.beyond;
      deepest = c.met.deepest;
    } };
}

/// What was met in a line that is at fault although the line has a reading.
#[derive(Drop)]
pub struct Met {
    /// The first variable that is not known.
    pub unknown: Option<Bytes>,
    /// The first number out of its range.
    pub beyond: Option<Bytes>,
    /// The most brackets that stood open.
    pub deepest: usize,
}

// The last byte of a mark.
fn mark_byte(mark: Mark) -> u8
    ensures { result ≡ spec.mark_byte mark }
{
    match mark {
        Mark::Equals => b'=',
        Mark::Arrow => b'>',
        Mark::OpenRound => b'(',
        Mark::CloseRound => b')',
        Mark::OpenSquare => b'[',
        Mark::CloseSquare => b']',
        Mark::OpenCurly => b'{',
        Mark::CloseCurly => b'}',
        Mark::Comma => b',',
        Mark::Semicolon => b';',
        Mark::Backslash => b'\\',
    }
}

fn is_mark(mark: Mark, token: &Token) -> bool
    ensures { result ≡ spec.is_mark mark token.now }
{
    match token {
        Token::Mark(other) => mark_byte(mark) == mark_byte(*other),
        _ => false,
    }
}

fn is_word(word: &[u8], token: &Token) -> bool
    ensures { result ≡ spec.is_word word.now token.now }
{
    match token {
        Token::Name(name) => name.as_slice() == word,
        _ => false,
    }
}

fn kind_of_token(token: &Token) -> Kind
    ensures { result ≡ spec.kind_of_token token.now }
{
    match token {
        Token::Name(_) => Kind::Name,
        Token::Number(_) => Kind::Number,
        Token::Text(_) => Kind::Text,
        Token::Mark(_) => Kind::Mark,
    }
}

// The bytes of a part, if it is of this kind.
fn bytes_in(kind: Kind, token: &Token) -> Option<&Bytes>
    ensures { MatchOption result (spec.bytes_in kind token.now
        ≡ None) (λ bytes. spec.bytes_in kind token.now ≡ Some bytes.now) }
{
    match (kind, token) {
        (Kind::Name, Token::Name(bytes)) => Some(bytes),
        (Kind::Number, Token::Number(bytes)) => Some(bytes),
        (Kind::Text, Token::Text(bytes)) => Some(bytes),
        _ => None,
    }
}

/// Whether a part of this kind names a sub.
pub fn names_sub(kind: Kind) -> bool
    ensures { result ≡ spec.names_sub kind }
{
    match kind {
        Kind::Name | Kind::Text => true,
        Kind::Number | Kind::Mark | Kind::End => false,
    }
}

impl<'a> Cursor<'a> {
    /// The parts of a line, after what the lines before have declared.
    pub fn new(rest: &'a [Token], scope: &'a Scope) -> Cursor<'a>
        ensures { result ≡ spec.start_of scope.now rest.now }
    {
        Cursor {
            rest: TokenList::new(rest),
            scope,
            met: Met {
                unknown: None,
                beyond: None,
                deepest: 0,
            },
        }
    }

    /// What was met.
    pub fn into_met(self) -> Met
        ensures { spec.met self.entry ≡ result }
    {
        let Cursor { met, .. } = self;
        met
    }

    /// How many parts are left.
    #[tactic(auto, unfolding(crate::specs::PartInput::left))]
    pub fn left(&self) -> usize
        ensures value { result ≡ spec.left self.now }
        ensures few { result < 2 ^ 63 }
    {
        self.rest.as_slice().len()
    }

    /// What kind of part comes next.
    #[tactic(auto, unfolding(crate::specs::PartInput::kind_of))]
    pub fn kind(&self) -> Kind
        ensures { result ≡ spec.kind_of self.now }
    {
        match self.rest.first() {
            None => Kind::End,
            Some(first) => kind_of_token(first),
        }
    }

    /// What kind of part comes after the next.
    #[tactic(auto, unfolding(crate::specs::PartInput::kind_of, crate::specs::PartInput::next))]
    pub fn kind_after(&self) -> Kind
        ensures { result ≡ spec.kind_of (spec.next self.now) }
    {
        match self.rest.as_slice() {
            [] | [_] => Kind::End,
            [_, second, ..] => kind_of_token(second),
        }
    }

    /// Whether this mark comes next.
    #[tactic(auto, unfolding(crate::specs::PartInput::sees))]
    pub fn sees(&self, mark: Mark) -> bool
        ensures { result ≡ spec.sees mark self.now }
    {
        match self.rest.first() {
            None => false,
            Some(first) => is_mark(mark, first),
        }
    }

    /// Whether this word comes next.
    #[tactic(auto, unfolding(crate::specs::PartInput::sees_word))]
    pub fn sees_word(&self, word: &[u8]) -> bool
        ensures { result ≡ spec.sees_word word.now self.now }
    {
        match self.rest.first() {
            None => false,
            Some(first) => is_word(word, first),
        }
    }

    // Passes over the next part, if there is one, where this is so.
    #[tactic(auto, unfolding(crate::specs::PartInput::next))]
    fn skip_if(&mut self, found: bool)
        ensures { self.new ≡ spec.past found self.old }
    {
        if found {
            self.rest.skip();
        }
    }

    /// Consumes this mark, if it comes next.
    #[tactic(auto, unfolding(crate::specs::PartInput::after))]
    pub fn eat(&mut self, mark: Mark) -> bool
        ensures found { result ≡ spec.sees mark self.old }
        ensures after { self.new ≡ spec.after mark self.old }
    {
        let found = self.sees(mark);
        self.skip_if(found);
        found
    }

    /// Consumes this word, if it comes next.
    #[tactic(auto, unfolding(crate::specs::PartInput::after_word))]
    pub fn eat_word(&mut self, word: &[u8]) -> bool
        ensures found { result ≡ spec.sees_word word.now self.old }
        ensures after { self.new ≡ spec.after_word word.now self.old }
    {
        let found = self.sees_word(word);
        self.skip_if(found);
        found
    }

    /// Consumes this mark, which has to come next.
    #[tactic(auto, unfolding(crate::specs::PartInput::expect, crate::specs::PartInput::after))]
    pub fn expect(&mut self, mark: Mark) -> Result<(), Stop>
        ensures { Reads (λ u. u) (spec.expect mark self.old) result self.new }
    {
        if self.eat(mark) {
            Ok(())
        } else {
            Err(Stop::Unread)
        }
    }

    /// The bytes of the next part, which is of this kind.
    #[tactic(auto, unfolding(crate::specs::PartInput::part, crate::specs::PartInput::next))]
    pub fn part(&mut self, alloc: Global, kind: Kind) -> Result<Bytes, Stop>
        ensures { Reads (λ b. b) (spec.part kind self.old) result self.new }
    {
        let Some(first) = self.rest.first() else {
            return Err(Stop::Unread);
        };
        match bytes_in(kind, first) {
            Some(bytes) => {
                let copy = bytes.copy(alloc)?;
                self.rest.skip();
                Ok(copy)
            }
            None => Err(Stop::Unread),
        }
    }

    /// The name of a sub: a name, or a text in quotes.
    #[tactic(auto, unfolding(crate::specs::PartInput::sub_name))]
    pub fn sub_name(&mut self, alloc: Global) -> Result<Bytes, Stop>
        ensures { Reads (λ b. b) (spec.sub_name self.old) result self.new }
    {
        let kind = self.kind();
        if names_sub(kind) {
            self.part(alloc, kind)
        } else {
            Err(Stop::Unread)
        }
    }

    /// A variable is named here.
    #[tactic(auto, unfolding(crate::specs::PartInput::named))]
    pub fn named(&mut self, alloc: Global, name: &[u8]) -> Result<(), Stop>
        ensures { Reads (λ u. u) (spec.noted (spec.named name.now) self.old) result self.new }
    {
        if self.met.unknown.is_none() && !is_alive(self.scope, name) {
            self.met.unknown = Some(Bytes::from_slice(alloc, name)?);
        }
        Ok(())
    }

    /// A number out of its range stands here.
    #[tactic(auto, unfolding(crate::specs::PartInput::exceeded))]
    pub fn exceeded(&mut self, number: Bytes)
        ensures { self.new ≡ spec.exceeded number self.old }
    {
        if self.met.beyond.is_none() {
            self.met.beyond = Some(number);
        }
    }

    /// So many brackets stand open here.
    #[tactic(auto, unfolding(crate::specs::PartInput::opened))]
    pub fn opened(&mut self, brackets: usize)
        ensures { self.new ≡ spec.opened brackets self.old }
    {
        self.met.deepest = self.met.deepest.max(brackets);
    }
}
