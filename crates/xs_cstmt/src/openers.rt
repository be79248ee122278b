//! The words of statements in which others stand, and of calls that do not come back.
ghost use Rattle.std.specs.Prelude.{◌≡◌};
ghost use Rattle.xs_cstmt.specs.StatementReader as spec;

use xs_cinput::{Cursor, is_word_kind, listed};

/// A statement in which others stand, by its first word.
#[derive(Clone, Copy, Debug, PartialEq, Eq)]
pub enum Opener {
    If,
    While,
    Do,
    For,
    Switch,
}

/// The words that such statements begin with (C11 6.8.4, 6.8.5).
pub const OPENERS: [(&str, Opener); 5] = [
    ("if", Opener::If),
    ("while", Opener::While),
    ("do", Opener::Do),
    ("for", Opener::For),
    ("switch", Opener::Switch),
];

/// Calls that do not come back (perlapi, perlxs).
pub const LEAVING_CALLS: [&str; 4] = ["croak", "Perl_croak", "Perl_croak_nocontext", "XSRETURN"];

/// The statement with others in it that begins with the next word, if one does.
#[tactic(auto, unfolding(crate::specs::StatementReader::opener, crate::specs::StatementReader::openers))]
pub fn opener_ahead(cursor: &Cursor<'_, '_>) -> Option<Opener>
    ensures { result ≡ spec.opener cursor.now }
{
    let first = cursor.first()?;
    if is_word_kind(&first.kind) {
        listed(&OPENERS, first.text.as_slice())
    } else {
        None
    }
}
