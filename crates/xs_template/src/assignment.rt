//! Output code that assigns the scalar.
ghost use Rattle.std.specs.List.{list_all};
ghost use Rattle.std.specs.Prelude.{◌≡◌};
ghost use Rattle.xs_template.specs.TemplatePieces as spec;

use crate::template::{Piece, Template};
use crate::variables::Variable;
use xs_base::{is_blank, starts_with};

// Whether a byte is a space, a tab or a line end.
fn is_gap(b: u8) -> bool
    ensures { result ≡ spec.is_gap b }
{
    is_blank(b) || b == b'\n'
}

fn are_gaps(text: &[u8]) -> bool
    ensures { result ≡ list_all spec.is_gap text.now }
{
    text.iter().all(|b| is_gap(*b))
}

// The text from its first byte on that is no gap.
fn after_gaps(text: &[u8]) -> &[u8]
    ensures { result.now ≡ spec.after_gaps text.now }
{
    let mut rest = text;
    while let [first, more @ ..] = rest {
        if !is_gap(*first) {
            return rest;
        }
        rest = more;
    }
    rest
}

// Whether a `=` stands in front, with no second `=` after it.
fn begins_equals(text: &[u8]) -> bool
    ensures { result ≡ spec.begins_equals text.now }
{
    starts_with(b"=", text) && !starts_with(b"==", text)
}

fn is_indent(piece: &Piece) -> bool
    ensures { result ≡ spec.is_indent piece.now }
{
    match piece {
        Piece::Text(text) => are_gaps(text.as_slice()),
        Piece::Named(_) => false,
    }
}

fn is_arg(piece: &Piece) -> bool
    ensures { result ≡ spec.is_arg piece.now }
{
    match piece {
        Piece::Named(Variable::Arg) => true,
        _ => false,
    }
}

fn assigns(piece: &Piece) -> bool
    ensures { result ≡ spec.assigns piece.now }
{
    match piece {
        Piece::Text(text) => begins_equals(after_gaps(text.as_slice())),
        Piece::Named(_) => false,
    }
}

fn begins_assignment(pieces: &[Piece]) -> bool
    ensures { result ≡ spec.begins_assignment pieces.now }
{
    match pieces {
        [first, second, ..] => is_arg(first) && assigns(second),
        _ => false,
    }
}

impl Template {
    /// Whether a template of output code is an assignment: after its indentation, `$arg` and a
    /// single `=` stand in front. All others are statements.
    pub fn is_assignment(&self) -> bool
        ensures { result ≡ spec.is_assignment self.now }
    {
        let pieces = self.pieces();
        match pieces {
            [] => false,
            [first, more @ ..] => {
                if is_indent(first) {
                    begins_assignment(more)
                } else {
                    begins_assignment(pieces)
                }
            }
        }
    }
}
