//! The formats that a croak's text may have (perlapi, "croak").
ghost use Rattle.std.specs.Prelude.{◌≡◌, ◌<◌, ◌≤◌, IfOk, IfSome, length, map, option_map};
ghost use Rattle.xs_perlapi.specs.Formats as spec;

use crate::row::ApiType;
use std::alloc::Global;
use xs_base::{Memory, starts_with};
use xs_values::Kind;

/// The formats, each with the type of the operand that it takes, if it takes one.
pub static FORMATS: [(&str, Option<ApiType>); 6] = [
    ("%s", Some(ApiType::Text)),
    ("%d", Some(ApiType::Number(Kind::I32))),
    ("%u", Some(ApiType::Number(Kind::U32))),
    ("%ld", Some(ApiType::Number(Kind::I64))),
    ("%lu", Some(ApiType::Number(Kind::U64))),
    ("%%", None),
];

/// A format: the type of the operand that it takes, if it takes one, and how many bytes it has.
#[derive(Clone, Copy, Debug, PartialEq, Eq)]
pub struct Format {
    pub operand: Option<ApiType>,
    pub size: usize,
}

// The first of these formats that a text begins with.
fn first_format(formats: &[(&str, Option<ApiType>)], text: &[u8]) -> Option<Format>
    ensures { result ≡ spec.first_format (map spec.entry_view formats.now) text.now }
{
    for format in formats {
        let spelling = format.0.as_bytes();
        if starts_with(spelling, text) {
            return Some(Format {
                operand: format.1,
                size: spelling.len(),
            });
        }
    }
    None
}

/// The format that a text begins with.
#[tactic(auto, unfolding(crate::specs::Formats::format_at, crate::specs::Formats::formats))]
pub fn format_at(text: &[u8]) -> Option<Format>
    ensures { result ≡ spec.format_at text.now }
{
    first_format(&FORMATS, text)
}

/// A part of a croak's text: a byte that stands for itself, or the place of an operand of a type.
#[derive(Clone, Copy, Debug, PartialEq, Eq)]
pub enum Piece {
    Byte(u8),
    Operand(ApiType),
}

/// A part in front of a text, and how many bytes it has.
#[derive(Clone, Copy, Debug, PartialEq, Eq)]
pub struct PieceFront {
    pub piece: Piece,
    pub size: usize,
}

// What a format is in a text: the place of its operand, or the byte `%`.
fn piece_of(operand: Option<ApiType>) -> Piece
    ensures { result ≡ spec.piece_of operand }
{
    match operand {
        Some(t) => Piece::Operand(t),
        None => Piece::Byte(b'%'),
    }
}

// The part in front of a text, where its first byte is of one.
#[tactic(auto, using(crate::proofs::CroakTexts::format_within))]
fn piece_at(text: &[u8]) -> Option<PieceFront>
    ensures value { result ≡ spec.piece_at text.now }
    ensures within { IfSome result (λ f. (0 < f.size) × (f.size ≤ length text.now)) }
{
    let [first, ..] = text else {
        return None;
    };
    match format_at(text) {
        Some(format) => Some(PieceFront {
            piece: piece_of(format.operand),
            size: format.size,
        }),
        None => {
            if *first == b'%' {
                None
            } else {
                Some(PieceFront {
                    piece: Piece::Byte(*first),
                    size: 1,
                })
            }
        }
    }
}

/// The parts of a croak's text, where each `%` in it begins a format.
#[tactic(auto, unfolding(crate::specs::Formats::pieces_of))]
pub fn croak_pieces(alloc: Global, text: &[u8]) -> Result<Option<Vec<Piece>>, Memory>
    ensures { IfOk result (λ all. option_map (λ v. v.items) all ≡ spec.pieces_of text.now) }
{
    let mut all = Vec::new(alloc);
    let mut rest = text;
    while !rest.is_empty() {
        let Some(front) = piece_at(rest) else {
            return Ok(None);
        };
        all.push(front.piece)?;
        rest = rest.split_at(front.size).1;
    }
    Ok(Some(all))
}
