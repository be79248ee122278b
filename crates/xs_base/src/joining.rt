//! Texts that are made of texts.
ghost use Rattle.std.specs.List.{concat, flat_map, join_by};
ghost use Rattle.std.specs.Prelude.{◌≡◌, ◌++◌, IfOk, decimal, map};

use crate::{Bytes, Memory};
use std::alloc::Global;

/// Texts one after the other.
#[tactic(auto, using(std::proofs::Common::append_assoc))]
pub fn together(alloc: Global, pieces: &[&[u8]]) -> Result<Bytes, Memory>
    ensures { IfOk result (λ text. text ≡ concat (map (λ piece. piece.now) pieces.now)) }
{
    let mut text = Bytes::new(alloc);
    for piece in pieces {
        text.append(piece)?;
    }
    Ok(text)
}

/// Texts with a separator between each two.
#[tactic(auto, using(std::proofs::Common::append_assoc))]
pub fn join(alloc: Global, separator: &[u8], pieces: &[&[u8]]) -> Result<Bytes, Memory>
    ensures { IfOk result (λ text. text ≡ join_by (λ piece. piece.now) separator.now pieces.now) }
{
    let mut text = Bytes::new(alloc);
    if let [first, more @ ..] = pieces {
        text.append(first)?;
        text.append(each_after(alloc, separator, more)?.as_slice())?;
    }
    Ok(text)
}

// Texts with a separator in front of each.
#[tactic(auto, using(std::proofs::Common::append_assoc))]
fn each_after(alloc: Global, separator: &[u8], pieces: &[&[u8]]) -> Result<Bytes, Memory>
    ensures { IfOk result (λ text. text
        ≡ flat_map (λ piece. separator.now ++ piece.now) pieces.now) }
{
    let mut text = Bytes::new(alloc);
    for piece in pieces {
        text.append(separator)?;
        text.append(piece)?;
    }
    Ok(text)
}

/// A number in decimal.
pub fn decimal_text(alloc: Global, n: u64) -> Result<Bytes, Memory>
    ensures { IfOk result (λ text. text ≡ decimal n) }
{
    let mut text = Bytes::new(alloc);
    text.append_number(alloc, n)?;
    Ok(text)
}
