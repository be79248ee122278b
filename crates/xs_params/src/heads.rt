//! What stands before the name of a parameter, and the parameter.
ghost use Rattle.std.specs.Prelude.{◌≡◌, IfOk};
ghost use Rattle.xs_params.specs.ParamSteps as spec;

use crate::param::{Dir, Param, Preset};
use crate::states::{Head, Named, Typed};
use std::alloc::Global;
use xs_base::{Bytes, Memory};
use xs_ctok::Token;

/// Nothing but a direction, if one, with the first word after it on this line.
pub fn bare_head(dir: Option<Dir>, type_line: u32) -> Head
    ensures { result ≡ spec.bare_head dir type_line }
{
    Head {
        dir,
        ctype: None,
        type_line,
    }
}

/// A parameter that has this token as its name.
pub fn named(alloc: Global, head: Head, by_address: bool, t: &Token) -> Result<Named, Memory>
    ensures { IfOk result (λ n. n ≡ spec.named head by_address t.now) }
{
    let name = t.text.copy(alloc)?;
    Ok(Named {
        head,
        name,
        line: t.span.line,
        by_address,
    })
}

// A word of a type, with one space before it where others stand before it.
#[tactic(auto, using(std::proofs::Common::append_assoc))]
fn with_word(words: Option<Bytes>, word: Bytes) -> Result<Bytes, Memory>
    ensures { IfOk result (λ text. text ≡ spec.with_word words word) }
{
    match words {
        None => Ok(word),
        Some(words) => {
            let mut text = words;
            text.append(b" ")?;
            text.append(word.as_slice())?;
            Ok(text)
        }
    }
}

/// The type of which the name was a word.
pub fn typed_of(n: Named) -> Result<Typed, Memory>
    ensures { IfOk result (λ typed. typed ≡ spec.typed_of n) }
{
    let Named { head, name, .. } = n;
    let Head {
        dir,
        ctype,
        type_line,
    } = head;
    let ctype = with_word(ctype, name)?;
    Ok(Typed {
        dir,
        ctype,
        type_line,
    })
}

/// The type with these bytes after it.
pub fn with_stars(stars: &[u8], typed: Typed) -> Result<Typed, Memory>
    ensures { IfOk result (λ longer. longer ≡ spec.with_stars stars.now typed) }
{
    let Typed {
        dir,
        ctype,
        type_line,
    } = typed;
    let mut text = ctype;
    text.append(stars)?;
    Ok(Typed {
        dir,
        ctype: text,
        type_line,
    })
}

/// What stands before a name after a type.
pub fn head_of(typed: Typed) -> Head
    ensures { result ≡ spec.head_of typed }
{
    Head {
        dir: typed.dir,
        ctype: Some(typed.ctype),
        type_line: typed.type_line,
    }
}

fn dir_or_in(dir: Option<Dir>) -> Dir
    ensures { result ≡ spec.dir_or_in dir }
{
    match dir {
        Some(dir) => dir,
        None => Dir::In,
    }
}

/// A parameter with a default, or none.
pub fn param_with(default: Option<Preset>, is_length: bool, n: Named) -> Param
    ensures { result ≡ spec.param_with default is_length n }
{
    let Named {
        head,
        name,
        line,
        by_address,
    } = n;
    Param {
        name,
        ctype: head.ctype,
        dir: dir_or_in(head.dir),
        default,
        is_length,
        by_address,
        line,
        type_line: head.type_line,
    }
}
