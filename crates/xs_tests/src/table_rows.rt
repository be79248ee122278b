//! Rows of a table that is one text: two halves with a mark between, and `/` for each line end.

use std::alloc::Global;
use std::test::Fail;
use xs_base::{Bytes, Memory};

/// What stands before the first mark of a row, and what stands after it.
pub fn halves(row: &[u8], mark: u8) -> Result<(&[u8], &[u8]), Fail> {
    let Some(at) = row.iter().position(|b| *b == mark) else {
        return Err("a row without its mark".into());
    };
    Ok((&row[..at], &row[at + 1..]))
}

/// The text of a half, with line ends for `/`.
pub fn text_of(alloc: Global, half: &[u8]) -> Result<Bytes, Memory> {
    let mut out = Bytes::new(alloc);
    for b in half {
        out.append(if *b == b'/' {
            b"\n".as_slice()
        } else {
            std::slice::from_ref(b)
        })?;
    }
    Ok(out)
}
