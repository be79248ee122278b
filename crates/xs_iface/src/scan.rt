//! Words with a divider between them.
ghost use Rattle.std.specs.Prelude.{◌≡◌, IfOk};
ghost use Rattle.xs_iface.specs.Scan.{chain_of};

use std::alloc::Global;
use xs_base::{ByteClass, Bytes, Items, Memory, cut_run, strip_prefix};

/// The words in front of a text, as far as the divider stands between them, and what stands after
/// the last.
#[tactic(auto, unfolding(crate::specs::Scan::chain_of))]
pub fn read_chain<'a>(
    alloc: Global,
    divider: &[u8],
    text: &'a [u8],
) -> Result<(Items<Bytes>, &'a [u8]), Memory>
    ensures { IfOk result (λ chain. chain_of divider.now text.now ≡ (chain.0, chain.1.now)) }
{
    let mut words = Items::new(alloc);
    let mut rest = text;
    for _turn in 0..text.len() {
        let (word, after) = cut_run(ByteClass::Word, rest);
        words.push(Bytes::from_slice(alloc, word)?)?;
        match strip_prefix(divider, after) {
            Some(next) => rest = next,
            None => return Ok((words, after)),
        }
    }
    Ok((words, rest))
}
