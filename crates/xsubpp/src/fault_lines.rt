//! The lines by which faults are reported.
ghost use Rattle.std.specs.Fmt.{decimal};
ghost use Rattle.std.specs.Prelude.{◌≡◌, ◌++◌, IfOk, OnOk};
ghost use Rattle.xs_base.specs.FaultTexts.{text_of};
ghost use Rattle.xsubpp.specs.Answers.{after_code, fault_line, file_line, word_text};

use std::alloc::Global;
use xs_base::{Bytes, Fault, Memory, fault_text};

/// `FILE:LINE: CODE TEXT`, and `: WORD` where the fault has a word, with a line end.
#[tactic(auto, using(std::proofs::Common::append_assoc), unfolding(crate::specs::Answers::fault_line))]
pub fn fault_line(alloc: Global, name: &Bytes, fault: &Fault) -> Result<Bytes, Memory>
    ensures { IfOk result (λ line. line ≡ fault_line name.now fault.now) }
{
    let mut line = name.copy(alloc)?;
    line.append(b":")?;
    line.append_number(alloc, u64::from(fault.line))?;
    line.append(b": ")?;
    line.append_number(alloc, u64::from(fault.code))?;
    append_text(&mut line, fault.code)?;
    append_word(&mut line, &fault.word)?;
    line.append(b"\n")?;
    Ok(line)
}

/// `NAME` and what is wrong with the file, with a line end.
#[tactic(auto, using(std::proofs::Common::append_assoc))]
pub fn file_line(alloc: Global, name: &Bytes, what: &[u8]) -> Result<Bytes, Memory>
    ensures { IfOk result (λ line. line ≡ file_line name.now what.now) }
{
    let mut line = name.copy(alloc)?;
    line.append(what)?;
    line.append(b"\n")?;
    Ok(line)
}

fn append_word(line: &mut Bytes, word: &Bytes) -> Result<(), Memory>
    ensures { OnOk result (line.new ≡ line.old ++ word_text word.now) }
{
    if word.is_empty() {
        return Ok(());
    }
    line.append(b": ")?;
    line.append(word.as_slice())
}

// The text of a code, after a blank. A code without a text stands alone.
#[tactic(auto, using(std::proofs::Common::append_assoc))]
fn append_text(line: &mut Bytes, code: u16) -> Result<(), Memory>
    ensures { OnOk result (line.new ≡ line.old ++ after_code (text_of code)) }
{
    let Some(text) = fault_text(code) else {
        return Ok(());
    };
    line.append(b" ")?;
    line.append(text.as_bytes())
}
