//! Names that stand twice.
ghost use Rattle.std.specs.Prelude.{◌≡◌, [], ◌∷◌, ◌++◌, IfOk, not, if◌then◌else◌};
ghost use Rattle.xs_base.specs.Names.{is_among};
ghost use Rattle.xs_base.specs.declared.fault_codes.TheConstants.{NAME_TWICE};
ghost use Rattle.xs_base.specs.Faults.{first_fault};
ghost use Rattle.xs_iface.specs.Iface.{name_fault};
ghost use Rattle.xs_iface.specs.Repeats.{names_of};
ghost use Rattle.xs_sections.specs.SectionFaults.{fault_at};

use crate::xsub::Xsub;
use indexmap::IndexSet;
use std::alloc::Global;
use xs_base::fault_codes::NAME_TWICE;
use xs_base::{Fault, FileOf, Memory};

// Notes a name, and says whether it is a new one.
fn note_name<'a>(names: &mut IndexSet<&'a [u8]>, name: &'a [u8]) -> Result<bool, Memory>
    ensures new { IfOk result (λ is_new. is_new
        ≡ not (is_among (names_of names.old.keys) name.now)) }
    ensures noted { IfOk result (λ is_new. names_of names.new.keys
        ≡ (if is_new then names_of names.old.keys ++ name.now ∷ [] else names_of names.old.keys)) }
{
    let is_new = names.insert(name)?;
    Ok(is_new)
}

// The fault of an XSUB with a name of an earlier one.
fn repeat_of(alloc: Global, xsub: &Xsub) -> Result<Fault, Memory>
    ensures { IfOk result (λ fault. fault ≡ fault_at xsub.now.line NAME_TWICE xsub.now.full) }
{
    let word = xsub.full.copy(alloc)?;
    Ok(Fault::new(FileOf::Xs, xsub.line, NAME_TWICE, word))
}

/// The fault of the first XSUB that has the name for Perl or the glue name of an earlier one.
pub fn first_repeat(alloc: Global, xsubs: &[Xsub]) -> Result<Option<Fault>, Memory>
    ensures { IfOk result (λ fault. fault ≡ first_fault name_fault [] xsubs.now) }
{
    let mut fulls: IndexSet<&[u8]> = IndexSet::new(alloc);
    let mut glues: IndexSet<&[u8]> = IndexSet::new(alloc);
    for xsub in xsubs {
        if !note_name(&mut fulls, xsub.full.as_slice())? {
            return Ok(Some(repeat_of(alloc, xsub)?));
        }
        if !note_name(&mut glues, xsub.glue.as_slice())? {
            return Ok(Some(repeat_of(alloc, xsub)?));
        }
    }
    Ok(None)
}
