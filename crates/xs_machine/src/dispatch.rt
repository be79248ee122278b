//! Each row of Perl's API at its operands, and the rows whose operand is a text of the code.
ghost use Rattle.std.specs.Prelude.{◌≡◌, Err, [], slice_index_or};
ghost use Rattle.xs_api.specs.PerlViews.{Does, world_of};
ghost use Rattle.xs_api.specs.Rows as rows;
ghost use Rattle.xs_machine.specs.Dispatch as dispatch;

use xs_api::{Abrupt, Frame, Halt, Operand, Perl};
use xs_ctree::Typed;
use xs_perlapi::Row;
use xs_values::{Plain, Trap};

fn trapped(trap: Trap) -> Result<Operand, Halt>
    ensures { result ≡ Err (Halt.Way (Abrupt.Traps trap)) }
{
    Err(Halt::from(trap))
}

/// A row at its operands.
pub(crate) fn row_at(
    perl: &mut Perl,
    row: Row,
    operands: &[Operand],
    frame: &mut Frame,
) -> Result<Operand, Halt>
    ensures { Does (dispatch.row_at row operands.now frame.old (world_of perl.old)) result frame.new
        (world_of perl.new) }
{
    match (row, operands) {
        (Row::Entry, []) => perl.entry(frame),
        (Row::StRead, [Operand::Num(i)]) => perl.st_read(*i, frame),
        (Row::SvIv, [Operand::Scalar(s)]) => perl.sv_iv(*s, frame),
        (Row::SvNewMortal, []) => perl.new_mortal(Plain::Undef, frame),
        (Row::SvSetIv, [Operand::Scalar(s), Operand::Num(v)]) => perl.sv_setiv(*s, *v, frame),
        (Row::StSet, [Operand::Scalar(s), Operand::Num(i)]) => perl.st_set(*s, *i, frame),
        (Row::XsReturn, [Operand::Num(n)]) => perl.xsreturn(*n, frame),
        (Row::XsReturnYes, []) => perl.xsreturn_yes(frame),
        (Row::XsEnd, []) => perl.xs_end(frame),
        _ => trapped(Trap::Kind),
    }
}

/// The croak for wrong use, with a text of the code.
pub(crate) fn croak_usage(
    perl: &Perl,
    typed: &Typed,
    text: u32,
    frame: &Frame,
) -> Result<Operand, Halt>
    ensures { Does (rows.croak_usage (slice_index_or typed.now.texts.items text []) frame.now
        (world_of perl.now)) result frame.now (world_of perl.now) }
{
    perl.croak_usage(typed.text(text), frame)
}

/// The registration of a function under a name that is a text of the code.
pub(crate) fn register(
    perl: &mut Perl,
    typed: &Typed,
    name: u32,
    function: u32,
    frame: &Frame,
) -> Result<Operand, Halt>
    ensures { Does (rows.register (slice_index_or typed.now.texts.items name []) function frame.now
        (world_of perl.old)) result frame.now (world_of perl.new) }
{
    perl.register(typed.text(name), function, frame)
}
