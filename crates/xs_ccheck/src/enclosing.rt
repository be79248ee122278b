//! What encloses a statement.
ghost use Rattle.std.specs.Prelude.{◌≡◌};
ghost use Rattle.xs_ccheck.specs.FileTyping as files;
ghost use Rattle.xs_ccheck.specs.StmtTyping as stmts;

use xs_ctree::ValueType;

/// Where a statement stands: whether its function is the boot function, the type of what the
/// function gives, and whether a loop or a `switch` is around the statement.
#[derive(Clone, Copy, Debug)]
pub struct Where {
    pub in_boot: bool,
    pub result: ValueType,
    pub in_loop: bool,
    pub in_switch: bool,
}

// Where the statements of an XS function stand.
pub(crate) fn outermost(in_boot: bool) -> Where
    ensures { result ≡ files.outermost in_boot }
{
    Where {
        in_boot,
        result: ValueType::Void,
        in_loop: false,
        in_switch: false,
    }
}

// Where the body of a loop stands.
pub(crate) fn in_turn(place: Where) -> Where
    ensures { result ≡ stmts.in_turn place }
{
    Where {
        in_boot: place.in_boot,
        result: place.result,
        in_loop: true,
        in_switch: place.in_switch,
    }
}

// Where the groups of a `switch` stand.
pub(crate) fn in_group(place: Where) -> Where
    ensures { result ≡ stmts.in_group place }
{
    Where {
        in_boot: place.in_boot,
        result: place.result,
        in_loop: place.in_loop,
        in_switch: true,
    }
}
