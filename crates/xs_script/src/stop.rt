//! Running out of memory in the readers of a line.
ghost use Rattle.std.specs.Prelude.{◌≡◌};
ghost use Rattle.xs_script.specs.declared.line_part.Stop.TheVariants as stop;

use crate::line_part::Stop;
use xs_base::Memory;

impl From<Memory> for Stop {
    ghost from_gives = { λ _ e. e ≡ stop.Memory };

    fn from(_: Memory) -> Stop {
        Stop::Memory
    }
}
