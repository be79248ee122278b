//! Perl as XS code sees it: the counted heap, Perl's stacks, and the rows of the API over them.
#![tactic(auto)]

mod api;
mod heap;
mod stacks;

pub use api::{Abrupt, Frame, Halt, Operand, Perl, Registered, Stop};
pub use heap::{Cell, Heap, HeapFail};
pub use stacks::{Depths, MOST_ITEMS, Stacks, pop_top, push_top};
