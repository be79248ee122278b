//! The typed code of a C file: expressions and statements whose names are slots and whose types are
//! known, as nodes that name their parts by their indices.
#![tactic(auto)]

mod growing;
mod node;
mod typed;
mod value_type;

pub use node::{
    Callable, ExprNode, FunctionNode, Group, GroupNode, Range, Sort, StepOp, StmtNode, TargetNode,
    TestNode,
};
pub use typed::Typed;
pub use value_type::{RecordType, Slot, ValueType};
