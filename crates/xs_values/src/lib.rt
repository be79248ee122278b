//! Numbers and plain values: C's integers with their kinds, what operators give, and what a scalar
//! holds that is no reference.
#![tactic(auto)]

mod kind;
mod laws;
mod literal;
mod model;
mod number;
mod operator;
mod plain;
mod trap;
mod types;
mod unary_operator;

pub use kind::{Kind, common, promote};
pub use laws::{
    common_kind_is_symmetric, conversion_is_the_number, division_is_whole,
    kinds_have_their_numbers, long_is_in_the_table, results_are_numbers, texts_are_read_back,
    uvs_are_conversions,
};
pub use literal::{Base, Length, Suffix, literal_kind};
pub use model::DataModel;
pub use number::{CInt, wrap};
pub use operator::{Op, arith, result_kind};
pub use plain::{LargeUv, Plain, to_iv, to_text, to_uv, truth};
pub use trap::{Name, Trap};
pub use types::kind_of;
pub use unary_operator::{UnOp, unary, unary_kind};
