//! The words of the script language.

pub const ARG: &str = "arg";

pub const CALL: &str = "call";

pub const DIE: &str = "die";

pub const DROP: &str = "drop";

pub const ISA: &str = "isa";

pub const MY: &str = "my";

pub const PUSH: &str = "push";

pub const RO: &str = "ro";

pub const SET: &str = "set";

pub const SHOW: &str = "show";

pub const SUB: &str = "sub";

pub const UNDEF: &str = "undef";
