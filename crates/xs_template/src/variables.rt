//! The variables that a template may name.
ghost use Rattle.std.specs.Prelude.{◌≡◌, map};
ghost use Rattle.xs_template.specs.Variables as spec;

/// A variable of a template (perlxstypemap, "Basic Typemap Notes").
#[derive(Clone, Copy, Debug, PartialEq, Eq)]
pub enum Variable {
    /// The C variable.
    Var,
    /// The scalar.
    Arg,
    /// The C type.
    CType,
    /// The C type with each star written `Ptr`.
    Ntype,
    /// The package.
    Package,
    /// The C name of the function, with its prefix.
    FuncName,
    /// The full name of the XSUB.
    Pname,
    /// The place of the argument, from 0.
    Argoff,
}

/// Each variable with its name.
pub const VARIABLES: [(&str, Variable); 8] = [
    ("var", Variable::Var),
    ("arg", Variable::Arg),
    ("type", Variable::CType),
    ("ntype", Variable::Ntype),
    ("Package", Variable::Package),
    ("func_name", Variable::FuncName),
    ("pname", Variable::Pname),
    ("argoff", Variable::Argoff),
];

// The variable that rows list for a name.
fn variable_in(rows: &[(&'static str, Variable)], name: &[u8]) -> Option<Variable>
    ensures { result ≡ spec.variable_in (map (λ row. (row.0.now, row.1)) rows.now) name.now }
{
    for row in rows {
        if row.0.as_bytes() == name {
            return Some(row.1);
        }
    }
    None
}

/// The variable of a name.
#[tactic(auto, unfolding(crate::specs::Variables::variable_named))]
pub fn variable_named(name: &[u8]) -> Option<Variable>
    ensures { result ≡ spec.variable_named name.now }
{
    variable_in(&VARIABLES, name)
}
