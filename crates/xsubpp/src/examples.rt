//! Whole worked examples: an XS file and a script, with the glue text and the transcript that come
//! of them.

/// An XS file and a script, and what is written for them.
pub struct Example {
    pub xs: &'static str,
    pub script: &'static str,
    /// What `compile` writes.
    pub glue: &'static str,
    /// What `call` writes.
    pub transcript: &'static str,
}

/// An XSUB that adds two numbers.
pub const ADD: &str =
    "MODULE = M PACKAGE = M\n\nint\nadd(int a, int b)\n  CODE:\n    RETVAL = a + b;\n  OUTPUT:\n    RETVAL\n";

/// What `compile` writes for it.
const ADD_GLUE: &str = "/* xsubpp glue, data model LP64 */

XS(XS_M_add)
{
    dXSARGS;
    if (items != 2)
        croak_xs_usage(cv, \"a, b\");
    {
        int a;
        int b;
        int RETVAL;
        SV *RETVALSV;
        a = (int)SvIV(ST(0));
        b = (int)SvIV(ST(1));
    RETVAL = a + b;
        RETVALSV = sv_newmortal();
        sv_setiv(RETVALSV, (IV)RETVAL);
        ST(0) = RETVALSV;
        XSRETURN(1);
    }
}

XS(boot_M)
{
    dXSARGS;
    newXS_deffile(\"M::add\", XS_M_add);
    XSRETURN_YES;
}
";

/// The examples.
pub const EXAMPLES: [Example; 14] = [
    // Two parameters.
    Example {
        xs: ADD,
        script: "call M::add(2, 3)\n",
        glue: ADD_GLUE,
        transcript: "boot returned
  live 0 marks 0 scopes 0
call 1 M::add returned 1
  item 0 = 5
  arg 0 = 2
  arg 1 = 3
  live 0 marks 0 scopes 0
",
    },
    // Too few arguments, then too many.
    Example {
        xs: ADD,
        script: "call M::add(2)\ncall M::add(1, 2, 3)\n",
        glue: ADD_GLUE,
        transcript: "boot returned
  live 0 marks 0 scopes 0
call 1 M::add croaked \"Usage: M::add(a, b)\"
  arg 0 = 2
  live 0 marks 0 scopes 0
call 2 M::add croaked \"Usage: M::add(a, b)\"
  arg 0 = 1
  arg 1 = 2
  arg 2 = 3
  live 0 marks 0 scopes 0
",
    },
    // The sum is past the greatest int.
    Example {
        xs: "MODULE = M PACKAGE = M\n\nint\nbig(int a, int b)\n  CODE:\n    RETVAL = a + 2147483647;\n  OUTPUT:\n    RETVAL\n",
        script: "call M::big(0, 7)\ncall M::big(1, 7)\ncall M::big(0, 7)\n",
        glue: "/* xsubpp glue, data model LP64 */

XS(XS_M_big)
{
    dXSARGS;
    if (items != 2)
        croak_xs_usage(cv, \"a, b\");
    {
        int a;
        int b;
        int RETVAL;
        SV *RETVALSV;
        a = (int)SvIV(ST(0));
        b = (int)SvIV(ST(1));
    RETVAL = a + 2147483647;
        RETVALSV = sv_newmortal();
        sv_setiv(RETVALSV, (IV)RETVAL);
        ST(0) = RETVALSV;
        XSRETURN(1);
    }
}

XS(boot_M)
{
    dXSARGS;
    newXS_deffile(\"M::big\", XS_M_big);
    XSRETURN_YES;
}
",
        transcript: "boot returned
  live 0 marks 0 scopes 0
call 1 M::big returned 1
  item 0 = 2147483647
  arg 0 = 0
  arg 1 = 7
  live 0 marks 0 scopes 0
call 2 M::big trapped Overflow
",
    },
    // Literals alone.
    Example {
        xs: "MODULE = M PACKAGE = M\n\nint\nanswer(int a, int b)\n  CODE:\n    RETVAL = 20 + 22;\n  OUTPUT:\n    RETVAL\n",
        script: "call M::answer(0, 0)\n",
        glue: "/* xsubpp glue, data model LP64 */

XS(XS_M_answer)
{
    dXSARGS;
    if (items != 2)
        croak_xs_usage(cv, \"a, b\");
    {
        int a;
        int b;
        int RETVAL;
        SV *RETVALSV;
        a = (int)SvIV(ST(0));
        b = (int)SvIV(ST(1));
    RETVAL = 20 + 22;
        RETVALSV = sv_newmortal();
        sv_setiv(RETVALSV, (IV)RETVAL);
        ST(0) = RETVALSV;
        XSRETURN(1);
    }
}

XS(boot_M)
{
    dXSARGS;
    newXS_deffile(\"M::answer\", XS_M_answer);
    XSRETURN_YES;
}
",
        transcript: "boot returned
  live 0 marks 0 scopes 0
call 1 M::answer returned 1
  item 0 = 42
  arg 0 = 0
  arg 1 = 0
  live 0 marks 0 scopes 0
",
    },
    // A package inside another.
    Example {
        xs: "MODULE = N::M PACKAGE = N::M\n\nint\nadd(int a, int b)\n  CODE:\n    RETVAL = a + b;\n  OUTPUT:\n    RETVAL\n",
        script: "call N::M::add(-2, -3)\n",
        glue: "/* xsubpp glue, data model LP64 */

XS(XS_N__M_add)
{
    dXSARGS;
    if (items != 2)
        croak_xs_usage(cv, \"a, b\");
    {
        int a;
        int b;
        int RETVAL;
        SV *RETVALSV;
        a = (int)SvIV(ST(0));
        b = (int)SvIV(ST(1));
    RETVAL = a + b;
        RETVALSV = sv_newmortal();
        sv_setiv(RETVALSV, (IV)RETVAL);
        ST(0) = RETVALSV;
        XSRETURN(1);
    }
}

XS(boot_N__M)
{
    dXSARGS;
    newXS_deffile(\"N::M::add\", XS_N__M_add);
    XSRETURN_YES;
}
",
        transcript: "boot returned
  live 0 marks 0 scopes 0
call 1 N::M::add returned 1
  item 0 = -5
  arg 0 = -2
  arg 1 = -3
  live 0 marks 0 scopes 0
",
    },
    // The package is not named as the module.
    Example {
        xs: "MODULE = Foo PACKAGE = Bar::Baz\n\nint\nsum_of(int left, int right)\n  CODE:\n    RETVAL = left + right;\n  OUTPUT:\n    RETVAL\n",
        script: "call Bar::Baz::sum_of(100, 23)\ncall Foo::sum_of(1, 2)\n",
        glue: "/* xsubpp glue, data model LP64 */

XS(XS_Bar__Baz_sum_of)
{
    dXSARGS;
    if (items != 2)
        croak_xs_usage(cv, \"left, right\");
    {
        int left;
        int right;
        int RETVAL;
        SV *RETVALSV;
        left = (int)SvIV(ST(0));
        right = (int)SvIV(ST(1));
    RETVAL = left + right;
        RETVALSV = sv_newmortal();
        sv_setiv(RETVALSV, (IV)RETVAL);
        ST(0) = RETVALSV;
        XSRETURN(1);
    }
}

XS(boot_Foo)
{
    dXSARGS;
    newXS_deffile(\"Bar::Baz::sum_of\", XS_Bar__Baz_sum_of);
    XSRETURN_YES;
}
",
        transcript: "boot returned
  live 0 marks 0 scopes 0
call 1 Bar::Baz::sum_of returned 1
  item 0 = 123
  arg 0 = 100
  arg 1 = 23
  live 0 marks 0 scopes 0
call 2 Foo::sum_of croaked \"Undefined subroutine &Foo::sum_of called\"
  arg 0 = 1
  arg 1 = 2
  live 0 marks 0 scopes 0
",
    },
    // Names with digits and underscores.
    Example {
        xs: "MODULE = A_1 PACKAGE = A_1\n\nint\n_f2(int _x, int y_9)\n  CODE:\n    RETVAL = y_9 + 0;\n  OUTPUT:\n    RETVAL\n",
        script: "call A_1::_f2(7, 8)\n",
        glue: "/* xsubpp glue, data model LP64 */

XS(XS_A_1__f2)
{
    dXSARGS;
    if (items != 2)
        croak_xs_usage(cv, \"_x, y_9\");
    {
        int _x;
        int y_9;
        int RETVAL;
        SV *RETVALSV;
        _x = (int)SvIV(ST(0));
        y_9 = (int)SvIV(ST(1));
    RETVAL = y_9 + 0;
        RETVALSV = sv_newmortal();
        sv_setiv(RETVALSV, (IV)RETVAL);
        ST(0) = RETVALSV;
        XSRETURN(1);
    }
}

XS(boot_A_1)
{
    dXSARGS;
    newXS_deffile(\"A_1::_f2\", XS_A_1__f2);
    XSRETURN_YES;
}
",
        transcript: "boot returned
  live 0 marks 0 scopes 0
call 1 A_1::_f2 returned 1
  item 0 = 8
  arg 0 = 7
  arg 1 = 8
  live 0 marks 0 scopes 0
",
    },
    // One parameter twice, after a tab.
    Example {
        xs: "MODULE = M PACKAGE = M\n\nint\ntwice(int a, int b)\n  CODE:\n\tRETVAL = a + a;\n  OUTPUT:\n    RETVAL\n",
        script: "call M::twice(-21, 5)\n",
        glue: "/* xsubpp glue, data model LP64 */

XS(XS_M_twice)
{
    dXSARGS;
    if (items != 2)
        croak_xs_usage(cv, \"a, b\");
    {
        int a;
        int b;
        int RETVAL;
        SV *RETVALSV;
        a = (int)SvIV(ST(0));
        b = (int)SvIV(ST(1));
\tRETVAL = a + a;
        RETVALSV = sv_newmortal();
        sv_setiv(RETVALSV, (IV)RETVAL);
        ST(0) = RETVALSV;
        XSRETURN(1);
    }
}

XS(boot_M)
{
    dXSARGS;
    newXS_deffile(\"M::twice\", XS_M_twice);
    XSRETURN_YES;
}
",
        transcript: "boot returned
  live 0 marks 0 scopes 0
call 1 M::twice returned 1
  item 0 = -42
  arg 0 = -21
  arg 1 = 5
  live 0 marks 0 scopes 0
",
    },
    // The literal stands first, and the MODULE line has more blanks.
    Example {
        xs: "MODULE = M\t\tPACKAGE = M  \n\nint\nnext(int a, int b)\n  CODE:\n    RETVAL = 1 + b;\n  OUTPUT:\n    RETVAL\n",
        script: "call M::next(5, 41)\n",
        glue: "/* xsubpp glue, data model LP64 */

XS(XS_M_next)
{
    dXSARGS;
    if (items != 2)
        croak_xs_usage(cv, \"a, b\");
    {
        int a;
        int b;
        int RETVAL;
        SV *RETVALSV;
        a = (int)SvIV(ST(0));
        b = (int)SvIV(ST(1));
    RETVAL = 1 + b;
        RETVALSV = sv_newmortal();
        sv_setiv(RETVALSV, (IV)RETVAL);
        ST(0) = RETVALSV;
        XSRETURN(1);
    }
}

XS(boot_M)
{
    dXSARGS;
    newXS_deffile(\"M::next\", XS_M_next);
    XSRETURN_YES;
}
",
        transcript: "boot returned
  live 0 marks 0 scopes 0
call 1 M::next returned 1
  item 0 = 42
  arg 0 = 5
  arg 1 = 41
  live 0 marks 0 scopes 0
",
    },
    // A number that an int does not hold is cut to it.
    Example {
        xs: ADD,
        script: "call M::add(4294967297, 1)\ncall M::add(-4294967297, 9223372036854775807)\n",
        glue: ADD_GLUE,
        transcript: "boot returned
  live 0 marks 0 scopes 0
call 1 M::add returned 1
  item 0 = 2
  arg 0 = 4294967297
  arg 1 = 1
  live 0 marks 0 scopes 0
call 2 M::add returned 1
  item 0 = -2
  arg 0 = -4294967297
  arg 1 = 9223372036854775807
  live 0 marks 0 scopes 0
",
    },
    // No such function, and an empty list of arguments.
    Example {
        xs: ADD,
        script: "call M::nope()\n\ncall M::add()\n",
        glue: ADD_GLUE,
        transcript: "boot returned
  live 0 marks 0 scopes 0
call 1 M::nope croaked \"Undefined subroutine &M::nope called\"
  live 0 marks 0 scopes 0
call 3 M::add croaked \"Usage: M::add(a, b)\"
  live 0 marks 0 scopes 0
",
    },
    // The script goes on after a croak and after a call, and ends after a trap.
    Example {
        xs: ADD,
        script: "call M::add()\ncall M::add(-2, 2147483647)\ncall M::add(2147483647, 1)\ncall M::add(1, 1)\n",
        glue: ADD_GLUE,
        transcript: "boot returned
  live 0 marks 0 scopes 0
call 1 M::add croaked \"Usage: M::add(a, b)\"
  live 0 marks 0 scopes 0
call 2 M::add returned 1
  item 0 = 2147483645
  arg 0 = -2
  arg 1 = 2147483647
  live 0 marks 0 scopes 0
call 3 M::add trapped Overflow
",
    },
    // The least sum that an int holds, and one below.
    Example {
        xs: ADD,
        script: "call M::add(-2147483647, -1)\ncall M::add(-2147483648, -1)\n",
        glue: ADD_GLUE,
        transcript: "boot returned
  live 0 marks 0 scopes 0
call 1 M::add returned 1
  item 0 = -2147483648
  arg 0 = -2147483647
  arg 1 = -1
  live 0 marks 0 scopes 0
call 2 M::add trapped Overflow
",
    },
    // A script without commands.
    Example {
        xs: "MODULE = M PACKAGE = M\n\nint\nadd(int a, int b)\n  CODE:\n    RETVAL = b + a;\n  OUTPUT:\n    RETVAL\n",
        script: "",
        glue: "/* xsubpp glue, data model LP64 */

XS(XS_M_add)
{
    dXSARGS;
    if (items != 2)
        croak_xs_usage(cv, \"a, b\");
    {
        int a;
        int b;
        int RETVAL;
        SV *RETVALSV;
        a = (int)SvIV(ST(0));
        b = (int)SvIV(ST(1));
    RETVAL = b + a;
        RETVALSV = sv_newmortal();
        sv_setiv(RETVALSV, (IV)RETVAL);
        ST(0) = RETVALSV;
        XSRETURN(1);
    }
}

XS(boot_M)
{
    dXSARGS;
    newXS_deffile(\"M::add\", XS_M_add);
    XSRETURN_YES;
}
",
        transcript: "boot returned
  live 0 marks 0 scopes 0
",
    },
];
