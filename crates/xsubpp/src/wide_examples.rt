//! Worked examples of several XSUBs, parameters and terms, and of what may stand around them.
use crate::examples::Example;

/// The examples.
pub const WIDE_EXAMPLES: [Example; 6] = [
    // One parameter and one term.
    Example {
        xs: "MODULE = M PACKAGE = M\n\nint\nsame(int a)\n  CODE:\n    RETVAL = a;\n  OUTPUT:\n    RETVAL\n",
        script: "call M::same(-5)\ncall M::same()\n",
        glue: "/* xsubpp glue, data model LP64 */

XS(XS_M_same)
{
    dXSARGS;
    if (items != 1)
        croak_xs_usage(cv, \"a\");
    {
        int a;
        int RETVAL;
        SV *RETVALSV;
        a = (int)SvIV(ST(0));
    RETVAL = a;
        RETVALSV = sv_newmortal();
        sv_setiv(RETVALSV, (IV)RETVAL);
        ST(0) = RETVALSV;
        XSRETURN(1);
    }
}

XS(boot_M)
{
    dXSARGS;
    newXS_deffile(\"M::same\", XS_M_same);
    XSRETURN_YES;
}
",
        transcript: "boot returned
  live 0 marks 0 scopes 0
call 1 M::same returned 1
  item 0 = -5
  arg 0 = -5
  live 0 marks 0 scopes 0
call 2 M::same croaked \"Usage: M::same(a)\"
  live 0 marks 0 scopes 0
",
    },
    // A file as h2xs begins it: a C part, a prefix, a comment, two packages and three XSUBs.
    Example {
        xs: "#define PERL_NO_GET_CONTEXT\n#include \"EXTERN.h\"\n#include \"perl.h\"\n#include \"XSUB.h\"\n\nMODULE = Sums\t\tPACKAGE = Sums\t\tPREFIX = sums_\n\nint\nsums_double(int n)\n  CODE:\n    RETVAL = n + n;\n  OUTPUT:\n    RETVAL\n\n# two packages in one file\n\nint\nsums_of_three(int a, int b, int c)\n  CODE:\n    RETVAL = a + b + c;\n  OUTPUT:\n    RETVAL\n\nMODULE = Sums\t\tPACKAGE = Sums::Offset\n\nint\nnext(int n)\n  CODE:\n    RETVAL = n + 1;\n  OUTPUT:\n    RETVAL\n",
        script: "# three calls that return, one with too few arguments, and one that nothing has\ncall Sums::double(21)\ncall Sums::of_three(1, 2, 3)\ncall Sums::Offset::next(-1)\ncall Sums::of_three(1, 2)\ncall Sums::sums_double(1)\n",
        glue: "/* xsubpp glue, data model LP64 */
#define PERL_NO_GET_CONTEXT
#include \"EXTERN.h\"
#include \"perl.h\"
#include \"XSUB.h\"


XS(XS_Sums_double)
{
    dXSARGS;
    if (items != 1)
        croak_xs_usage(cv, \"n\");
    {
        int n;
        int RETVAL;
        SV *RETVALSV;
        n = (int)SvIV(ST(0));
    RETVAL = n + n;
        RETVALSV = sv_newmortal();
        sv_setiv(RETVALSV, (IV)RETVAL);
        ST(0) = RETVALSV;
        XSRETURN(1);
    }
}

XS(XS_Sums_of_three)
{
    dXSARGS;
    if (items != 3)
        croak_xs_usage(cv, \"a, b, c\");
    {
        int a;
        int b;
        int c;
        int RETVAL;
        SV *RETVALSV;
        a = (int)SvIV(ST(0));
        b = (int)SvIV(ST(1));
        c = (int)SvIV(ST(2));
    RETVAL = a + b + c;
        RETVALSV = sv_newmortal();
        sv_setiv(RETVALSV, (IV)RETVAL);
        ST(0) = RETVALSV;
        XSRETURN(1);
    }
}

XS(XS_Sums__Offset_next)
{
    dXSARGS;
    if (items != 1)
        croak_xs_usage(cv, \"n\");
    {
        int n;
        int RETVAL;
        SV *RETVALSV;
        n = (int)SvIV(ST(0));
    RETVAL = n + 1;
        RETVALSV = sv_newmortal();
        sv_setiv(RETVALSV, (IV)RETVAL);
        ST(0) = RETVALSV;
        XSRETURN(1);
    }
}

XS(boot_Sums)
{
    dXSARGS;
    newXS_deffile(\"Sums::double\", XS_Sums_double);
    newXS_deffile(\"Sums::of_three\", XS_Sums_of_three);
    newXS_deffile(\"Sums::Offset::next\", XS_Sums__Offset_next);
    XSRETURN_YES;
}
",
        transcript: "boot returned
  live 0 marks 0 scopes 0
call 2 Sums::double returned 1
  item 0 = 42
  arg 0 = 21
  live 0 marks 0 scopes 0
call 3 Sums::of_three returned 1
  item 0 = 6
  arg 0 = 1
  arg 1 = 2
  arg 2 = 3
  live 0 marks 0 scopes 0
call 4 Sums::Offset::next returned 1
  item 0 = 0
  arg 0 = -1
  live 0 marks 0 scopes 0
call 5 Sums::of_three croaked \"Usage: Sums::of_three(a, b, c)\"
  arg 0 = 1
  arg 1 = 2
  live 0 marks 0 scopes 0
call 6 Sums::sums_double croaked \"Undefined subroutine &Sums::sums_double called\"
  arg 0 = 1
  live 0 marks 0 scopes 0
",
    },
    // POD and file keywords, and a name without package.
    Example {
        xs: "\n=head1 NAME\n\nMODULE = X\n\n=cut\n\nMODULE = A::B\n\nPROTOTYPES: DISABLE\n\nint\none_more(int a)\n  CODE:\n    RETVAL = a + 1;\n  OUTPUT:\n    RETVAL\n\n=cut\n\nint f(\n\n=cut\n",
        script: "call one_more(1)\ncall A::B::one_more(1)\n",
        glue: "/* xsubpp glue, data model LP64 */



XS(XS__one_more)
{
    dXSARGS;
    if (items != 1)
        croak_xs_usage(cv, \"a\");
    {
        int a;
        int RETVAL;
        SV *RETVALSV;
        a = (int)SvIV(ST(0));
    RETVAL = a + 1;
        RETVALSV = sv_newmortal();
        sv_setiv(RETVALSV, (IV)RETVAL);
        ST(0) = RETVALSV;
        XSRETURN(1);
    }
}

XS(boot_A__B)
{
    dXSARGS;
    newXS_deffile(\"one_more\", XS__one_more);
    XSRETURN_YES;
}
",
        transcript: "boot returned
  live 0 marks 0 scopes 0
call 1 one_more returned 1
  item 0 = 2
  arg 0 = 1
  live 0 marks 0 scopes 0
call 2 A::B::one_more croaked \"Undefined subroutine &A::B::one_more called\"
  arg 0 = 1
  live 0 marks 0 scopes 0
",
    },
    // The third term is past the greatest int.
    Example {
        xs: "MODULE = M PACKAGE = M\n\nint\nf(int a, int b, int c)\n  CODE:\n    RETVAL = a + b + c + 1;\n  OUTPUT:\n    RETVAL\n",
        script: "call M::f(1, 2, 3)\ncall M::f(2147483647, -1, 2)\ncall M::f(1, 2, 3)\n",
        glue: "/* xsubpp glue, data model LP64 */

XS(XS_M_f)
{
    dXSARGS;
    if (items != 3)
        croak_xs_usage(cv, \"a, b, c\");
    {
        int a;
        int b;
        int c;
        int RETVAL;
        SV *RETVALSV;
        a = (int)SvIV(ST(0));
        b = (int)SvIV(ST(1));
        c = (int)SvIV(ST(2));
    RETVAL = a + b + c + 1;
        RETVALSV = sv_newmortal();
        sv_setiv(RETVALSV, (IV)RETVAL);
        ST(0) = RETVALSV;
        XSRETURN(1);
    }
}

XS(boot_M)
{
    dXSARGS;
    newXS_deffile(\"M::f\", XS_M_f);
    XSRETURN_YES;
}
",
        transcript: "boot returned
  live 0 marks 0 scopes 0
call 1 M::f returned 1
  item 0 = 7
  arg 0 = 1
  arg 1 = 2
  arg 2 = 3
  live 0 marks 0 scopes 0
call 2 M::f trapped Overflow
",
    },
    // A prefix that is the whole name, and one that does not stand in front.
    Example {
        xs: "MODULE = M PACKAGE = M PREFIX = add\n\nint\nadd(int a)\n  CODE:\n    RETVAL = a + 2;\n  OUTPUT:\n    RETVAL\n\nint\nno_add(int a)\n  CODE:\n    RETVAL = a + 3;\n  OUTPUT:\n    RETVAL\n",
        script: "call \"M::\"(1)\ncall M::no_add(1)\n",
        glue: "/* xsubpp glue, data model LP64 */

XS(XS_M_)
{
    dXSARGS;
    if (items != 1)
        croak_xs_usage(cv, \"a\");
    {
        int a;
        int RETVAL;
        SV *RETVALSV;
        a = (int)SvIV(ST(0));
    RETVAL = a + 2;
        RETVALSV = sv_newmortal();
        sv_setiv(RETVALSV, (IV)RETVAL);
        ST(0) = RETVALSV;
        XSRETURN(1);
    }
}

XS(XS_M_no_add)
{
    dXSARGS;
    if (items != 1)
        croak_xs_usage(cv, \"a\");
    {
        int a;
        int RETVAL;
        SV *RETVALSV;
        a = (int)SvIV(ST(0));
    RETVAL = a + 3;
        RETVALSV = sv_newmortal();
        sv_setiv(RETVALSV, (IV)RETVAL);
        ST(0) = RETVALSV;
        XSRETURN(1);
    }
}

XS(boot_M)
{
    dXSARGS;
    newXS_deffile(\"M::\", XS_M_);
    newXS_deffile(\"M::no_add\", XS_M_no_add);
    XSRETURN_YES;
}
",
        transcript: "boot returned
  live 0 marks 0 scopes 0
call 1 M:: returned 1
  item 0 = 3
  arg 0 = 1
  live 0 marks 0 scopes 0
call 2 M::no_add returned 1
  item 0 = 4
  arg 0 = 1
  live 0 marks 0 scopes 0
",
    },
    // A module without XSUBs.
    Example {
        xs: "MODULE = M PACKAGE = M\n",
        script: "call M::add(1)\n",
        glue: "/* xsubpp glue, data model LP64 */

XS(boot_M)
{
    dXSARGS;
    XSRETURN_YES;
}
",
        transcript: "boot returned
  live 0 marks 0 scopes 0
call 1 M::add croaked \"Undefined subroutine &M::add called\"
  arg 0 = 1
  live 0 marks 0 scopes 0
",
    },
];
