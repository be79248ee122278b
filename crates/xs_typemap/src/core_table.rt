//! The core typemap, which holds before that of a file.
ghost use Rattle.std.specs.Prelude.{◌≡◌, IfOk, Ok, map};
ghost use Rattle.xs_typemap.specs.CoreTypes as spec;
ghost use Rattle.xs_typemap.specs.TypemapLaws.{IsDistinct};

use crate::reading::read_typemap;
use crate::typemap::Typemap;
use std::alloc::Global;
use xs_base::{Bytes, FileOf, Items, Line, Memory, Refuse};

/// The lines of the core typemap (perlxstypemap, "Typemap Files").
pub const CORE_TYPEMAP: [&str; 125] = [
    "TYPEMAP",
    "int\tT_IV",
    "long\tT_IV",
    "IV\tT_IV",
    "I32\tT_IV",
    "I16\tT_IV",
    "I8\tT_IV",
    "ssize_t\tT_IV",
    "SSize_t\tT_IV",
    "short\tT_IV",
    "unsigned\tT_UV",
    "unsigned int\tT_UV",
    "unsigned long\tT_UV",
    "UV\tT_UV",
    "U32\tT_U_LONG",
    "U16\tT_U_SHORT",
    "U8\tT_UV",
    "STRLEN\tT_UV",
    "size_t\tT_UV",
    "unsigned short\tT_UV",
    "unsigned char\tT_U_CHAR",
    "char\tT_CHAR",
    "bool\tT_BOOL",
    "char *\tT_PV",
    "const char *\tT_PV",
    "unsigned char *\tT_PV",
    "SysRet\tT_SYSRET",
    "SV *\tT_SV",
    "SVREF\tT_SVREF",
    "AV *\tT_AVREF",
    "HV *\tT_HVREF",
    "INPUT",
    "T_IV",
    "\t$var = ($type)SvIV($arg)",
    "T_INT",
    "\t$var = (int)SvIV($arg)",
    "T_LONG",
    "\t$var = (long)SvIV($arg)",
    "T_SHORT",
    "\t$var = (short)SvIV($arg)",
    "T_UV",
    "\t$var = ($type)SvUV($arg)",
    "T_U_INT",
    "\t$var = (unsigned int)SvUV($arg)",
    "T_U_LONG",
    "\t$var = (unsigned long)SvUV($arg)",
    "T_U_SHORT",
    "\t$var = (unsigned short)SvUV($arg)",
    "T_U_CHAR",
    "\t$var = (unsigned char)SvUV($arg)",
    "T_CHAR",
    "\t$var = (char)*SvPV_nolen($arg)",
    "T_BOOL",
    "\t$var = (bool)SvTRUE($arg)",
    "T_PV",
    "\t$var = ($type)SvPV_nolen($arg)",
    "T_SV",
    "\t$var = $arg",
    "T_SVREF",
    "\tif (SvROK($arg)) $var = SvRV($arg);",
    "\telse croak(\"%s: %s is not a reference\", \"$pname\", \"$var\");",
    "T_AVREF",
    "\tif (SvROK($arg) && SvTYPE(SvRV($arg)) == SVt_PVAV) $var = (AV *)SvRV($arg);",
    "\telse croak(\"%s: %s is not an ARRAY reference\", \"$pname\", \"$var\");",
    "T_HVREF",
    "\tif (SvROK($arg) && SvTYPE(SvRV($arg)) == SVt_PVHV) $var = (HV *)SvRV($arg);",
    "\telse croak(\"%s: %s is not a HASH reference\", \"$pname\", \"$var\");",
    "T_SVREF_REFCOUNT_FIXED",
    "\tif (SvROK($arg)) $var = SvRV($arg);",
    "\telse croak(\"%s: %s is not a reference\", \"$pname\", \"$var\");",
    "T_AVREF_REFCOUNT_FIXED",
    "\tif (SvROK($arg) && SvTYPE(SvRV($arg)) == SVt_PVAV) $var = (AV *)SvRV($arg);",
    "\telse croak(\"%s: %s is not an ARRAY reference\", \"$pname\", \"$var\");",
    "T_HVREF_REFCOUNT_FIXED",
    "\tif (SvROK($arg) && SvTYPE(SvRV($arg)) == SVt_PVHV) $var = (HV *)SvRV($arg);",
    "\telse croak(\"%s: %s is not a HASH reference\", \"$pname\", \"$var\");",
    "T_PTROBJ",
    "\tif (SvROK($arg) && sv_derived_from($arg, \"$ntype\")) $var = INT2PTR($type, SvIV(SvRV($arg)));",
    "\telse croak(\"%s: %s is not of type %s\", \"$pname\", \"$var\", \"$ntype\");",
    "OUTPUT",
    "T_IV",
    "\tsv_setiv($arg, (IV)$var)",
    "T_INT",
    "\tsv_setiv($arg, (IV)$var)",
    "T_LONG",
    "\tsv_setiv($arg, (IV)$var)",
    "T_SHORT",
    "\tsv_setiv($arg, (IV)$var)",
    "T_UV",
    "\tsv_setuv($arg, (UV)$var)",
    "T_U_INT",
    "\tsv_setuv($arg, (UV)$var)",
    "T_U_LONG",
    "\tsv_setuv($arg, (UV)$var)",
    "T_U_SHORT",
    "\tsv_setuv($arg, (UV)$var)",
    "T_U_CHAR",
    "\tsv_setuv($arg, (UV)$var)",
    "T_CHAR",
    "\tsv_setpvn($arg, (char *)&$var, 1)",
    "T_BOOL",
    "\t$arg = boolSV($var)",
    "T_PV",
    "\tsv_setpv($arg, $var)",
    "T_SYSRET",
    "\tif ($var != -1) {",
    "\tif ($var == 0) sv_setpvn($arg, \"0 but true\", 10);",
    "\telse sv_setiv($arg, (IV)$var);",
    "\t}",
    "T_SV",
    "\t$arg = $var",
    "T_SVREF",
    "\t$arg = newRV((SV *)$var)",
    "T_AVREF",
    "\t$arg = newRV((SV *)$var)",
    "T_HVREF",
    "\t$arg = newRV((SV *)$var)",
    "T_SVREF_REFCOUNT_FIXED",
    "\t$arg = newRV_noinc((SV *)$var)",
    "T_AVREF_REFCOUNT_FIXED",
    "\t$arg = newRV_noinc((SV *)$var)",
    "T_HVREF_REFCOUNT_FIXED",
    "\t$arg = newRV_noinc((SV *)$var)",
    "T_PTROBJ",
    "\tsv_setref_pv($arg, \"$ntype\", (void *)$var)",
];

// Texts as lines that stand in no file.
#[tactic(auto, using(std::proofs::Common::append_assoc))]
fn lines_of(alloc: Global, texts: &[&'static str]) -> Result<Items<Line>, Memory>
    ensures { IfOk result (λ lines. lines ≡ map (λ text. spec.core_line text.now) texts.now) }
{
    let mut lines = Items::new(alloc);
    for text in texts {
        let text = Bytes::from_slice(alloc, text.as_bytes())?;
        lines.push(Line { number: 0, text })?;
    }
    Ok(lines)
}

// The lines of the core typemap.
#[tactic(auto, unfolding(crate::specs::CoreTypes::core_lines))]
fn core_lines(alloc: Global) -> Result<Items<Line>, Memory>
    ensures { IfOk result (λ lines. lines ≡ spec.core_lines) }
{
    lines_of(alloc, &CORE_TYPEMAP)
}

/// The core typemap. Its code stands in no file, and is told at line 0 of the XS file.
pub fn core_typemap(alloc: Global) -> Result<Typemap, Memory>
    ensures exact { IfOk result (λ held. held ≡ spec.core) }
    ensures distinct { IfOk result (λ held. IsDistinct held) }
{
    read_core(alloc)
}

fn read_core(alloc: Global) -> Result<Typemap, Memory>
    ensures exact { IfOk result (λ held. spec.core_read ≡ Ok held) }
    ensures distinct { IfOk result (λ held. IsDistinct held) }
{
    let lines = core_lines(alloc)?;
    match read_typemap(alloc, lines.as_slice(), FileOf::Xs) {
        Ok(held) => Ok(held),
        Err(_) => Err(Memory),
    }
}
