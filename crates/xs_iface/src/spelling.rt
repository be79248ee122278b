//! The names of a function, for Perl and in C.
ghost use Rattle.std.specs.Prelude.{◌≡◌, IfOk};
ghost use Rattle.xs_iface.specs.Iface.{full_name, glue_name, perl_name, underscored};

use std::alloc::Global;
use xs_base::{Bytes, Memory, strip_prefix};

/// The name for Perl, which is the name in C without the prefix.
pub fn perl_name<'a>(prefix: &[u8], function: &'a [u8]) -> &'a [u8]
    ensures { result.now ≡ perl_name prefix.now function.now }
{
    strip_prefix(prefix, function).unwrap_or(function)
}

/// A package name as a part of a C name: each `:` is written `_`.
pub fn underscored(alloc: Global, name: &[u8]) -> Result<Bytes, Memory>
    ensures { IfOk result (λ text. text ≡ underscored name.now) }
{
    let mut text = Bytes::new(alloc);
    for byte in name {
        let written = if *byte == b':' { b'_' } else { *byte };
        text.append(&[written])?;
    }
    Ok(text)
}

/// The name under which Perl calls a function: without a package it is the name alone.
pub fn full_name(alloc: Global, package_name: &[u8], name: &[u8]) -> Result<Bytes, Memory>
    ensures { IfOk result (λ text. text ≡ full_name package_name.now name.now) }
{
    let mut full = Bytes::from_slice(alloc, package_name)?;
    if !package_name.is_empty() {
        full.append(b"::")?;
    }
    full.append(name)?;
    Ok(full)
}

/// The name of the glue function.
pub fn glue_name(alloc: Global, package_name: &[u8], name: &[u8]) -> Result<Bytes, Memory>
    ensures { IfOk result (λ text. text ≡ glue_name package_name.now name.now) }
{
    let mut glue = Bytes::from_slice(alloc, b"XS_")?;
    glue.append(underscored(alloc, package_name)?.as_slice())?;
    glue.append(b"_")?;
    glue.append(name)?;
    Ok(glue)
}
