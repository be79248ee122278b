//! Operators, conversions, literals and texts, against the rows of `value_tables`.

use crate::value_tables as table;
use std::alloc::Global;
use std::test::Fail;
use xs_base::Bytes;
use xs_values::*;

#[test]
fn operators_at_edges(rt: HostRuntime) {
    let groups: [&[(Op, Kind, i128, Kind, i128, Kind, i128)]; 6] = [
        &table::SUMS,
        &table::PRODUCTS,
        &table::DIVISIONS,
        &table::SHIFTS,
        &table::BITS,
        &table::COMPARISONS,
    ];
    for rows in groups {
        for row in rows {
            let (op, left, x, right, y, kind, value) = *row;
            let given = arith(op, wrap(left, x), wrap(right, y));
            assert_eq!(rt;
                given.map(|n| (n.kind(), n.value())),
                Ok((kind, value)),
                "{x} {op:?} {y}"
            );
            assert_eq!(rt; result_kind(op, left, right), kind);
        }
    }
}

#[test]
fn traps_at_edges(rt: HostRuntime) {
    for row in &table::TRAPS {
        let (op, left, x, right, y, trap) = *row;
        let given = arith(op, wrap(left, x), wrap(right, y));
        assert_eq!(rt; given.map(|n| n.value()), Err(trap), "{x} {op:?} {y}");
    }
}

#[test]
fn unary_operators_at_edges(rt: HostRuntime) {
    for row in &table::UNARY {
        let (op, operand, z, kind, value) = *row;
        let given = unary(op, wrap(operand, z));
        assert_eq!(rt;
            given.map(|n| (n.kind(), n.value())),
            Ok((kind, value)),
            "{op:?} {z}"
        );
        assert_eq!(rt; unary_kind(op, operand), kind);
    }
    for row in &table::UNARY_TRAPS {
        let (op, operand, z, trap) = *row;
        assert_eq!(rt;
            unary(op, wrap(operand, z)).map(|n| n.value()),
            Err(trap),
            "{op:?} {z}"
        );
    }
}

#[test]
fn conversions_at_edges(rt: HostRuntime) {
    for row in &table::CONVERSIONS {
        let (kind, z, value) = *row;
        assert_eq!(rt; wrap(kind, z).value(), value, "{kind:?} {z}");
    }
    assert_eq!(rt; wrap(Kind::Bool, i128::MIN).value(), 1);
    assert_eq!(rt; wrap(Kind::I64, i128::MAX).value(), -1);
}

#[test]
fn kinds_of_literals(rt: HostRuntime) {
    for row in &table::LITERALS {
        let (base, unsigned, length, value, kind) = *row;
        let suffix = Suffix { unsigned, length };
        assert_eq!(rt;
            literal_kind(base, suffix, value, DataModel::Lp64),
            kind,
            "{base:?} {value}"
        );
    }
}

#[test]
fn kinds_of_types(rt: HostRuntime) -> Result<(), Fail> {
    let types: [(&str, Option<Kind>); 8] = [
        ("char", Some(Kind::I8)),
        ("unsigned", Some(Kind::U32)),
        ("unsigned long long", Some(Kind::U64)),
        ("SysRet", Some(Kind::I64)),
        ("bool", Some(Kind::Bool)),
        ("long int", None),
        ("unsigned  int", None),
        ("", None),
    ];
    for (words, kind) in types {
        let words = Bytes::from_slice(rt.alloc(), words.as_bytes()).map_err(|_| "memory")?;
        assert_eq!(rt; kind_of(&words, DataModel::Lp64), kind);
    }
    Ok(())
}

#[test]
fn numbers_of_texts(rt: HostRuntime) -> Result<(), Fail> {
    for row in &table::TEXTS {
        let (text, iv, uv, is_true) = *row;
        let value = Plain::Text(Bytes::from_slice(rt.alloc(), text.as_bytes()).map_err(
            |_| "memory",
        )?);
        assert_eq!(rt; to_iv(&value), iv, "{text}");
        assert_eq!(rt; to_uv(&value), uv, "{text}");
        assert_eq!(rt; truth(&value), is_true, "{text}");
    }
    Ok(())
}

fn reads(alloc: Global, v: &Plain, iv: i64, uv: u64, text: &str) -> Result<bool, Fail> {
    let given = to_text(alloc, v).map_err(|_| "memory")?;
    let is_number = to_iv(v) == iv && to_uv(v) == uv && truth(v) == (uv != 0);
    Ok(is_number && given.as_slice() == text.as_bytes())
}

#[test]
fn texts_of_numbers(rt: HostRuntime) -> Result<(), Fail> {
    for (uv, iv, text) in &table::UVS {
        assert!(rt;
            reads(rt.alloc(), &Plain::from_uv(*uv), *iv, *uv, text)?,
            "{text}"
        );
    }
    for (iv, uv, text) in &table::IVS {
        assert!(rt;
            reads(rt.alloc(), &Plain::Int(*iv), *iv, *uv, text)?,
            "{text}"
        );
    }
    assert!(rt; reads(rt.alloc(), &Plain::Undef, 0, 0, "")?);
    Ok(())
}
