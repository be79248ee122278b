//! C text is read as a file, or as a piece of one.
ghost use Rattle.std.specs.Prelude.{◌≡◌, ◌-◌, ◌^◌, ◌<◌, ◌≤◌, [], IfOk, length, map};
ghost use Rattle.xs_base.specs.Reading.{GivesBy};
ghost use Rattle.xs_csyn.specs.FileReader as spec;
ghost use Rattle.xs_cinput.specs.TokenInput.{Reads};
ghost use Rattle.xs_cexpr.specs.ExpressionViews.{expr_tree};
ghost use Rattle.xs_cstmt.specs.StatementViews.{stmt_trees};
ghost use Rattle.xs_csyn.specs.FileViews.{file_tree, item_tree, item_trees};

use crate::declared_types::note;
use crate::{CFile, Define, FileItem, Function, Head, Par, Record, Typedef, XsFun};
use std::alloc::Global;
use xs_base::{Bytes, FileOf, Items, Memory, Refuse, with_more};
use xs_cexpr::{Expr, Level, Node, expr};
use xs_cinput::{Cursor, Kept, TypeNames, a_type};
use xs_cstmt::{MAX_NESTING, Stmt, part, parts};
use xs_ctok::{TokKind, Token};
use xs_values::DataModel;

#[tactic(auto, unfolding(crate::specs::FileReader::field))]
fn field(alloc: Global, cursor: &mut Cursor<'_, '_>) -> Result<Par, Refuse>
    ensures { Reads (λ p. p) (spec.field cursor.old) result cursor.new }
{
    let of_type = a_type(alloc, cursor)?;
    let line = cursor.line();
    let name = cursor.name(alloc)?;
    cursor.expect(alloc, b";")?;
    Ok(Par {
        line,
        of_type,
        name,
    })
}

// The fields of a record, after the opening brace, up to after the closing one.
#[tactic(auto, unfolding(crate::specs::FileReader::fields, crate::specs::FileReader::fields_from))]
fn fields(alloc: Global, cursor: &mut Cursor<'_, '_>) -> Result<Items<Par>, Refuse>
    ensures { Reads (λ all. all) (spec.fields cursor.old) result cursor.new }
{
    let mut all = Items::new(alloc);
    for _turn in 0..cursor.turns() {
        if cursor.eat(b"}") {
            return Ok(all);
        }
        let one = field(alloc, cursor)?;
        all.push(one)?;
    }
    Err(cursor.refuse(alloc))
}

// A record, after `typedef struct`.
#[tactic(auto, unfolding(crate::specs::FileReader::a_record))]
fn a_record(alloc: Global, cursor: &mut Cursor<'_, '_>, line: u32) -> Result<Record, Refuse>
    ensures { Reads (λ r. r) (spec.a_record line cursor.old) result cursor.new }
{
    cursor.expect(alloc, b"{")?;
    let fields = fields(alloc, cursor)?;
    let name_line = cursor.line();
    let name = cursor.name(alloc)?;
    cursor.expect(alloc, b";")?;
    Ok(Record {
        line,
        fields,
        name,
        name_line,
    })
}

// A type by another name, after `typedef`.
#[tactic(auto, unfolding(crate::specs::FileReader::a_typedef))]
fn a_typedef(alloc: Global, cursor: &mut Cursor<'_, '_>, line: u32) -> Result<Typedef, Refuse>
    ensures { Reads (λ t. t) (spec.a_typedef line cursor.old) result cursor.new }
{
    let of_type = a_type(alloc, cursor)?;
    let name_line = cursor.line();
    let name = cursor.name(alloc)?;
    cursor.expect(alloc, b";")?;
    Ok(Typedef {
        line,
        of_type,
        name,
        name_line,
    })
}

// What names a type, after `typedef`.
#[tactic(auto, unfolding(crate::specs::FileReader::named_type))]
fn named_type(alloc: Global, cursor: &mut Cursor<'_, '_>, line: u32) -> Result<FileItem, Refuse>
    ensures { Reads item_tree (spec.named_type line cursor.old) result cursor.new }
{
    if cursor.sees_word(b"struct") {
        cursor.skip();
        Ok(FileItem::Record(a_record(alloc, cursor, line)?))
    } else {
        Ok(FileItem::Typedef(a_typedef(alloc, cursor, line)?))
    }
}

// The statement `dXSARGS;`, which begins the body of each XS function (perlxs), has to come next.
// It is left there.
#[tactic(auto, unfolding(crate::specs::FileReader::body_begins))]
fn body_begins(alloc: Global, cursor: &Cursor<'_, '_>) -> Result<(), Refuse>
    ensures { Reads (λ u. u) (spec.body_begins cursor.now) result cursor.now }
{
    let mut ahead = cursor.ahead();
    ahead.expect_word(alloc, b"dXSARGS")?;
    ahead.expect(alloc, b";")
}

// The body of a function, after the opening brace. It is a level of its own.
#[tactic(auto, unfolding(crate::specs::FileReader::body))]
fn body(alloc: Global, cursor: &mut Cursor<'_, '_>) -> Result<Vec<Stmt>, Refuse>
    ensures { Reads stmt_trees (spec.body cursor.old) result cursor.new }
{
    parts(alloc, cursor, MAX_NESTING - 1)
}

// An XS function, after `XS`.
#[tactic(auto, unfolding(crate::specs::FileReader::xs_function))]
fn xs_function(alloc: Global, cursor: &mut Cursor<'_, '_>, line: u32) -> Result<FileItem, Refuse>
    ensures { Reads item_tree (spec.xs_function line cursor.old) result cursor.new }
{
    cursor.expect(alloc, b"(")?;
    let name = cursor.name(alloc)?;
    cursor.expect(alloc, b")")?;
    cursor.expect(alloc, b"{")?;
    body_begins(alloc, cursor)?;
    let body = body(alloc, cursor)?;
    Ok(FileItem::XsFun(XsFun { line, name, body }))
}

#[tactic(auto, unfolding(crate::specs::FileReader::parameter))]
fn parameter(alloc: Global, cursor: &mut Cursor<'_, '_>) -> Result<Par, Refuse>
    ensures { Reads (λ p. p) (spec.parameter cursor.old) result cursor.new }
{
    let of_type = a_type(alloc, cursor)?;
    let line = cursor.line();
    let name = cursor.variable(alloc)?;
    Ok(Par {
        line,
        of_type,
        name,
    })
}

// One parameter or more, up to after the closing parenthesis.
#[tactic(auto, unfolding(crate::specs::FileReader::some_parameters, crate::specs::FileReader::parameters_from))]
fn some_parameters(alloc: Global, cursor: &mut Cursor<'_, '_>) -> Result<Items<Par>, Refuse>
    ensures { Reads (λ all. all) (spec.some_parameters cursor.old) result cursor.new }
{
    let mut all = Items::new(alloc);
    for _turn in 0..cursor.turns() {
        let one = parameter(alloc, cursor)?;
        let more = cursor.eat(b",");
        all.push(one)?;
        if !more {
            cursor.expect(alloc, b")")?;
            return Ok(all);
        }
    }
    Err(cursor.refuse(alloc))
}

// Whether `void` and the closing parenthesis come next.
#[tactic(auto, unfolding(crate::specs::FileReader::sees_none))]
fn sees_none(cursor: &Cursor<'_, '_>) -> bool
    ensures { result ≡ spec.sees_none cursor.now }
{
    let mut ahead = cursor.ahead();
    ahead.skip();
    cursor.sees_word(b"void") && ahead.sees(b")")
}

// The parameters of a function, after the opening parenthesis, up to after the closing one.
#[tactic(auto, unfolding(crate::specs::FileReader::parameters))]
fn parameters(alloc: Global, cursor: &mut Cursor<'_, '_>) -> Result<Items<Par>, Refuse>
    ensures { Reads (λ all. all) (spec.parameters cursor.old) result cursor.new }
{
    if sees_none(cursor) {
        cursor.skip();
        cursor.skip();
        return Ok(Items::new(alloc));
    }
    if cursor.eat(b")") {
        return Ok(Items::new(alloc));
    }
    some_parameters(alloc, cursor)
}

// What stands before the body of a function.
#[tactic(auto, unfolding(crate::specs::FileReader::head))]
fn head(alloc: Global, cursor: &mut Cursor<'_, '_>, line: u32) -> Result<Head, Refuse>
    ensures { Reads (λ h. h) (spec.head line cursor.old) result cursor.new }
{
    let result = a_type(alloc, cursor)?;
    let name = cursor.name(alloc)?;
    cursor.expect(alloc, b"(")?;
    let pars = parameters(alloc, cursor)?;
    Ok(Head {
        line,
        result,
        name,
        pars,
    })
}

// A function or a prototype.
#[tactic(auto, unfolding(crate::specs::FileReader::function))]
fn function(alloc: Global, cursor: &mut Cursor<'_, '_>, line: u32) -> Result<FileItem, Refuse>
    ensures { Reads item_tree (spec.function line cursor.old) result cursor.new }
{
    let head = head(alloc, cursor, line)?;
    if cursor.eat(b";") {
        return Ok(FileItem::Prototype(head));
    }
    cursor.expect(alloc, b"{")?;
    let body = body(alloc, cursor)?;
    Ok(FileItem::Function(Function { head, body }))
}

// What stands at the outer level of a file.
#[tactic(auto, unfolding(crate::specs::FileReader::item))]
fn item(alloc: Global, cursor: &mut Cursor<'_, '_>) -> Result<FileItem, Refuse>
    ensures { Reads item_tree (spec.item cursor.old) result cursor.new }
{
    let line = cursor.line();
    if cursor.sees_word(b"typedef") {
        cursor.skip();
        named_type(alloc, cursor, line)
    } else if cursor.sees_word(b"XS") {
        cursor.skip();
        xs_function(alloc, cursor, line)
    } else {
        function(alloc, cursor, line)
    }
}

// All tokens as the items of a file. A type is one from its declaration on.
#[tactic(auto, unfolding(crate::specs::FileReader::items_from))]
fn items(
    alloc: Global,
    tokens: Kept<'_>,
    file: FileOf,
    last: u32,
    turns: usize,
) -> Result<Items<FileItem>, Refuse>
    requires { turns < 2 ^ 32 }
    ensures { GivesBy item_trees result (spec.items_of (record {
      rest = tokens.entry;
      types = [];
      file = file;
      last = last;
      turns = turns;
    })) }
{
    let mut rest = tokens;
    let mut types = TypeNames::new(alloc);
    let mut all = Items::new(alloc);
    for _turn in 0..turns {
        let mut cursor = Cursor::new(rest, &types, file, last, turns);
        if cursor.at_end() {
            return Ok(all);
        }
        let one = item(alloc, &mut cursor)?;
        rest = cursor.into_rest();
        note(alloc, &mut types, &one)?;
        all.push(one)?;
    }
    let cursor = Cursor::new(rest, &types, file, last, turns);
    Err(cursor.refuse(alloc))
}

// The lines that define a name as an integer.
fn defines(alloc: Global, tokens: &[Token]) -> Result<Items<Define>, Memory>
    ensures { IfOk result (λ all. all ≡ spec.defines_of tokens.now) }
{
    let mut all = Items::new(alloc);
    for t in tokens {
        if let TokKind::Define(name, literal) = &t.kind {
            let name = name.copy(alloc)?;
            all.push(Define {
                line: t.span.line,
                name,
                literal: *literal,
            })?;
        }
    }
    Ok(all)
}

/// Reads the tokens of a C text as a file: types, records, prototypes, functions and XS functions
/// (C11 6.5 to 6.9 in the profile of this crate's README; perlxs, perlapi, perlcall). `last` is the
/// line of a fault at the early end.
///
/// Words of storage classes and qualifiers, and words that only a perl with threads has a use for,
/// are dropped first. Lines that define a name are taken out of the whole; they hold in all of the
/// file.
///
/// Where there are faults, the answer is the first: 704 at the first token with no reading, or 705
/// where statements or an expression stand more than 64 deep: at the first token of what stands too
/// deep, whatever it is, or at the operator that would push its left operand too deep.
#[tactic(auto, unfolding(crate::specs::FileReader::file_of))]
pub fn read_file(alloc: Global, t: &[Token], file: FileOf, last: u32) -> Result<CFile, Refuse>
    requires { length t.now < 2 ^ 32 - 1 }
    ensures { GivesBy file_tree result (spec.file_of file last t.now) }
{
    let items = items(alloc, Kept::new(t, true), file, last, t.len() + 1)?;
    let defines = defines(alloc, t)?;
    Ok(CFile {
        model: DataModel::Lp64,
        defines,
        items,
    })
}

// What is left, as what stands in a block.
#[tactic(auto, unfolding(crate::specs::FileReader::rest_from))]
fn rest_of(alloc: Global, cursor: &mut Cursor<'_, '_>, room: u32) -> Result<Vec<Stmt>, Refuse>
    ensures { Reads stmt_trees (spec.rest_of room cursor.old) result cursor.new }
{
    let mut all = Vec::new(alloc);
    for _turn in 0..cursor.turns() {
        if cursor.at_end() {
            return Ok(all);
        }
        let one = part(alloc, cursor, room)?;
        all = with_more(all, one)?;
    }
    Err(cursor.refuse(alloc))
}

/// Reads tokens as what stands in a block of a file with these types, where so many statements
/// stand around it. The rules are those of a file, but a line that defines a name has no reading.
#[tactic(auto, unfolding(crate::specs::FileReader::block_of))]
pub fn read_block(
    alloc: Global,
    t: &[Token],
    file: FileOf,
    last: u32,
    types: &TypeNames,
    around: u32,
) -> Result<Vec<Stmt>, Refuse>
    requires { length t.now < 2 ^ 32 - 1 }
    ensures { GivesBy stmt_trees result (spec.block_of file last types.now around t.now) }
{
    let mut cursor = Cursor::new(Kept::new(t, false), types, file, last, t.len() + 1);
    rest_of(alloc, &mut cursor, MAX_NESTING.saturating_sub(around))
}

/// Reads tokens as one expression of a file with these types, where so many nodes stand around it.
/// The rules are those of a file, but a line that defines a name has no reading.
#[tactic(auto, unfolding(crate::specs::FileReader::expr_of))]
pub fn read_expr(
    alloc: Global,
    t: &[Token],
    file: FileOf,
    last: u32,
    types: &TypeNames,
    around: u32,
) -> Result<Expr, Refuse>
    requires { length t.now < 2 ^ 32 - 1 }
    ensures { GivesBy expr_tree result (spec.expr_of file last types.now around t.now) }
{
    let mut cursor = Cursor::new(Kept::new(t, false), types, file, last, t.len() + 1);
    let room = MAX_NESTING.saturating_sub(around);
    let Node { tree, height: _ } = expr(alloc, &mut cursor, room, Level::Whole)?;
    if cursor.at_end() {
        Ok(tree)
    } else {
        Err(cursor.refuse(alloc))
    }
}

// Expressions with a comma between two.
#[tactic(auto, using(xs_cstmt::proofs::ViewsCompute::views), unfolding(crate::specs::FileReader::some_args, crate::specs::FileReader::args_from))]
fn some_args(alloc: Global, cursor: &mut Cursor<'_, '_>, room: u32) -> Result<Vec<Expr>, Refuse>
    requires { room ≤ 64 }
    ensures { Reads (λ all. map expr_tree all.items) (spec.some_args room cursor.old)
        result cursor.new }
{
    let mut all = Vec::new(alloc);
    for _turn in 0..cursor.turns() {
        let Node { tree, height: _ } = expr(alloc, cursor, room, Level::Whole)?;
        let more = cursor.eat(b",");
        all = with_more(all, tree)?;
        if !more {
            return Ok(all);
        }
    }
    Err(cursor.refuse(alloc))
}

/// Reads tokens as the arguments of a call, without its parentheses, of a file with these types,
/// where so many nodes stand around each. The rules are those of a file, but a line that defines a
/// name has no reading.
#[tactic(auto, unfolding(crate::specs::FileReader::args_of))]
pub fn read_args(
    alloc: Global,
    t: &[Token],
    file: FileOf,
    last: u32,
    types: &TypeNames,
    around: u32,
) -> Result<Vec<Expr>, Refuse>
    requires { length t.now < 2 ^ 32 - 1 }
    ensures { GivesBy (λ all. map expr_tree all.items) result
        (spec.args_of file last types.now around t.now) }
{
    let mut cursor = Cursor::new(Kept::new(t, false), types, file, last, t.len() + 1);
    if cursor.at_end() {
        return Ok(Vec::new(alloc));
    }
    let all = some_args(alloc, &mut cursor, MAX_NESTING.saturating_sub(around))?;
    if cursor.at_end() {
        Ok(all)
    } else {
        Err(cursor.refuse(alloc))
    }
}
