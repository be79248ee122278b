//! Scripts against what they are to read as.
ghost use Rattle.std.specs.Prelude.{◌-◌, ◌<◌, ◌^◌, length};

use crate::table_rows::{halves, text_of};
use std::alloc::Global;
use std::test::Fail;
use xs_base::{Bytes, Memory, Refuse};
use xs_script::{Action, Command, E, Number, quoted, read_script, value_text};
use xs_values::Plain;

fn append_expr(alloc: Global, out: &mut Bytes, e: &E) -> Result<(), Memory> {
    match e {
        E::Undef => out.append(b"undef"),
        E::Number(Number::Int(n)) => out.append(value_text(alloc, &Plain::Int(*n))?.as_slice()),
        E::Number(Number::Uns(n)) => out.append(value_text(alloc, &Plain::from_uv(*n))?.as_slice()),
        E::Text(text) => out.append(quoted(alloc, text.as_slice())?.as_slice()),
        E::Variable(name) => out.append(name.as_slice()),
        E::Reference(name) => {
            out.append(b"\\")?;
            out.append(name.as_slice())
        }
        E::List(items) => {
            out.append(b"[")?;
            for item in items {
                append_expr(alloc, out, item)?;
                out.append(b",")?;
            }
            out.append(b"]")
        }
        E::Hash(entries) => {
            out.append(b"{")?;
            for entry in entries {
                out.append(quoted(alloc, entry.0.as_slice())?.as_slice())?;
                out.append(b"=>")?;
                append_expr(alloc, out, &entry.1)?;
                out.append(b",")?;
            }
            out.append(b"}")
        }
        E::Argument(k) => {
            out.append(b"arg ")?;
            out.append_number(alloc, u64::from(*k))
        }
    }
}

fn append_args(alloc: Global, out: &mut Bytes, args: &Vec<E>) -> Result<(), Memory> {
    out.append(b"(")?;
    for arg in args {
        append_expr(alloc, out, arg)?;
        out.append(b",")?;
    }
    out.append(b")")
}

fn append_call(alloc: Global, out: &mut Bytes, sub: &Bytes, args: &Vec<E>) -> Result<(), Memory> {
    out.append(sub.as_slice())?;
    append_args(alloc, out, args)
}

fn append_action(alloc: Global, out: &mut Bytes, action: &Action) -> Result<(), Memory> {
    match action {
        Action::Push(e) => {
            out.append(b"push ")?;
            append_expr(alloc, out, e)
        }
        Action::Set(k, e) => {
            out.append(b"set ")?;
            out.append_number(alloc, u64::from(*k))?;
            out.append(b" ")?;
            append_expr(alloc, out, e)
        }
        Action::Call(sub, args) => {
            out.append(b"call ")?;
            append_call(alloc, out, sub, args)
        }
        Action::Die(text) => {
            out.append(b"die ")?;
            out.append(quoted(alloc, text.as_slice())?.as_slice())
        }
    }
}

// The number of the line, the word of the command and the name that it begins with.
fn append_head(
    alloc: Global,
    out: &mut Bytes,
    line: u32,
    word: &[u8],
    name: &Bytes,
) -> Result<(), Memory> {
    out.append_number(alloc, u64::from(line))?;
    out.append(word)?;
    out.append(name.as_slice())
}

// The name that a command declares, and the value that it gets.
fn append_my(alloc: Global, out: &mut Bytes, line: u32, name: &Bytes, e: &E) -> Result<(), Memory> {
    append_head(alloc, out, line, b" my ", name)?;
    out.append(b" ")?;
    append_expr(alloc, out, e)
}

// The same for what a call gives.
fn append_my_call(
    alloc: Global,
    out: &mut Bytes,
    line: u32,
    name: &Bytes,
    sub: &Bytes,
    args: &Vec<E>,
) -> Result<(), Memory> {
    append_head(alloc, out, line, b" my ", name)?;
    out.append(b" call ")?;
    append_call(alloc, out, sub, args)
}

fn append_isa(
    alloc: Global,
    out: &mut Bytes,
    line: u32,
    class: &Bytes,
    parent: &Bytes,
) -> Result<(), Memory> {
    append_head(alloc, out, line, b" isa ", class)?;
    out.append(b" ")?;
    out.append(parent.as_slice())
}

fn append_sub(
    alloc: Global,
    out: &mut Bytes,
    line: u32,
    sub: &Bytes,
    actions: &Vec<Action>,
) -> Result<(), Memory> {
    append_head(alloc, out, line, b" sub ", sub)?;
    out.append(b" ")?;
    for action in actions {
        append_action(alloc, out, action)?;
        out.append(b";")?;
    }
    Ok(())
}

fn append_command(alloc: Global, out: &mut Bytes, command: &Command) -> Result<(), Memory> {
    match command {
        Command::My(line, name, e) => append_my(alloc, out, *line, name, e),
        Command::MyCall(line, name, sub, args) => {
            append_my_call(alloc, out, *line, name, sub, args)
        }
        Command::Ro(line, name) => append_head(alloc, out, *line, b" ro ", name),
        Command::Show(line, name) => append_head(alloc, out, *line, b" show ", name),
        Command::Drop(line, name) => append_head(alloc, out, *line, b" drop ", name),
        Command::Isa(line, class, parent) => append_isa(alloc, out, *line, class, parent),
        Command::Call(line, sub, args) => {
            append_head(alloc, out, *line, b" call ", sub)?;
            append_args(alloc, out, args)
        }
        Command::Sub(line, sub, actions) => append_sub(alloc, out, *line, sub, actions),
    }
}

// What a script reads as: its commands with `; ` between, or the line, the code and the word of its
// fault.
fn read(alloc: Global, src: &Bytes) -> Result<Bytes, Memory>
    requires { length src.now < 2 ^ 32 - 1 }
{
    let mut out = Bytes::new(alloc);
    match read_script(alloc, src) {
        Ok(commands) => {
            for (i, command) in commands.iter().enumerate() {
                out.append(if i == 0 {
                    b"".as_slice()
                } else {
                    b"; ".as_slice()
                })?;
                append_command(alloc, &mut out, command)?;
            }
        }
        Err(Refuse::Fault(fault)) => {
            out.append(b"line ")?;
            out.append_number(alloc, u64::from(fault.line))?;
            out.append(b": ")?;
            out.append_number(alloc, u64::from(fault.code))?;
            out.append(b" ")?;
            out.append(fault.word.as_slice())?;
        }
        Err(Refuse::Memory) => return Err(Memory),
    }
    Ok(out)
}

/// Each row has what a script reads as, `@`, and the script, with `/` for each line end.
const TABLE: &[u8] = b"\
    line 1: 952 y@show y\n\
    1 my x [1,]; 2 show x; 3 drop x@my x = [1]/show x/drop x\n\
    1 my x \"a\\x00b\"; 2 call M::z(x,)@my x = \"a\\x00b\"/call M::z(x)\n\
    @\n\
    6 my x 1@/  / \t/# a/ \t# b/my x = 1\n\
    1 my x 1@ \tmy \t x\t=\t1 \t\n\
    1 my x 1@my x=1\n\
    line 1: 951 @myx = 1\n\
    line 1: 951 @my x = 1 # c\n\
    1 call f()@call f()\n\
    1 call f(1,2,)@call\tf(1,2)\n\
    1 call f(1,undef,)@call f ( 1 , undef )\n\
    1 call f()@call \"f\"()\n\
    1 call f()@call\"f\"()\n\
    line 1: 951 @callf()\n\
    line 1: 951 @my x = 1\r\n\
    1 my x 1; 2 show x@my x = 1\r/show x\n\
    1 my x 1@my x =1\n\
    line 1: 951 @my x => 1\n\
    line 1: 951 @my x = = 1\n\
    line 1: 951 @my x = arg-1\n\
    1 sub f push arg 0;@sub f = push arg -0\n\
    1 sub f push arg 0;@sub f = push arg 0\n\
    line 1: 951 @sub f = push arg0\n\
    1 sub f push \"a\";die \"b\";@sub f=push\"a\";die\"b\"\n\
    line 1: 951 @sub f = push\n\
    line 1: 951 @sub f = \n\
    line 1: 951 @sub f = push 1;\n\
    line 1: 951 @sub f = die x\n\
    1 sub f call g(arg 1,[undef,],);@sub f = call g(arg 1, [undef])\n\
    1 sub f set 0 {\"k\"=>arg 1,};@sub f = set arg 0 = {\"k\"=>arg 1}\n\
    line 1: 951 @sub f = set 0 = 1\n\
    1 my a::b 1; 2 show a::b@my a::b = 1/show a::b\n\
    line 1: 951 @my a: = 1\n\
    line 1: 951 @my a:: = 1\n\
    line 1: 951 @my a:::b = 1\n\
    line 1: 951 @my 9a = 1\n\
    1 my _9 1; 2 ro _9@my _9 = 1/ro _9\n\
    line 1: 951 @my a::9 = 1\n\
    1 isa A::B C@isa A::B C\n\
    line 1: 951 @isa A\n\
    line 1: 951 @isa A B C\n\
    line 1: 951 @isa A \"B\"\n\
    1 my call 1; 2 my y call; 3 show y@my call = 1/my y = call/show y\n\
    1 my undef 2; 2 my y undef; 3 my z \\undef@my undef = 2/my y = undef/my z = \\undef\n\
    1 my my 1; 2 show my@my my = 1/show my\n\
    line 1: 951 @my y = call f\n\
    1 my y call f(1,)@my y = call f(1)\n\
    1 my y call a b()@my y = call \"a b\"()\n\
    1 my arg 3; 2 show arg@my arg = 3/show arg\n\
    line 1: 951 @my x = arg 0\n\
    1 call call(1,)@call call(1)\n\
    1 my x -9223372036854775808@my x = -9223372036854775808\n\
    line 1: 954 -9223372036854775809@my x = -9223372036854775809\n\
    1 my x 18446744073709551615@my x = 18446744073709551615\n\
    line 1: 954 18446744073709551616@my x = 18446744073709551616\n\
    line 1: 954 -00018446744073709551616@my x = -00018446744073709551616\n\
    1 my x 9223372036854775807@my x = 9223372036854775807\n\
    1 my x 9223372036854775808@my x = 9223372036854775808\n\
    1 my x 7@my x = 007\n\
    1 my x 0@my x = -0\n\
    line 1: 951 @my x = +5\n\
    line 1: 951 @my x = - 5\n\
    line 1: 951 @my x = 5x\n\
    1 sub f push arg 4294967295;@sub f = push arg 4294967295\n\
    line 1: 954 4294967296@sub f = set arg 4294967296 = 1\n\
    line 1: 954 -1@sub f = push arg -1\n\
    1 my x \"\\xff\"@my x=\"\\xfF\"\n\
    1 my x \"\\\"\\\\\\x0a\\x09\"@my x = \"\\\"\\\\\\n\\t\"\n\
    line 1: 951 @my x = \"\\r\"\n\
    line 1: 951 @my x = \"\\x4\"\n\
    line 1: 951 @my x = \"\\xg0\"\n\
    line 1: 951 @my x = \"a\n\
    line 1: 951 @my x = \"a\\\"\n\
    line 1: 951 @my x = \"a\" \"b\"\n\
    1 my x \"\\xff\\x01\\x09\"@my x = \"\xff\x01\t\"\n\
    1 my x {\"A\"=>1,\"A\"=>2,}@my x = {\"\\x41\" => 1, \"A\" => 2}\n\
    1 my x []@my x = []\n\
    1 my x {}@my x = {}\n\
    1 my x [[],{},undef,]@my x = [[], {}, undef]\n\
    line 1: 951 @my x = [1,]\n\
    line 1: 951 @my x = [,]\n\
    line 1: 951 @my x = [1}\n\
    line 1: 951 @my x = {1 => 2}\n\
    line 1: 951 @my x = {\"a\" = 1}\n\
    line 1: 951 @my x = {\"a\" => 1,}\n\
    line 1: 951 @my x = [1\n\
    line 1: 951 @my x = 1]\n\
    1 my x [[[[[[[[[[[[[[[[],],],],],],],],],],],],],],],]@my x = [[[[[[[[[[[[[[[[]]]]]]]]]]]]]]]]\n\
    line 1: 955 @my x = [[[[[[[[[[[[[[[[[]]]]]]]]]]]]]]]]]\n\
    line 1: 952 y@my x = [[[[[[[[[[[[[[[[[y]]]]]]]]]]]]]]]]]\n\
    line 1: 951 @my x = [[[[[[[[[[[[[[[[[]]]]]]]]]]]]]]]]\n\
    1 call f({\"a\"=>[{\"a\"=>[{\"a\"=>[{\"a\"=>[{\"a\"=>[{\"a\"=>[{\"a\"=>[{\"a\"=>[],},],},],},],},],},],},],},],},)@call f({\"a\"=>[{\"a\"=>[{\"a\"=>[{\"a\"=>[{\"a\"=>[{\"a\"=>[{\"a\"=>[{\"a\"=>[]}]}]}]}]}]}]}]})\n\
    line 1: 955 @call f(1, {\"a\"=>[{\"a\"=>[{\"a\"=>[{\"a\"=>[{\"a\"=>[{\"a\"=>[{\"a\"=>[{\"a\"=>[{\"a\"=>[]}]}]}]}]}]}]}]}]})\n\
    1 my x 1; 2 my y \\x@my x = 1/my y = \\x\n\
    line 1: 951 @my x = \\\\x\n\
    line 1: 952 z@my y = \\z\n\
    1 my x 1; 2 my y [\\x,x,]@my x = 1/my y = [\\ x, x]\n\
    line 1: 951 @sub f = push \\x\n\
    line 2: 953 x@my x = 1/my x = 2\n\
    line 3: 952 x@my x = 1/drop x/show x\n\
    line 3: 953 x@my x = 1/drop x/my x = 2\n\
    line 1: 952 x@my x = x\n\
    1 my f 1; 2 sub f push 1;@my f = 1/sub f = push 1\n\
    line 2: 953 f@sub f = push 1/sub \"f\" = push 2\n\
    line 2: 951 @my x = 1/sub f = push x\n\
    line 2: 952 y@my x = 1/my x = y\n\
    line 2: 953 x@my x = 1/my x = 18446744073709551616\n\
    line 1: 952 x@drop x\n\
    line 1: 952 x@ro x\n\
    line 1: 952 y@my x = [y, z]/\n\
    line 1: 952 y@call f(18446744073709551616, y)\n\
    line 1: 954 18446744073709551616@call f(18446744073709551616, 99999999999999999999)\n\
    line 2: 952 z@my x = 1/my y = call f(x, z)\n\
    line 1: 951 @junk\n\
    line 1: 951 @show\n\
    line 1: 951 @show x y\n\
    line 1: 951 @my\n\
    line 1: 951 @my x\n\
    line 1: 951 @my x =\n\
    line 1: 951 @call\n\
    line 1: 951 @call f\n\
    line 1: 951 @call f(\n\
    line 1: 951 @call f(1\n\
    line 1: 951 @call f(1,)\n\
    line 1: 951 @call 5()\n\
    line 1: 951 @ro 5\n\
    line 1: 951 @\"show\" x\n\
    line 1: 951 @push 1\n\
    line 1: 951 @=";

#[test]
fn reads_the_table(rt: HostRuntime) -> Result<(), Fail> {
    let mut rows = 0usize;
    for row in TABLE.split(|b| *b == b'\n') {
        let (expected, script) = halves(row, b'@')?;
        let src = text_of(rt.alloc(), script)?;
        assert!(rt; src.len() < 1000);
        let found = read(rt.alloc(), &src)?;
        assert_eq!(rt; found.as_slice(), expected);
        rows = rows.wrapping_add(1);
    }
    assert_eq!(rt; rows, 130);
    Ok(())
}

// How many commands a script has, or the line of its fault and its code.
fn counted(alloc: Global, src: &Bytes) -> Result<(usize, u16), Memory> {
    if src.len() > 1_048_576 {
        return Ok((0, 101));
    }
    match read_script(alloc, src) {
        Ok(commands) => Ok((commands.len(), 0)),
        Err(Refuse::Fault(fault)) => Ok((fault.line as usize, fault.code)),
        Err(Refuse::Memory) => Err(Memory),
    }
}

// What a script of so many commands with numbered names counts.
fn declared(alloc: Global, head: &[u8], tail: &[u8], count: u32) -> Result<(usize, u16), Memory> {
    let mut out = Bytes::new(alloc);
    for i in 0..count {
        out.append(head)?;
        out.append_number(alloc, u64::from(i))?;
        out.append(tail)?;
    }
    counted(alloc, &out)
}

#[test]
fn keeps_the_limits(rt: HostRuntime) -> Result<(), Fail> {
    let alloc = rt.alloc();
    assert_eq!(rt; declared(alloc, b"isa A B", b"\n", 10_000)?, (10_000, 0));
    assert_eq!(rt; declared(alloc, b"isa A B", b"\n", 10_001)?, (10_001, 956));
    assert_eq!(rt; declared(alloc, b"my v", b" = 1\n", 256)?, (256, 0));
    assert_eq!(rt; declared(alloc, b"my v", b" = 1\n", 257)?, (257, 956));
    assert_eq!(rt; declared(alloc, b"sub s", b" = push 1\n", 256)?, (256, 0));
    assert_eq!(rt; declared(alloc, b"sub s", b" = push 1\n", 257)?, (257, 956));
    Ok(())
}

#[test]
fn cuts_a_text_after_64_bytes(rt: HostRuntime) -> Result<(), Fail> {
    let alloc = rt.alloc();
    let text = [b'\\'; 65];
    let whole = quoted(alloc, &text[..64])?;
    let cut = quoted(alloc, &text)?;
    assert_eq!(rt; whole.len(), 130);
    assert_eq!(rt; cut.len(), 132);
    assert!(rt; cut.as_slice().ends_with(b"\\\\\".."));
    Ok(())
}
