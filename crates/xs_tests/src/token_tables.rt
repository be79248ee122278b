//! C texts with their tokens: each token on a line, with its line and column, a letter for its
//! kind, and what it says, or the code and the line of the first fault. An integer has its value, a
//! letter for its base, and its suffix.

/// Words, blanks and ends of lines.
#[rattlefmt::skip]
pub static WORDS: [(&[u8], &[u8]); 14] = [
    (b"", b""),
    (b" \t", b""),
    (b"a", b"1:1 w a\n"),
    (b"_a1 B_2\tif", b"1:1 w _a1\n1:5 w B_2\n1:9 w if\n"),
    (b"a\n\n b\n", b"1:1 w a\n3:2 w b\n"),
    (b"int IV STMT_START dTHX", b"1:1 w int\n1:5 w IV\n1:8 w STMT_START\n1:19 w dTHX\n"),
    (b"a\n\n\n", b"1:1 w a\n"),
    (b"a \t\n \n", b"1:1 w a\n"),
    (b"x$", b"701 at 1"),
    (b"a\x0cb", b"701 at 1"),
    (b"a\0", b"701 at 1"),
    (b"\r", b"701 at 1"),
    (b"a\\b", b"701 at 1"),
    (b"a\xe9", b"701 at 1"),
];

/// Integers: bases, suffixes, the greatest value.
#[rattlefmt::skip]
pub static INTEGERS: [(&[u8], &[u8]); 8] = [
    (b"0 7 10", b"1:1 i 0d\n1:3 i 7d\n1:5 i 10d\n"),
    (b"00 017 01777777777777777777777", b"1:1 i 0o\n1:4 i 15o\n1:8 i 18446744073709551615o\n"),
    (b"0x0 0XfF 0xABCDEFabcdef", b"1:1 i 0x\n1:5 i 255x\n1:10 i 188900977659375x\n"),
    (b"1u 2U 3l 4L 5ul 6UL 7ll 8LL 9ull 10ULL", b"1:1 i 1du\n1:4 i 2du\n1:7 i 3dl\n1:10 i 4dl\n1:13 i 5dul\n1:17 i 6dul\n1:21 i 7dll\n1:25 i 8dll\n1:29 i 9dull\n1:34 i 10dull\n"),
    (b"0x1u 0x2U 0x3l 0x4L 0x5ul 0x6UL 0x7ll 0x8LL 0x9ull 0xaULL", b"1:1 i 1xu\n1:6 i 2xu\n1:11 i 3xl\n1:16 i 4xl\n1:21 i 5xul\n1:27 i 6xul\n1:33 i 7xll\n1:39 i 8xll\n1:45 i 9xull\n1:52 i 10xull\n"),
    (b"01u 02l 03ULL 0u 0L", b"1:1 i 1ou\n1:5 i 2ol\n1:9 i 3oull\n1:15 i 0du\n1:18 i 0dl\n"),
    (b"18446744073709551615 0xffffffffffffffff", b"1:1 i 18446744073709551615d\n1:22 i 18446744073709551615x\n"),
    (b"18446744073709551615ull", b"1:1 i 18446744073709551615dull\n"),
];

/// An integer that runs into what it cannot hold is two tokens.
#[rattlefmt::skip]
pub static INTEGERS_AND_WORDS: [(&[u8], &[u8]); 15] = [
    (b"09", b"1:1 i 0o\n1:2 i 9d\n"),
    (b"0x", b"1:1 i 0d\n1:2 w x\n"),
    (b"0xg", b"1:1 i 0d\n1:2 w xg\n"),
    (b"0x;", b"1:1 i 0d\n1:2 w x\n1:3 p ;\n"),
    (b"1lu", b"1:1 i 1dl\n1:3 w u\n"),
    (b"1uL", b"1:1 i 1du\n1:3 w L\n"),
    (b"1lL", b"1:1 i 1dl\n1:3 w L\n"),
    (b"1llu", b"1:1 i 1dll\n1:4 w u\n"),
    (b"1Ul", b"1:1 i 1du\n1:3 w l\n"),
    (b"1ulll", b"1:1 i 1dull\n1:5 w l\n"),
    (b"1a", b"1:1 i 1d\n1:2 w a\n"),
    (b"0b1", b"1:1 i 0d\n1:2 w b1\n"),
    (b"0u8", b"1:1 i 0du\n1:3 i 8d\n"),
    (b"08u", b"1:1 i 0o\n1:2 i 8du\n"),
    (b"019", b"1:1 i 1o\n1:3 i 9d\n"),
];

/// Integers that are too wide, also with letters after them.
#[rattlefmt::skip]
pub static WIDE_INTEGERS: [(&[u8], &[u8]); 6] = [
    (b"18446744073709551616", b"703 at 1"),
    (b"a\n18446744073709551616x", b"703 at 2"),
    (b"02000000000000000000000", b"703 at 1"),
    (b"0x10000000000000000", b"703 at 1"),
    (b"18446744073709551616u", b"703 at 1"),
    (b"1 99999999999999999999999999 @", b"703 at 1"),
];

/// Floating constants.
#[rattlefmt::skip]
pub static FLOATING: [(&[u8], &[u8]); 15] = [
    (b"1.5", b"707 at 1"),
    (b"1.", b"707 at 1"),
    (b".5", b"707 at 1"),
    (b"1e5", b"707 at 1"),
    (b"1E+5", b"707 at 1"),
    (b"1e-5", b"707 at 1"),
    (b"0x1p3", b"707 at 1"),
    (b"0x1P-3", b"707 at 1"),
    (b"0x1.", b"707 at 1"),
    (b"09.5", b"707 at 1"),
    (b"08e1", b"707 at 1"),
    (b"18446744073709551616.0", b"707 at 1"),
    (b"1..2", b"707 at 1"),
    (b"..5", b"707 at 1"),
    (b"a\n= 3.14;", b"707 at 2"),
];

/// No floating constants.
#[rattlefmt::skip]
pub static NOT_FLOATING: [(&[u8], &[u8]); 10] = [
    (b"1e", b"1:1 i 1d\n1:2 w e\n"),
    (b"1e+", b"1:1 i 1d\n1:2 w e\n1:3 p +\n"),
    (b"1ex", b"1:1 i 1d\n1:2 w ex\n"),
    (b"1p3", b"1:1 i 1d\n1:2 w p3\n"),
    (b"0x1e5", b"1:1 i 485x\n"),
    (b"0x1p", b"1:1 i 1x\n1:4 w p\n"),
    (b"a.b", b"1:1 w a\n1:2 p .\n1:3 w b\n"),
    (b". 5", b"1:1 p .\n1:3 i 5d\n"),
    (b"...5", b"1:1 p ...\n1:4 i 5d\n"),
    (b"1u.x", b"1:1 i 1du\n1:3 p .\n1:4 w x\n"),
];

/// Characters.
#[rattlefmt::skip]
pub static CHARACTERS: [(&[u8], &[u8]); 18] = [
    (b"'a' '\"' ' '", b"1:1 c 97\n1:5 c 34\n1:9 c 32\n"),
    (b"'\\n' '\\t' '\\r' '\\0' '\\\\' '\\'' '\\\"'", b"1:1 c 10\n1:6 c 9\n1:11 c 13\n1:16 c 0\n1:21 c 92\n1:26 c 39\n1:31 c 34\n"),
    (b"'\\x41' '\\xfF' '\\101' '\\000' '\\377'", b"1:1 c 65\n1:8 c 255\n1:15 c 65\n1:22 c 0\n1:29 c 255\n"),
    (b"''", b"701 at 1"),
    (b"'ab'", b"701 at 1"),
    (b"'\\q'", b"701 at 1"),
    (b"'\\12'", b"701 at 1"),
    (b"'\\x4'", b"701 at 1"),
    (b"'\\400'", b"701 at 1"),
    (b"'\\08'", b"701 at 1"),
    (b"'", b"702 at 1"),
    (b"'a", b"702 at 1"),
    (b"'\\", b"702 at 1"),
    (b"'\\x", b"702 at 1"),
    (b"'\\x4", b"702 at 1"),
    (b"'\\n", b"702 at 1"),
    (b"a\n'a\n'", b"702 at 2"),
    (b"'\xe9'", b"1:1 c 233\n"),
];

/// Texts.
#[rattlefmt::skip]
pub static TEXTS: [(&[u8], &[u8]); 20] = [
    (b"\"\"", b"1:1 t \n"),
    (b"\"a b\" \"c\"", b"1:1 t a b\n1:7 t c\n"),
    (b"\"\\n\\t\\r\\0\\\\\\'\\\"\"", b"1:1 t \n\t\r\0\\'\"\n"),
    (b"\"\\x41\\x4a\\xFFg\"", b"1:1 t AJ\xffg\n"),
    (b"\"\\101\\3770\\0012\"", b"1:1 t A\xff0\x012\n"),
    (b"\"\\08\"", b"1:1 t \08\n"),
    (b"\"\\0\"", b"1:1 t \0\n"),
    (b"\"\\0a\\01\"", b"1:1 t \0a\01\n"),
    (b"\"\\q\"", b"701 at 1"),
    (b"\"\\12\"", b"701 at 1"),
    (b"\"\\xg0\"", b"701 at 1"),
    (b"\"\\x4\"", b"701 at 1"),
    (b"\"\\400\"", b"701 at 1"),
    (b"\"", b"702 at 1"),
    (b"a\n\"b\\\"", b"702 at 2"),
    (b"\"a\nb\"", b"702 at 1"),
    (b"\"\\", b"702 at 1"),
    (b"\"\\x", b"702 at 1"),
    (b"\"\\x4", b"702 at 1"),
    (b"\"a//b/*c#\"", b"1:1 t a//b/*c#\n"),
];

/// Punctuators, the longest first.
#[rattlefmt::skip]
pub static PUNCTUATORS: [(&[u8], &[u8]); 19] = [
    (b";{}()*,=:?^&<>+-/%!~[].|", b"1:1 p ;\n1:2 p {\n1:3 p }\n1:4 p (\n1:5 p )\n1:6 p *\n1:7 p ,\n1:8 p =\n1:9 p :\n1:10 p ?\n1:11 p ^\n1:12 p &\n1:13 p <\n1:14 p >\n1:15 p +\n1:16 p -\n1:17 p /\n1:18 p %\n1:19 p !\n1:20 p ~\n1:21 p [\n1:22 p ]\n1:23 p .\n1:24 p |\n"),
    (b"|| && == != <= >= << >> ++ -- -> += -= *= /= %= &= |= ^= <<= >>= ...", b"1:1 p ||\n1:4 p &&\n1:7 p ==\n1:10 p !=\n1:13 p <=\n1:16 p >=\n1:19 p <<\n1:22 p >>\n1:25 p ++\n1:28 p --\n1:31 p ->\n1:34 p +=\n1:37 p -=\n1:40 p *=\n1:43 p /=\n1:46 p %=\n1:49 p &=\n1:52 p |=\n1:55 p ^=\n1:58 p <<=\n1:62 p >>=\n1:66 p ...\n"),
    (b"a<<=b>>=c<<d>>e<=f", b"1:1 w a\n1:2 p <<=\n1:5 w b\n1:6 p >>=\n1:9 w c\n1:10 p <<\n1:12 w d\n1:13 p >>\n1:15 w e\n1:16 p <=\n1:18 w f\n"),
    (b"a+++++b", b"1:1 w a\n1:2 p ++\n1:4 p ++\n1:6 p +\n1:7 w b\n"),
    (b"a---->b", b"1:1 w a\n1:2 p --\n1:4 p --\n1:6 p >\n1:7 w b\n"),
    (b"<<<=", b"1:1 p <<\n1:3 p <=\n"),
    (b"<<==", b"1:1 p <<=\n1:4 p =\n"),
    (b">>>=", b"1:1 p >>\n1:3 p >=\n"),
    (b"....", b"1:1 p ...\n1:4 p .\n"),
    (b".....", b"1:1 p ...\n1:4 p .\n1:5 p .\n"),
    (b"..", b"1:1 p .\n1:2 p .\n"),
    (b"===", b"1:1 p ==\n1:3 p =\n"),
    (b"&&&", b"1:1 p &&\n1:3 p &\n"),
    (b"|||=", b"1:1 p ||\n1:3 p |=\n"),
    (b"->->", b"1:1 p ->\n1:3 p ->\n"),
    (b"-->", b"1:1 p --\n1:3 p >\n"),
    (b"a/=b", b"1:1 w a\n1:2 p /=\n1:4 w b\n"),
    (b"`", b"701 at 1"),
    (b"@", b"701 at 1"),
];

/// Comments.
#[rattlefmt::skip]
pub static COMMENTS: [(&[u8], &[u8]); 13] = [
    (b"/**/", b""),
    (b"/***/a", b"1:6 w a\n"),
    (b"/*/ a */b", b"1:9 w b\n"),
    (b"a/* b */c", b"1:1 w a\n1:9 w c\n"),
    (b"a /* b\n c **/ d", b"1:1 w a\n2:8 w d\n"),
    (b"// a\nb", b"2:1 w b\n"),
    (b"a//b\nc", b"1:1 w a\n2:1 w c\n"),
    (b"/* // */ a", b"1:10 w a\n"),
    (b"// /* a\nb */", b"2:1 w b\n2:3 p *\n2:4 p /\n"),
    (b"/*\n/*\n*/ a", b"3:4 w a\n"),
    (b"/* \" ' # \0 */a", b"1:14 w a\n"),
    (b"a / * b", b"1:1 w a\n1:3 p /\n1:5 p *\n1:7 w b\n"),
    (b"*/", b"1:1 p *\n1:2 p /\n"),
];

/// Comments that stay open.
#[rattlefmt::skip]
pub static OPEN_COMMENTS: [(&[u8], &[u8]); 5] = [
    (b"/*", b"702 at 1"),
    (b"\n/* a\n*", b"702 at 2"),
    (b"a\n\n/* b\n\nc\n", b"702 at 3"),
    (b"/*/", b"702 at 1"),
    (b"a /* */ /* b", b"702 at 1"),
];

/// Lines that are passed over.
#[rattlefmt::skip]
pub static PASSED_LINES: [(&[u8], &[u8]); 7] = [
    (b"#include \"x\"\n # include <x>\n\t#\tinclude@\n", b"1:1 n #include \"x\"\n2:2 n # include <x>\n3:2 n #\tinclude@\n"),
    (b"#include <x> /*\na", b"1:1 n #include <x> /*\n2:1 w a\n"),
    (b"#define PERL_NO_GET_CONTEXT\n #\tdefine \t PERL_NO_GET_CONTEXT \t", b"1:1 n #define PERL_NO_GET_CONTEXT\n2:2 n #\tdefine \t PERL_NO_GET_CONTEXT\n"),
    (b"#define PERL_NO_GET_CONTEXT /* a **/ /* / */ // b /*\na", b"1:1 n #define PERL_NO_GET_CONTEXT\n2:1 w a\n"),
    (b"#define PERL_NO_GET_CONTEXT /* a\nb */ c", b"1:1 n #define PERL_NO_GET_CONTEXT\n2:6 w c\n"),
    (b"f() {\n#include \"x\"\n}", b"1:1 w f\n1:2 p (\n1:3 p )\n1:5 p {\n2:1 n #include \"x\"\n3:1 p }\n"),
    (b"/*\n*/\n#include \"x\"", b"3:1 n #include \"x\"\n"),
];

/// Defines.
#[rattlefmt::skip]
pub static DEFINES: [(&[u8], &[u8]); 10] = [
    (b"#define N 1", b"1:1 d N 1d\n"),
    (b" # \t define  N  0x1FuL", b"706 at 1"),
    (b"#define N 0x1FUL // x", b"1:1 d N 31xul\n"),
    (b"#define N/**/007 /* a */ /* b */", b"1:1 d N 7o\n"),
    (b"#define N 1 /* a\nb */ c", b"1:1 d N 1d\n2:6 w c\n"),
    (b"#define N 1/**/", b"1:1 d N 1d\n"),
    (b"#define PERL_NO_GET_CONTEXT 1", b"1:1 d PERL_NO_GET_CONTEXT 1d\n"),
    (b"#define _n2 18446744073709551615", b"1:1 d _n2 18446744073709551615d\n"),
    (b"int a;\n#define N 5\nint b;", b"1:1 w int\n1:5 w a\n1:6 p ;\n2:1 d N 5d\n3:1 w int\n3:5 w b\n3:6 p ;\n"),
    (b"#define RETVAL 1", b"1:1 d RETVAL 1d\n"),
];

/// Defines that are refused.
#[rattlefmt::skip]
pub static REFUSED_DEFINES: [(&[u8], &[u8]); 30] = [
    (b"#define", b"706 at 1"),
    (b"#define ", b"706 at 1"),
    (b"#define N", b"706 at 1"),
    (b"#define N -1", b"706 at 1"),
    (b"#define N (1)", b"706 at 1"),
    (b"#define N 1.5", b"706 at 1"),
    (b"#define N 1e5", b"706 at 1"),
    (b"#define N a", b"706 at 1"),
    (b"#define N 1 2", b"706 at 1"),
    (b"#define N 1x", b"706 at 1"),
    (b"#define N 09", b"706 at 1"),
    (b"#define N 1 /", b"706 at 1"),
    (b"#define N() 1", b"706 at 1"),
    (b"#define N\"1\"", b"706 at 1"),
    (b"#define N+1", b"706 at 1"),
    (b"#define 1 1", b"706 at 1"),
    (b"#define int 1", b"706 at 1"),
    (b"#define const 5", b"706 at 1"),
    (b"#define dTHX 1", b"706 at 1"),
    (b"#define newSV 1", b"706 at 1"),
    (b"#define NULL 0", b"706 at 1"),
    (b"#define items 1", b"706 at 1"),
    (b"#define XSANY 1", b"706 at 1"),
    (b"#define ST 1", b"706 at 1"),
    (b"#define N /* a", b"706 at 1"),
    (b"#define/**/N 1", b"706 at 1"),
    (b"#define PERL_NO_GET_CONTEXT a", b"706 at 1"),
    (b"#define PERL_NO_GET_CONTEXTS", b"706 at 1"),
    (b"#define N 1\r", b"706 at 1"),
    (b"\n#define N x", b"706 at 2"),
];

/// Defines of an integer that is too wide.
#[rattlefmt::skip]
pub static WIDE_DEFINES: [(&[u8], &[u8]); 2] = [
    (b"#define N 18446744073709551616", b"703 at 1"),
    (b"#define N 0x10000000000000000 x", b"703 at 1"),
];

/// Signs that begin no directive.
#[rattlefmt::skip]
pub static STRAY_SIGNS: [(&[u8], &[u8]); 14] = [
    (b"#", b"701 at 1"),
    (b"#if 1", b"701 at 1"),
    (b"#include1", b"701 at 1"),
    (b"#includes <x>", b"701 at 1"),
    (b"#defined N 1", b"701 at 1"),
    (b"#/**/include <x>", b"701 at 1"),
    (b"# 1", b"701 at 1"),
    (b"/* */ #include <x>", b"701 at 1"),
    (b"/*\n*/ #define N 1", b"701 at 2"),
    (b"a #include <x>", b"701 at 1"),
    (b"a # b", b"701 at 1"),
    (b"##", b"701 at 1"),
    (b"#undef N", b"701 at 1"),
    (b"#_define N 1", b"701 at 1"),
];
