//! What no clause says: how texts are read, by example.
use c_lex::{LexFault, Token, TokenKind, tokens};
use std::alloc::Global;
use std::fmt::Write;
use std::test::Fail;

/// What a number's token says besides its value: its base, and the letters of its suffix.
fn suffix(decimal: bool, unsigned: bool, longs: u8) -> (&'static str, &'static str, &'static str) {
    let base = if decimal { "" } else { " not decimal" };
    let unsigned = if unsigned { " u" } else { "" };
    match longs {
        0 => (base, unsigned, ""),
        1 => (base, unsigned, " l"),
        _ => (base, unsigned, " l l"),
    }
}

/// What a token is, in words.
fn write_kind(out: &mut String, kind: &TokenKind) -> Result<(), Fail> {
    match kind {
        TokenKind::Name(name) => Ok(write!(out, "name {name}")?),
        TokenKind::Keyword(keyword) => Ok(write!(out, "keyword {}", keyword.text())?),
        TokenKind::Punct(punct) => Ok(write!(out, "punct {}", punct.text())?),
        TokenKind::Character(value) => Ok(write!(out, "character {value}")?),
        TokenKind::Number {
            value,
            decimal,
            unsigned,
            longs,
        } => {
            let (base, u, l) = suffix(*decimal, *unsigned, *longs);
            Ok(write!(out, "number {value}{base}{u}{l}")?)
        }
    }
}

/// A token in words, with its place.
fn write_token(out: &mut String, token: &Token) -> Result<(), Fail> {
    write_kind(out, &token.kind)?;
    Ok(write!(out, " {}..{}", token.start, token.end)?)
}

/// The tokens of a text in words, or its fault.
fn shown(alloc: Global, text: &[u8]) -> Result<String, Fail> {
    let mut out = String::new(alloc);
    match tokens(alloc, text) {
        Ok(all) => for (i, token) in all.iter().enumerate() {
            if i > 0 {
                out.push_str(", ")?;
            }
            write_token(&mut out, token)?;
        },
        Err(fault) => write!(out, "{fault}")?,
    }
    Ok(out)
}

/// Texts, and what they are read as.
static ROWS: [(&str, &str); 111] = [
    // every keyword
    (
        "break case char const continue default do else enum extern for if inline int long return short signed sizeof static struct switch typedef unsigned void while",
        "keyword break 0..5, keyword case 6..10, keyword char 11..15, keyword const 16..21, keyword continue 22..30, keyword default 31..38, keyword do 39..41, keyword else 42..46, keyword enum 47..51, keyword extern 52..58, keyword for 59..62, keyword if 63..65, keyword inline 66..72, keyword int 73..76, keyword long 77..81, keyword return 82..88, keyword short 89..94, keyword signed 95..101, keyword sizeof 102..108, keyword static 109..115, keyword struct 116..122, keyword switch 123..129, keyword typedef 130..137, keyword unsigned 138..146, keyword void 147..151, keyword while 152..157",
    ),
    // every punctuator, apart and the longest that fits
    (
        "{ } ( ) [ ] ; , : ? . -> ++ -- & * + - ~ ! / % << >> < > <= >= == != ^ | && || = *= /= %= += -= <<= >>= &= ^= |=",
        "punct { 0..1, punct } 2..3, punct ( 4..5, punct ) 6..7, punct [ 8..9, punct ] 10..11, punct ; 12..13, punct , 14..15, punct : 16..17, punct ? 18..19, punct . 20..21, punct -> 22..24, punct ++ 25..27, punct -- 28..30, punct & 31..32, punct * 33..34, punct + 35..36, punct - 37..38, punct ~ 39..40, punct ! 41..42, punct / 43..44, punct % 45..46, punct << 47..49, punct >> 50..52, punct < 53..54, punct > 55..56, punct <= 57..59, punct >= 60..62, punct == 63..65, punct != 66..68, punct ^ 69..70, punct | 71..72, punct && 73..75, punct || 76..78, punct = 79..80, punct *= 81..83, punct /= 84..86, punct %= 87..89, punct += 90..92, punct -= 93..95, punct <<= 96..99, punct >>= 100..103, punct &= 104..106, punct ^= 107..109, punct |= 110..112",
    ),
    (
        "a+++b",
        "name a 0..1, punct ++ 1..3, punct + 3..4, name b 4..5",
    ),
    ("- -", "punct - 0..1, punct - 2..3"),
    ("--", "punct -- 0..2"),
    ("<<=>>=", "punct <<= 0..3, punct >>= 3..6"),
    ("<<<", "punct << 0..2, punct < 2..3"),
    ("->-->", "punct -> 0..2, punct -- 2..4, punct > 4..5"),
    ("&&&", "punct && 0..2, punct & 2..3"),
    ("..", "punct . 0..1, punct . 1..2"),
    (".5", "punct . 0..1, number 5 1..2"),
    ("===", "punct == 0..2, punct = 2..3"),
    // what is refused
    ("asm", "unsupported asm at 0"),
    ("auto", "unsupported auto at 0"),
    ("double", "unsupported double at 0"),
    ("float", "unsupported float at 0"),
    ("goto", "unsupported goto at 0"),
    ("register", "unsupported register at 0"),
    ("restrict", "unsupported restrict at 0"),
    ("union", "unsupported union at 0"),
    ("volatile", "unsupported volatile at 0"),
    ("_Bool", "unsupported _Bool at 0"),
    ("_Complex", "unsupported _Complex at 0"),
    ("_Imaginary", "unsupported _Imaginary at 0"),
    ("__asm__", "unsupported __asm__ at 0"),
    ("__attribute__", "unsupported __attribute__ at 0"),
    ("__extension__", "unsupported __extension__ at 0"),
    ("\"a\"", "unsupported \" at 0"),
    ("...", "unsupported ... at 0"),
    ("x....", "unsupported ... at 1"),
    ("#", "unsupported # at 0"),
    ("a # 1", "unsupported # at 2"),
    ("#define", "unsupported # at 0"),
    ("#if 1", "unsupported # at 0"),
    ("$", "bad byte at 0"),
    ("a@", "bad byte at 1"),
    ("\\", "bad byte at 0"),
    ("\x01", "bad byte at 0"),
    // names
    ("_", "name _ 0..1"),
    ("_x9 int1 L", "name _x9 0..3, name int1 4..8, name L 9..10"),
    (
        "aaaaaaaaaaaaaaaaaaaaaaaaaaaaaaaaaaaaaaaaaaaaaaaaaaaaaaaaaaaaaaa",
        "name aaaaaaaaaaaaaaaaaaaaaaaaaaaaaaaaaaaaaaaaaaaaaaaaaaaaaaaaaaaaaaa 0..63",
    ),
    (
        "aaaaaaaaaaaaaaaaaaaaaaaaaaaaaaaaaaaaaaaaaaaaaaaaaaaaaaaaaaaaaaaa",
        "long name at 0",
    ),
    ("autos __asm_", "name autos 0..5, name __asm_ 6..12"),
    // numbers
    ("0 007 08", "bad number at 6"),
    ("0", "number 0 not decimal 0..1"),
    ("007", "number 7 not decimal 0..3"),
    ("08", "bad number at 0"),
    ("09", "bad number at 0"),
    ("0x", "bad number at 0"),
    ("0xg", "bad number at 0"),
    (
        "0x1F 0XaB",
        "number 31 not decimal 0..4, number 171 not decimal 5..9",
    ),
    ("1.5", "bad number at 0"),
    ("1e3", "bad number at 0"),
    ("1_", "bad number at 0"),
    ("1.", "bad number at 0"),
    ("0_", "bad number at 0"),
    ("0x1.", "bad number at 0"),
    ("12ab", "bad number at 0"),
    (
        "1u 1U 1l 1L 1ll 1LL",
        "number 1 u 0..2, number 1 u 3..5, number 1 l 6..8, number 1 l 9..11, number 1 l l 12..15, number 1 l l 16..19",
    ),
    (
        "1ul 1uL 1Ul 1UL 1ull 1uLL 1Ull 1ULL",
        "number 1 u l 0..3, number 1 u l 4..7, number 1 u l 8..11, number 1 u l 12..15, number 1 u l l 16..20, number 1 u l l 21..25, number 1 u l l 26..30, number 1 u l l 31..35",
    ),
    (
        "1lu 1lU 1Lu 1LU 1llu 1llU 1LLu 1LLU",
        "number 1 u l 0..3, number 1 u l 4..7, number 1 u l 8..11, number 1 u l 12..15, number 1 u l l 16..20, number 1 u l l 21..25, number 1 u l l 26..30, number 1 u l l 31..35",
    ),
    ("1lL", "bad number at 0"),
    ("1Ll", "bad number at 0"),
    ("1ulL", "bad number at 0"),
    ("1uu", "bad number at 0"),
    ("1lul", "bad number at 0"),
    ("1lll", "bad number at 0"),
    (
        "00u 0xFul",
        "number 0 not decimal u 0..3, number 15 not decimal u l 4..9",
    ),
    // character constants
    (
        "'a' ' ' '\"' '~'",
        "character 97 0..3, character 32 4..7, character 34 8..11, character 126 12..15",
    ),
    (
        "'\\n' '\\t' '\\r' '\\a' '\\b' '\\f' '\\v' '\\\\' '\\'' '\\\"' '\\?'",
        "character 10 0..4, character 9 5..9, character 13 10..14, character 7 15..19, character 8 20..24, character 12 25..29, character 11 30..34, character 92 35..39, character 39 40..44, character 34 45..49, character 63 50..54",
    ),
    ("'\\0' '\\7'", "character 0 0..4, character 7 5..9"),
    ("'\\12' '\\377'", "character 10 0..5, character 255 6..12"),
    ("'\\400'", "bad byte at 0"),
    ("'\\18'", "bad byte at 0"),
    ("'\\1234'", "bad byte at 0"),
    (
        "'\\x4' '\\x41' '\\xfF'",
        "character 4 0..5, character 65 6..12, character 255 13..19",
    ),
    ("'\\x'", "bad byte at 0"),
    ("'\\x414'", "bad byte at 0"),
    ("'\\e'", "bad byte at 0"),
    ("''", "bad byte at 0"),
    ("'", "bad byte at 0"),
    ("'a", "bad byte at 0"),
    ("'ab'", "bad byte at 0"),
    ("'\\", "bad byte at 0"),
    ("'''", "bad byte at 0"),
    ("'\t'", "bad byte at 0"),
    ("L'a'", "name L 0..1, character 97 1..4"),
    // comments
    ("/**/a", "name a 4..5"),
    ("/* /* */ b", "name b 9..10"),
    ("a/* x\n*/b", "name a 0..1, name b 8..9"),
    ("/*/", "open comment at 0"),
    ("a /* x", "open comment at 2"),
    ("// x\ny", "name y 5..6"),
    ("// x", ""),
    ("//*\nz", "name z 4..5"),
    ("a/b", "name a 0..1, punct / 1..2, name b 2..3"),
    ("a//b\n/c", "name a 0..1, punct / 5..6, name c 6..7"),
    ("/ *", "punct / 0..1, punct * 2..3"),
    // lines that tell where the text comes from
    ("# 1 \"x\" /*\na", "name a 11..12"),
    ("#1\nb", "name b 3..4"),
    ("  \t# \t2", ""),
    ("c\n #3 '\nd", "name c 0..1, name d 8..9"),
    ("# 1", ""),
    ("/* */ # 1", "unsupported # at 6"),
    ("/*\n# 1 */ e", "name e 10..11"),
    ("/*\n*/ # 1", "unsupported # at 6"),
    ("\x0b# 1", "unsupported # at 1"),
    ("\r# 1", "unsupported # at 1"),
    ("\r\n# 1\r\n f", "name f 8..9"),
    ("# x", "unsupported # at 0"),
    ("# \n1", "unsupported # at 0"),
];

#[test]
fn reads_each_kind(rt: HostRuntime) -> Result<(), Fail> {
    for (text, want) in &ROWS {
        let got = shown(rt.alloc(), text.as_bytes())?;
        assert!(rt; got.as_str() == *want, "at {text:?}");
    }
    Ok(())
}

/// 2 to the 31, 32, 63 and 64, and the numbers before them, in each base.
static VALUES: [(&str, &str, &str); 8] = [
    ("2147483647", "017777777777", "0x7fffffff"),
    ("2147483648", "020000000000", "0x80000000"),
    ("4294967295", "037777777777", "0xffffffff"),
    ("4294967296", "040000000000", "0x100000000"),
    (
        "9223372036854775807",
        "0777777777777777777777",
        "0x7fffffffffffffff",
    ),
    (
        "9223372036854775808",
        "01000000000000000000000",
        "0x8000000000000000",
    ),
    (
        "18446744073709551615",
        "01777777777777777777777",
        "0xffffffffffffffff",
    ),
    (
        "18446744073709551616",
        "02000000000000000000000",
        "0x10000000000000000",
    ),
];

/// How many of the values a number with such a suffix may have.
fn types_of(is_decimal: bool, suffix: &str) -> usize {
    if is_decimal && !suffix.starts_with('u') {
        5
    } else {
        7
    }
}

/// Whether a number is read where it fits, and refused where it doesn't.
fn is_read_where_it_fits(alloc: Global, text: &[u8], fits: bool) -> bool {
    match tokens(alloc, text) {
        Ok(_) => fits,
        Err(fault) => !fits && fault == LexFault::BadNumber(0),
    }
}

#[test]
fn numbers_end_at_their_types(rt: HostRuntime) -> Result<(), Fail> {
    for (i, (decimal, octal, hexadecimal)) in VALUES.iter().enumerate() {
        for (digits, is_decimal) in [(*decimal, true), (*octal, false), (*hexadecimal, false)] {
            for suffix in ["", "u", "l", "ul", "ll", "ull"] {
                let text = format!(in rt.alloc(); "{digits}{suffix}")?;
                let is_read = is_read_where_it_fits(
                    rt.alloc(),
                    text.as_bytes(),
                    i < types_of(is_decimal, suffix),
                );
                assert!(rt; is_read, "{text}");
            }
        }
    }
    Ok(())
}

/// Long texts of one kind end in time, and no text is too long for the stack.
#[test]
fn reads_long_texts(rt: HostRuntime) -> Result<(), Fail> {
    for (piece, count, want) in [
        (";", 262_144, None),
        ("(", 262_144, None),
        ("/*", 131_072, Some(LexFault::OpenComment(262_140))),
        ("a", 262_144, Some(LexFault::LongName(0))),
    ] {
        let mut text = String::new(rt.alloc());
        for _ in 0..count {
            text.push_str(piece)?;
        }
        match tokens(rt.alloc(), text.as_bytes()) {
            Ok(all) => assert!(rt; (all.len(), None) == (count, want), "{piece}"),
            Err(fault) => assert!(rt; Some(fault) == want, "{piece}"),
        }
    }
    Ok(())
}
