//! Which texts some tree spells, where others break off, and what a script is, by example.
use c_grammar::tree::{CExp, Dimensions, Items, Stmt};
use c_grammar::{Production, ScriptFault, Step, one_tree, script};
use c_lex::tokens;
use std::alloc::Global;
use std::test::Fail;

/// The place of the syntax fault of a text, or none where some tree spells its tokens.
fn fault_of(alloc: Global, text: &[u8]) -> Result<Option<usize>, Fail> {
    let all = tokens(alloc, text)?;
    match script(alloc, &all) {
        Ok(_) => Ok(None),
        Err(ScriptFault::Syntax(at)) => Ok(Some(at)),
        Err(fault) => Err(fault.into()),
    }
}

/// Whether some tree spells the tokens of a text.
fn is_spelled(alloc: Global, text: &[u8]) -> Result<bool, Fail> {
    Ok(fault_of(alloc, text)?.is_none())
}

/// Texts, and whether some tree spells them.
static ROWS: [(&str, bool); 78] = [
    ("", true),
    (";", false),
    ("int;", true),
    ("typedef int;", true),
    ("int f(void) { return 0; }", true),
    ("int f { return 0; }", false),
    ("typedef int f(void) { return 0; }", false),
    ("int f(void), g;", true),
    ("int f(void), g(void) { return 0; }", false),
    ("int a[3](void);", true),
    // the words of a type
    ("long const int x;", true),
    ("static static extern int x;", true),
    ("unsigned long int long x;", true),
    ("long long long x;", false),
    ("signed unsigned x;", false),
    ("char int x;", false),
    ("short char x;", false),
    ("const x;", false),
    ("int void x;", false),
    // typedef names
    ("typedef int t; t x;", true),
    ("t x; typedef int t;", false),
    ("typedef int t, a[(t)1];", false),
    ("typedef int t, a[sizeof(t)];", true),
    ("typedef int t; typedef int t;", false),
    ("typedef int t; struct s { int t; };", false),
    ("typedef int t; void f(struct s *p) { p->t = 1; }", false),
    ("typedef struct node node; struct node *p;", false),
    ("typedef int t; void f(int t) { }", false),
    ("void f(void) { x * y; }", false),
    ("typedef int x; void f(void) { x * y; }", true),
    ("typedef int x; void f(void) { a = (x) - 1; }", true),
    ("void f(void) { a = (x) - 1; }", true),
    ("typedef int x; void f(void) { a = (x)(x) - 1; }", true),
    ("int t; int t;", true),
    // structs and enums
    ("struct s { int a, *b[2]; const char c; } x;", true),
    ("struct s { };", false),
    ("struct s { int f(void); };", false),
    ("struct { int a; } f(int b) { return 0; }", true),
    ("void f(struct { int a; } b);", false),
    ("void f(void) { struct s { int a; } b; }", false),
    ("struct s { struct t { int a; } b; };", false),
    ("int a[sizeof(struct { int b; })];", true),
    ("enum e { A, B = 2, C, };", true),
    ("enum e { };", false),
    ("enum { A, , B };", false),
    // parameters
    ("int f();", true),
    ("int f(void);", true),
    ("int f(void, int);", true),
    (
        "int f(int a[], int *const b, char *const *, long [3]);",
        true,
    ),
    ("int f(int a,);", false),
    ("int f(a);", false),
    // statements
    ("void f(void) { if (a) if (b) ; else ; }", true),
    ("void f(void) { if (a) ; else if (b) ; else ; }", true),
    ("void f(void) { if (a) ; else ; else ; }", false),
    ("void f(void) { while (a) do x = 1; while (b); }", true),
    (
        "void f(void) { for (;;) ; for (i = 0; i < 9; i++) ; for (int i = 0, j; ; f(i)) { } }",
        true,
    ),
    ("void f(void) { for (i = 0) ; }", false),
    (
        "void f(void) { switch (a) { case 1: case 2: x = 1; break; default: { } int y; } }",
        true,
    ),
    ("void f(void) { switch (a) { x = 1; } }", false),
    ("void f(void) { switch (a) { case 1: } }", false),
    ("void f(void) { switch (a) { } }", true),
    ("void f(void) { int a = g(1, 2), b = 3; return g(); }", true),
    ("int x = g();", false),
    ("void f(void) { return g() + 1; }", false),
    ("void f(void) { return (g()); }", false),
    ("void f(void) { g(g(1)); }", false),
    ("void f(void) { break; continue; return; ; }", true),
    // simple statements
    (
        "void f(void) { a = b; a += b; a++; --a; *p = 1; p->a[1].b = 2; (a) = 1; f(); }",
        true,
    ),
    ("void f(void) { *p++; }", false),
    ("void f(void) { a++ + b; }", false),
    ("void f(void) { (int)a = 1; }", false),
    ("void f(void) { a = b = c; }", false),
    ("void f(void) { ++*p; }", true),
    // expressions
    ("int x = a - - b;", true),
    ("int x = a -- b;", false),
    ("int x = a+++b;", false),
    (
        "int x = a ? b : c ? d : e || f && g | h ^ i & j == k < l << m + n * o;",
        true,
    ),
    (
        "int x = sizeof a + sizeof(int *) - sizeof(a)[1] + !~-+*&'c';",
        true,
    ),
];

#[test]
fn texts(rt: HostRuntime) -> Result<(), Fail> {
    one_tree();
    for (text, spelled) in &ROWS {
        assert!(rt;
            is_spelled(rt.alloc(), text.as_bytes())? == *spelled,
            "{text}"
        );
    }
    Ok(())
}

/// Texts that no tree spells, and where: at the token that can't stand, or at the end of a text that breaks off.
static FAULTS: [(&str, usize); 10] = [
    (";", 0),
    ("int x; ;", 7),
    ("int x", 5),
    ("int x = ", 7),
    ("int f { return 0; }", 6),
    ("char int x;", 5),
    ("void f(void) { x * y; }", 17),
    ("int x = a -- b;", 10),
    ("void f(void) { if (a) ; else ; else ; }", 31),
    ("void f(void) { return 0; ", 24),
];

#[test]
fn faults(rt: HostRuntime) -> Result<(), Fail> {
    for (text, at) in &FAULTS {
        assert!(rt;
            fault_of(rt.alloc(), text.as_bytes())? == Some(*at),
            "{text}"
        );
    }
    Ok(())
}

/// The script of `int;`: each part comes before its whole.
static SCRIPT: [Step; 9] = [
    Step::Shift,
    Step::Reduce(Production::Reserved),
    Step::Reduce(Production::NoWords),
    Step::Reduce(Production::MoreWords),
    Step::Shift,
    Step::Reduce(Production::NoTops),
    Step::Reduce(Production::Declaration(false)),
    Step::Reduce(Production::NoExternals),
    Step::Reduce(Production::MoreExternals),
];

#[test]
fn scripts(rt: HostRuntime) -> Result<(), Fail> {
    let all = tokens(rt.alloc(), b"int;")?;
    let steps = script(rt.alloc(), &all)?;
    assert!(rt; steps.as_slice() == SCRIPT.as_slice());
    Ok(())
}

#[test]
fn long_lists_drop(rt: HostRuntime) -> Result<(), Fail> {
    let alloc = rt.alloc();
    let mut items = Items::None;
    let mut dimensions = Dimensions::None;
    for at in 0..200_000 {
        items = Items::Statement(Box::new(alloc, Stmt::Empty(at))?, Box::new(alloc, items)?);
        dimensions = Dimensions::More(
            Box::new(alloc, CExp::Character(at, 0))?,
            Box::new(alloc, dimensions)?,
        );
    }
    drop(items);
    drop(dimensions);
    Ok(())
}

/// A text with so many bytes of one kind and of another between its parts.
fn nested(
    alloc: Global,
    front: &[u8],
    open: (u8, usize),
    middle: &[u8],
    close: (u8, usize),
    back: &[u8],
) -> Result<Vec<u8>, Fail> {
    let mut text = Vec::new(alloc);
    text.extend_from_slice(front)?;
    for _ in 0..open.1 {
        text.push(open.0)?;
    }
    text.extend_from_slice(middle)?;
    for _ in 0..close.1 {
        text.push(close.0)?;
    }
    text.extend_from_slice(back)?;
    Ok(text)
}

#[test]
fn deep_texts(rt: HostRuntime) -> Result<(), Fail> {
    let alloc = rt.alloc();
    let closed = nested(
        alloc,
        b"int x = ",
        (b'(', 100_000),
        b"1",
        (b')', 100_000),
        b";",
    )?;
    assert!(rt; is_spelled(alloc, &closed)?);
    let open = nested(
        alloc,
        b"int x = ",
        (b'(', 100_000),
        b"1",
        (b')', 99_999),
        b";",
    )?;
    assert!(rt; !is_spelled(alloc, &open)?);
    let blocks = nested(
        alloc,
        b"void f(void) ",
        (b'{', 100_000),
        b"",
        (b'}', 100_000),
        b"",
    )?;
    assert!(rt; is_spelled(alloc, &blocks)?);
    let more = nested(
        alloc,
        b"void f(void) ",
        (b'{', 100_000),
        b"",
        (b'}', 100_001),
        b"",
    )?;
    assert!(rt; !is_spelled(alloc, &more)?);
    let signs = nested(alloc, b"int x = ", (b'~', 200_000), b"1;", (b' ', 0), b"")?;
    assert!(rt; is_spelled(alloc, &signs)?);
    Ok(())
}
