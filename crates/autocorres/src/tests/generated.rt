//! Tests of generation, from texts. `worked_rows::generation_rows` has a row for each form of an
//! expression and of a statement.

use c_grammar::tree::Unit;
use c_lex::tokens;
use c_parse::parse;
use c_types::{TypedUnit, check_unit};
use c_values::Target;
use exception_elim::translate;
use expression_lang::Signature;
use rule_exn::check;
use rule_local::Context;
use simpl_gen::{default_modes, generate};
use simpl_lang::{Simpl, SimplFn, SimplUnit, commands, is_flat};
use std::alloc::{AllocError, Global};
use std::test::Fail;

fn parsed(alloc: Global, text: &str) -> Result<Unit, Fail> {
    let tokens = tokens(alloc, text.as_bytes())?;
    Ok(parse(alloc, &tokens)?)
}

fn typed(alloc: Global, text: &str) -> Result<TypedUnit, Fail> {
    let unit = parsed(alloc, text)?;
    Ok(check_unit(alloc, Target::Ilp32, &unit)?)
}

// What is generated for a unit, with these functions on bytes.
fn lowered(alloc: Global, unit: &TypedUnit, bytes: &[String]) -> Result<SimplUnit, AllocError> {
    let modes = default_modes(alloc, unit, bytes, &[])?;
    generate(alloc, unit, &modes)
}

// What is generated for a text, with the function of that name on bytes, where there is one.
fn generated(alloc: Global, text: &str, on_bytes: &str) -> Result<SimplUnit, Fail> {
    let name = String::from_str(alloc, on_bytes)?;
    let mut bytes = Vec::new(alloc);
    bytes.push(name)?;
    let unit = typed(alloc, text)?;
    Ok(lowered(alloc, &unit, &bytes)?)
}

// How the body of the last function is told.
fn shown(alloc: Global, text: &str) -> Result<String, Fail> {
    let unit = generated(alloc, text, "")?;
    let last = unit.functions.last().ok_or("no function")?;
    Ok(format!(in alloc; "{} {:?}", unit.functions.len(), last.body)?)
}

#[test]
fn a_returned_constant(rt: HostRuntime) -> Result<(), Fail> {
    let shown = shown(rt.alloc(), "unsigned f(void){return 7u;}")?;
    assert!(rt;
        shown.as_str()
            == "1 Catch(Seq(Seq(Set(\"$ret\", Word(Word { width: 32, bits: 7 })), Seq(Set(\"$exn\", Word(Word { width: 32, bits: 1 })), Throw)), Guard(Condition { kind: Unreached, exp: Truth(false) }, Skip)), Skip)"
    );
    Ok(())
}

// Whether the rules take a flat body to a program on bytes that binds its locals.
fn lifts(
    alloc: Global,
    flat: &Simpl,
    context: Context<'_>,
    outputs: &[String],
) -> Result<bool, AllocError> {
    let (program, tree) = local_lift::translate(alloc, flat, context, outputs)?;
    let verdict = rule_local::check(&tree, flat, &program, outputs, context);
    Ok(verdict.is_ok() && program.is_bytes())
}

fn lifts_locals(
    alloc: Global,
    flat: &Simpl,
    f: &SimplFn,
    signature: &Signature,
) -> Result<bool, AllocError> {
    let context = Context {
        locals: &f.locals,
        parameters: &signature.params,
    };
    let mut outputs = Vec::new(alloc);
    if signature.result.is_some() {
        let name = String::from_str(alloc, "$ret")?;
        outputs.push(name)?;
    }
    lifts(alloc, flat, context, &outputs)
}

// Whether the rules take a body to its translation, in which nothing is thrown, and that to a program
// on bytes.
fn becomes_program(alloc: Global, f: &SimplFn, signature: &Signature) -> Result<bool, AllocError> {
    let (flat, tree) = translate(alloc, &f.body)?;
    if check(&tree, &f.body, &flat).is_err() || !is_flat(&flat) {
        return Ok(false);
    }
    lifts_locals(alloc, &flat, f, signature)
}

fn become_programs(alloc: Global, u: &SimplUnit) -> Result<bool, AllocError> {
    for (f, signature) in u.functions.iter().zip(&u.signatures) {
        if !becomes_program(alloc, f, signature)? {
            return Ok(false);
        }
    }
    Ok(true)
}

// How many functions a text has, and how many commands the last of them, where all become programs.
fn counts(alloc: Global, text: &str, on_bytes: &str) -> Result<Option<(usize, u64)>, Fail> {
    let u = generated(alloc, text, on_bytes)?;
    if !become_programs(alloc, &u)? {
        return Ok(None);
    }
    let last = u.functions.last().ok_or("no function")?;
    Ok(Some((u.functions.len(), commands(&last.body))))
}

// So many copies of a part between two others.
fn around(
    alloc: Global,
    before: &str,
    part: &str,
    count: u32,
    behind: &str,
) -> Result<String, AllocError> {
    let mut text = String::from_str(alloc, before)?;
    for _ in 0..count {
        text.push_str(part)?;
    }
    text.push_str(behind)?;
    Ok(text)
}

// A function of so many writes to where its parameter points.
#[test]
fn counts_of_commands(rt: HostRuntime) -> Result<(), Fail> {
    for (writes, on_bytes, want) in [(199, "", 797), (200, "", 801), (200, "w", 601)] {
        let text = around(rt.alloc(), "void w(unsigned*p){", "*p=0u;", writes, "}")?;
        let found = counts(rt.alloc(), text.as_str(), on_bytes)?;
        assert!(rt; found == Some((1, want)), "{found:?}");
    }
    Ok(())
}

// So many functions of 200 statements each.
fn functions(alloc: Global, count: usize) -> Result<String, AllocError> {
    let body = around(alloc, "(unsigned a,unsigned b){", "a=a+b*3u;", 200, "}")?;
    let mut text = String::new(alloc);
    for n in 0..count {
        let function = format!(in alloc; "void f{n}{body}")?;
        text.push_str(function.as_str())?;
    }
    Ok(text)
}

// The commands are three for each statement, and 199 sequences; a catch with a skip around all.
#[test]
fn units_at_the_limits(rt: HostRuntime) -> Result<(), Fail> {
    for count in [256, 512, 1024] {
        let text = functions(rt.alloc(), count)?;
        let found = counts(rt.alloc(), text.as_str(), "")?;
        assert!(rt; found == Some((count, 801)), "{found:?}");
    }
    Ok(())
}

// Functions that copy a struct whose one member is an integer in so many arrays of one element, where
// the text is almost as long as one may be. The first function is on bytes.
#[test]
fn deep_types_are_generated(rt: HostRuntime) -> Result<(), Fail> {
    let behind = ";};struct t{int n;struct s b;};\
        void b(struct s*d,struct s*s){*d=*s;}\
        void c(struct s*d,struct s*s){*d=*s;}\
        void m(struct t*d,struct s*s){d->b=*s;}";
    let text = around(rt.alloc(), "struct s{int a", "[1]", 80_000, behind)?;
    let found = counts(rt.alloc(), text.as_str(), "b")?;
    assert!(rt; matches!(found, Some((3, _))));
    Ok(())
}

const BODIES: &str = "\
unsigned f(void){return 7u;}
void w(unsigned*p){*p=0u;if(*p)return;*p=1u;}
int g(int n){int s=0;int i;for(i=0;i<n;i++){if(i==3)continue;if(i>9)break;s=s+i;}return s;}
int d(int n){do{n=n-1;if(n==5)continue;if(n==3)break;}while(n>1);return n;}
int l(int n){while(1){while(n>0){n=n-1;if(n==5)return n;}if(n<0)break;n=n+9;}return 0;}
int s(int x){switch(x){case 1:return 2;case 2:x=3;break;default:x=4;}return x;}
int c(int n){int r;if(n<1)return 0;r=c(n-1);c(r);return r+1;}";

#[test]
fn bodies_lose_their_exceptions_and_locals(rt: HostRuntime) -> Result<(), Fail> {
    for text in BODIES.lines() {
        assert!(rt; counts(rt.alloc(), text, "")?.is_some(), "{text}");
    }
    Ok(())
}
