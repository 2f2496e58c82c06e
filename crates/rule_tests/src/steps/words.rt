//! Tests of the rules that make numbers of words. In front of a row stands the kind of what a
//! function gives; `test_tables` says what else is in it, and `test_programs` what the words are.
//! The function has the natural numbers `a` and `b`, the integers `i` and `j`, the words `p` and
//! `q` and the truth value `t`; it may call `f`, which takes a natural number and gives one.

use acceptance::{are_results, check_words, gives_on_words};
use c_values::{GlobalVar, Layout, Target, Value, Word};
use expression_lang::{Binder, Kind, Level, Signature};
use monad_lang::Mon;
use program_sorts::are_kinds;
use rule_trees::{At, Tree};
use rule_word::{Context, Rule};
use simpl_lang::SimplUnit;
use std::alloc::Global;
use std::test::Fail;
use test_programs::{int, program_of};
use test_tables::{Row, Rules, is_remark, tree};
use word_abstract::{FunctionKinds, translate};

// The kind of a word, or nothing; of 32 bits where the word doesn't say.
fn given(word: &str) -> Result<Option<Kind>, Fail> {
    Ok(match word {
        "none" => None,
        "nat" => Some(Kind::Nat(32)),
        "int" => Some(Kind::Int(32)),
        "word" => Some(Kind::Word(32)),
        "bool" => Some(Kind::Bool),
        "nat64" => Some(Kind::Nat(64)),
        "int64" => Some(Kind::Int(64)),
        _ => return Err(Fail::from("no such kind")),
    })
}

// The kinds of words with `_` between them.
fn kinds(alloc: Global, words: &str) -> Result<Vec<Kind>, Fail> {
    let mut kinds = Vec::new(alloc);
    for word in words.split('_') {
        if let Some(kind) = given(word)? {
            kinds.push(kind)?;
        }
    }
    Ok(kinds)
}

// The rule of a name, where it has kinds: `bind_nat_bool` has two, and `bind` none.
fn rule_with_kinds(alloc: Global, name: &str) -> Result<Option<Rule>, Fail> {
    let (head, words) = name.split_once('_').unwrap_or((name, "none"));
    Ok(match head {
        "bind" => Some(Rule::Bind(kinds(alloc, words)?)),
        "loop" => Some(Rule::Loop(kinds(alloc, words)?)),
        "recast" => Some(Rule::Recast(kinds(alloc, words)?)),
        _ => None,
    })
}

// The rule of a name, where it has no list of kinds.
fn plain_rule(name: &str) -> Option<Rule> {
    Some(match name {
        "ret" => Rule::Ret,
        "guard" => Rule::Guard,
        "if" => Rule::If,
        "global" => Rule::Global,
        "pick" => Rule::Pick,
        "write" => Rule::Write,
        "call" => Rule::Call,
        "pick_nat" => Rule::PickNat,
        "pick_int" => Rule::PickInt,
        "var" => Rule::Var,
        "const" => Rule::Const,
        "nat" => Rule::Nat,
        "int" => Rule::Int,
        "word_nat" => Rule::Word(Kind::Nat(32)),
        "word_int" => Rule::Word(Kind::Int(32)),
        "unat" => Rule::Unat,
        "sint" => Rule::Sint,
        "add" => Rule::Add,
        "sub" => Rule::Sub,
        "mul" => Rule::Mul,
        "neg" => Rule::Neg,
        "udiv" => Rule::Udiv,
        "umod" => Rule::Umod,
        "sdiv" => Rule::Sdiv,
        "smod" => Rule::Smod,
        "order" => Rule::Order,
        "eq_nat" => Rule::Eq(Kind::Nat(32)),
        "eq_int" => Rule::Eq(Kind::Int(32)),
        "eq_word" => Rule::Eq(Kind::Word(32)),
        "eq_bool" => Rule::Eq(Kind::Bool),
        "zext" => Rule::Zext,
        "sext" => Rule::Sext,
        "logic" => Rule::Logic,
        "cond" => Rule::Cond,
        "op" => Rule::Op,
        _ => return None,
    })
}

// The rules by name.
struct WordRules;

impl Rules for WordRules {
    type Rule = Rule;

    fn named(alloc: Global, name: &str) -> Result<Rule, Fail> {
        match rule_with_kinds(alloc, name)? {
            Some(rule) => Ok(rule),
            None => Ok(plain_rule(name).ok_or("no such rule")?),
        }
    }
}

// Names with their kinds, as `a:nat`.
fn binders(alloc: Global, words: &str) -> Result<Vec<Binder>, Fail> {
    let mut binders = Vec::new(alloc);
    for word in words.split(' ') {
        let (name, kind) = word.split_once(':').ok_or("a name has no kind")?;
        let kind = given(kind)?.ok_or("a name has no kind")?;
        let name = String::from_str(alloc, name)?;
        binders.push(Binder { name, kind })?;
    }
    Ok(binders)
}

fn signature(alloc: Global, name: &str, params: &str, gives: &str) -> Result<Signature, Fail> {
    let result = given(gives)?;
    let params = binders(alloc, params)?;
    let name = String::from_str(alloc, name)?;
    Ok(Signature {
        name,
        level: Level::Numbers,
        params,
        result,
    })
}

// The function, which gives this.
fn function(alloc: Global, gives: &str) -> Result<Signature, Fail> {
    signature(
        alloc,
        "h",
        "a:nat b:nat i:int j:int p:word q:word t:bool",
        gives,
    )
}

// The unit: a global `g`, and what may be called.
fn unit(alloc: Global) -> Result<SimplUnit, Fail> {
    let mut globals = Vec::new(alloc);
    let name = String::from_str(alloc, "g")?;
    globals.push(GlobalVar {
        name,
        ty: int(),
        initial: Value::Word(Word::new(32, 0)),
    })?;
    let mut signatures = Vec::new(alloc);
    signatures.push(signature(alloc, "f", "x:nat", "nat")?)?;
    let layout = Layout::build(Target::Ilp32, Vec::new(alloc))?;
    Ok(SimplUnit {
        layout,
        globals,
        functions: Vec::new(alloc),
        signatures,
    })
}

// What the kernel says, where the left side is well-sorted.
fn verdict(
    u: &SimplUnit,
    s: &Signature,
    level: Level,
    t: &Tree<Rule>,
    left: &Mon,
    right: &Mon,
) -> Option<Result<(), At>> {
    if !gives_on_words(u, s, left) || !are_kinds(&s.params) || !are_results(&u.signatures) {
        return None;
    }
    Some(check_words(u, s, level, left, right, t))
}

// The level of a program: of words, or of bytes where nothing else will do.
fn level_of(m: &Mon) -> Level {
    if m.is_heaps() {
        Level::Words
    } else {
        Level::Bytes
    }
}

// Whether the kernel says what a row does, at a level or at that of the right side.
fn agrees(alloc: Global, s: &Signature, row: &Row<'_>, level: Option<Level>) -> Result<bool, Fail> {
    let t = tree::<WordRules>(alloc, row.rules)?;
    let left = program_of(alloc, row.left)?;
    let right = program_of(alloc, row.right)?;
    let level = level.unwrap_or(level_of(&right));
    let u = unit(alloc)?;
    match verdict(&u, s, level, &t, &left, &right) {
        Some(found) => Ok(row.says(found)),
        None => Ok(false),
    }
}

// The same of a line, in front of which stands what the function gives.
fn is_so_at(alloc: Global, line: &str, level: Option<Level>) -> Result<bool, Fail> {
    match line.split_once(" | ") {
        Some((gives, cells)) => {
            let row = Row::read(cells)?;
            agrees(alloc, &function(alloc, gives)?, &row, level)
        }
        None => Ok(is_remark(line)),
    }
}

/// Whether the kernel says of a function what the row of a line does.
pub(crate) fn is_so(alloc: Global, line: &str) -> Result<bool, Fail> {
    is_so_at(alloc, line, None)
}

// What a program becomes at the level of words, and by which rules. The names `x` and `y` are
// natural numbers.
fn made(
    alloc: Global,
    u: &SimplUnit,
    s: &Signature,
    left: &Mon,
) -> Result<(Box<Mon>, Tree<Rule>), Fail> {
    let locals = binders(alloc, "x:nat y:nat")?;
    let context = Context {
        layout: &u.layout,
        globals: &u.globals,
        functions: &u.signatures,
    };
    let kinds = FunctionKinds {
        params: &s.params,
        result: s.result,
        locals: &locals,
    };
    Ok(translate(alloc, left, Level::Words, context, kinds)?)
}

// Whether it becomes the right side, by rules that the kernel accepts.
fn is_made_as(alloc: Global, s: &Signature, left: &Mon, right: &Mon) -> Result<bool, Fail> {
    let u = unit(alloc)?;
    let (found, tree) = made(alloc, &u, s, left)?;
    let accepted = matches!(
        verdict(&u, s, Level::Words, &tree, left, &found),
        Some(Ok(()))
    );
    Ok(accepted && found.same(right))
}

/// The same of a line.
pub(crate) fn is_made(alloc: Global, line: &str) -> Result<bool, Fail> {
    let (gives, cells) = line.split_once(" | ").ok_or("no kind")?;
    let row = Row::read(cells)?;
    let left = program_of(alloc, row.left)?;
    let right = program_of(alloc, row.right)?;
    is_made_as(alloc, &function(alloc, gives)?, &left, &right)
}

const EXPRESSIONS: &str = "\
nat | 1ret var | 1ret a | 1ret a | ok
int | 1ret var | 1ret i | 1ret i | ok
word | 1ret var | 1ret p | 1ret p | ok
bool | 1ret var | 1ret t | 1ret t | ok
nat | 1ret const | 1ret one | 1ret n1 | ok
int | 1ret const | 1ret minus | 1ret m1 | ok
nat | 1ret const | 1ret minus | 1ret nmax | ok
word | 1ret const | 1ret one | 1ret one | ok
bool | 1ret const | 1ret true | 1ret true | ok
word | 1ret 1word_nat var | 1ret a | 1ret word a | ok
word | 1ret 1word_int var | 1ret i | 1ret word i | ok
nat | 1ret 1unat var | 1ret p | 1ret nat p | ok
int | 1ret 1sint var | 1ret p | 1ret int p | ok
bool | 1ret 2op 1nat var const | 1ret lt nat a n1 | 1ret lt a n1 | ok
bool | 1ret 2op 1int var const | 1ret lt int i n1 | 1ret lt i n1 | ok
nat | 2bind 1guard 1op 2op 1nat var 1nat var 1ret 2add var var | \
    bind guard natural add nat a nat b 1ret wadd a b | bind guard natural add a b 1ret add a b | ok
int | 2bind 1guard 1op 2op 1int var 1int var 1ret 2add var var | \
    bind guard integer add int i int j 1ret wadd i j | bind guard integer add i j 1ret add i j | ok
nat | 2bind 1guard 1op 2op 1nat var 1nat var 1ret 2sub var var | \
    bind guard natural sub nat a nat b 1ret wsub a b | bind guard natural sub a b 1ret sub a b | ok
nat | 2bind 1guard 1op 2op 1nat var 1nat var 1ret 2mul var var | \
    bind guard natural mul nat a nat b 1ret wmul a b | bind guard natural mul a b 1ret mul a b | ok
int | 2bind 1guard 1op 1op 1int var 1ret 1neg var | bind guard integer neg int i 1ret wneg i | \
    bind guard integer neg i 1ret neg i | ok
nat | 1ret 2udiv var var | 1ret wudiv a b | 1ret div a b | ok
nat | 1ret 2umod var var | 1ret wumod a b | 1ret mod a b | ok
int | 2bind 1guard 1op 2op 1int var 1int var 1ret 2sdiv var var | \
    bind guard integer div int i int j 1ret wsdiv i j | bind guard integer div i j 1ret div i j | \
    ok
int | 1ret 2smod var var | 1ret wsmod i j | 1ret mod i j | ok
bool | 1ret 2order var var | 1ret wult a b | 1ret lt a b | ok
bool | 1ret 2order var var | 1ret wule a b | 1ret le a b | ok
bool | 1ret 2order var var | 1ret wslt i j | 1ret lt i j | ok
bool | 1ret 2order var var | 1ret wsle i j | 1ret le i j | ok
bool | 1ret 2order 1unat var var | 1ret wult p a | 1ret lt nat p a | ok
bool | 1ret 2eq_nat var var | 1ret eq a b | 1ret eq a b | ok
bool | 1ret 2eq_int var var | 1ret eq i j | 1ret eq i j | ok
bool | 1ret 2eq_word var var | 1ret eq p q | 1ret eq p q | ok
bool | 1ret 2eq_bool var var | 1ret eq t t | 1ret eq t t | ok
nat64 | 1ret 1zext var | 1ret zext a | 1ret a | ok
int64 | 1ret 1zext var | 1ret zext a | 1ret a | ok
int64 | 1ret 1sext var | 1ret sext i | 1ret i | ok
bool | 1ret 2logic var 2order var var | 1ret and t wult a b | 1ret and t lt a b | ok
bool | 1ret 2logic var 2order var var | 1ret or t wult a b | 1ret or t lt a b | ok
bool | 1ret 2logic var 2order var var | 1ret imp t wult a b | 1ret imp t lt a b | ok
bool | 1ret 1logic var | 1ret not t | 1ret not t | ok
nat | 1ret 3cond var var var | 1ret choose t a b | 1ret choose t a b | ok
word | 1ret 3cond var var var | 1ret choose t p q | 1ret choose t p q | ok
word | 1ret 2op 1word_nat var 1word_nat var | 1ret wadd a b | 1ret wadd word a word b | ok
nat | 1ret 1unat 2op var var | 1ret wand p q | 1ret nat wand p q | ok";

#[test]
fn rules_of_expressions(rt: HostRuntime) -> Result<(), Fail> {
    for line in EXPRESSIONS.lines() {
        assert!(rt; is_so(rt.alloc(), line)?, "{line}");
    }
    Ok(())
}

const PROGRAMS: &str = "\
# what becomes of `return 7;`, with r for the result and u for the flag of exceptions
nat | 2bind_nat 2bind_nat_bool 2bind_nat 1ret const 2bind ret 2ret var const \
    3if var 1ret var 2bind 1guard const 1ret var 1ret var | \
    1bind 2bind 1bind 1ret seven r bind ret 2ret r true r u \
    if u 1ret r bind guard false 1ret r r 1ret r | \
    1bind 2bind 1bind 1ret n7 r bind ret 2ret r true r u \
    if u 1ret r bind guard false 1ret r r 1ret r | ok
# each rule
none | 1guard var | guard t | guard t | ok
nat | 3if var 1ret var 1ret var | if t 1ret a 1ret b | if t 1ret a 1ret b | ok
none | 1global const | set g one | set g one | ok
none | 1global 1word_nat var | set g a | set g word a | ok
none | 2write var const | write p one | write p one | ok
none | 2write var 1word_int var | write p i | write p word i | ok
none | 2write var const | store p one | store p one | ok
nat | 2bind_nat 1ret var 1ret var | 1bind 1ret a x 1ret x | 1bind 1ret a x 1ret x | ok
int | 2bind_nat 1ret var 1ret 1sint 1word_nat var | 1bind 1ret a x 1ret x | \
    1bind 1ret a x 1ret int word x | ok
nat | 4loop_nat var const 2order var var 1ret var | 1loop x a true wult x b 1ret x | \
    1loop x a true lt x b 1ret x | ok
nat | 4loop_nat var 1op 2op 1nat var 1nat var 2order var var 1ret 2add var var | \
    1loop x a natural add nat x nat b wult x b 1ret wadd x b | \
    1loop x a natural add x b lt x b 1ret add x b | ok
none | 3loop const 2eq_word var var ret | loop true eq p q ret | loop true eq p q ret | ok
nat | 1call var | 1call f a | 1call f a | ok
nat | 1call 1unat var | 1call f p | 1call f nat p | ok
word | pick | pick | pick | ok
nat | pick_nat | pick | pick_nat | ok
int | pick_int | pick | pick_int | ok
word | 1recast_nat 1ret var | 1ret a | 1bind 1ret a y 1ret word y | ok
int | 1recast_word 1ret var | 1ret p | 1bind 1ret p y 1ret int y | ok
word | 1recast_nat 1call var | 1call f a | 1bind 1call f a y 1ret word y | ok
nat | 1recast_nat 1ret var | 1ret a | 1bind 1ret a y 1ret y | ok";

#[test]
fn rules_of_programs(rt: HostRuntime) -> Result<(), Fail> {
    for line in PROGRAMS.lines() {
        assert!(rt; is_so(rt.alloc(), line)?, "{line}");
    }
    Ok(())
}

const OTHER_EXPRESSIONS: &str = "\
# another rule, or a part more or fewer
nat | 1ret const | 1ret a | 1ret a | 1
nat | ret | 1ret a | 1ret a | 0
nat | 1ret 1var var | 1ret a | 1ret a | 1
nat | 1ret 1udiv var | 1ret wudiv a b | 1ret div a b | 1
# another name, constant, kind or width
nat | 1ret var | 1ret a | 1ret b | 1
int | 1ret var | 1ret a | 1ret a | 1
nat | 1ret const | 1ret one | 1ret n2 | 1
int | 1ret const | 1ret minus | 1ret nmax | 1
word | 1ret 1word_int var | 1ret a | 1ret word a | 2
nat | 1ret 1unat var | 1ret a | 1ret nat word a | 2
int | 1ret 1unat var | 1ret p | 1ret nat p | 1
nat | 1ret 1sint var | 1ret p | 1ret int p | 1
bool | 1ret 2op 1int var const | 1ret lt nat a n1 | 1ret lt a n1 | 2
nat64 | 1ret 1zext var | 1ret zext i | 1ret i | 2
nat64 | 1ret 1sext var | 1ret sext i | 1ret i | 1
int64 | 1ret 1sext var | 1ret sext a | 1ret a | 2
int64 | 1ret 1zext var | 1ret sext i | 1ret i | 1
# a sum without its range, or with that of another one
nat | 1ret 2add var var | 1ret wadd a b | 1ret add a b | 1
nat | 2bind 1guard 1op 2op 1nat var 1nat var 1ret 2add var var | \
    bind guard natural add nat a nat b 1ret wadd b a | bind guard natural add a b 1ret add b a | 9
int | 2bind 1guard 1op 2op 1int var 1int var 1ret 2add var var | \
    bind guard natural add int i int j 1ret wadd i j | bind guard natural add i j 1ret add i j | 9
nat | 1ret 2sub var var | 1ret wsub a b | 1ret sub a b | 1
nat | 1ret 2mul var var | 1ret wmul a b | 1ret mul a b | 1
int | 1ret 1neg var | 1ret wneg i | 1ret neg i | 1
int | 1ret 2sdiv var var | 1ret wsdiv i j | 1ret div i j | 1
# of the sides of an `or` neither is known
nat | 2bind 1guard 2logic 1op 2op 1nat var 1nat var var 1ret 2add var var | \
    bind guard or natural add nat a nat b t 1ret wadd a b | \
    bind guard or natural add a b t 1ret add a b | 11
# another operation, or one at the other sign
nat | 1ret 2udiv var var | 1ret wudiv a b | 1ret mod a b | 1
nat | 1ret 2umod var var | 1ret wumod a b | 1ret div a b | 1
nat | 1ret 2udiv var var | 1ret wsdiv a b | 1ret div a b | 1
int | 1ret 2smod var var | 1ret wumod i j | 1ret mod i j | 1
bool | 1ret 2order var var | 1ret wult a b | 1ret le a b | 1
bool | 1ret 2order var var | 1ret wult a b | 1ret lt b a | 2
bool | 1ret 2order var var | 1ret wslt a b | 1ret lt a b | 2
bool | 1ret 2order var var | 1ret wule i j | 1ret le i j | 2
bool | 1ret 2eq_int var var | 1ret eq a b | 1ret eq a b | 2
bool | 1ret 2eq_nat var var | 1ret eq p q | 1ret eq p q | 2
# `op` at a number, at another head, and for what has rules of its own
nat | 1ret 2op var var | 1ret wadd a b | 1ret add a b | 1
word | 1ret 2op var var | 1ret wadd p q | 1ret wsub p q | 1
bool | 1ret 2op var var | 1ret and t t | 1ret and t t | 1
bool | 1ret op | 1ret t | 1ret t | 1
# of connectives another one, and a second side that knows too little
bool | 1ret 2logic var var | 1ret and t t | 1ret or t t | 1
bool | 1ret 1logic var | 1ret not t | 1ret t | 1
nat | 1ret 3cond var var var | 1ret choose t a b | 1ret choose t b a | 3
nat | 1ret 3cond var 2add var var var | 1ret choose t wadd a b b | 1ret choose t add a b b | 3";

#[test]
fn expressions_that_are_no_instances(rt: HostRuntime) -> Result<(), Fail> {
    for line in OTHER_EXPRESSIONS.lines() {
        assert!(rt; is_so(rt.alloc(), line)?, "{line}");
    }
    Ok(())
}

const OTHER_PROGRAMS: &str = "\
# a part more or fewer, or another rule
none | guard | guard t | guard t | 0
none | 1ret var | guard t | guard t | 0
nat | 2if var 1ret var | if t 1ret a 1ret b | if t 1ret a 1ret b | 0
# branches exchanged
nat | 3if var 1ret var 1ret var | if t 1ret a 1ret b | if t 1ret b 1ret a | 3
# other places, and values that aren't words
none | 2write var const | write p one | write q one | 1
none | 2write var const | write p one | write p two | 2
none | 1global const | set g one | set g two | 1
none | 1global const | write p one | write p one | 0
# other names, kinds and counts of kinds
nat | 2bind_nat 1ret var 1ret var | 1bind 1ret a x 1ret x | 1bind 1ret a y 1ret y | 0
nat | 2bind_int 1ret var 1ret var | 1bind 1ret a x 1ret x | 1bind 1ret a x 1ret x | 2
nat | 2bind 1ret var 1ret var | 1bind 1ret a x 1ret x | 1bind 1ret a x 1ret x | 1
nat | 4loop_int var const 2order var var 1ret var | 1loop x a true wult x b 1ret x | \
    1loop x a true lt x b 1ret x | 0
nat | 4loop_nat var const 2order var var 1ret var | 1loop x a true wult x b 1ret x | \
    1loop y a true lt y b 1ret y | 0
# in a turn nothing is known from before the loop
nat | \
    2bind 1guard 1op 2op 1nat var 1nat var 4loop_nat var const 2order var var 1ret 2add var var | \
    bind guard natural add nat a nat b 1loop x a true wult x b 1ret wadd a b | \
    bind guard natural add a b 1loop x a true lt x b 1ret add a b | 15
# a callee's kinds
int | 1call var | 1call f a | 1call f a | 0
nat | 1call var | 1call f i | 1call f i | 1
nat | call | 1call f a | 1call f a | 0
# picks
nat | pick_nat | pick | pick_int | 0
int | pick_nat | pick | pick_nat | 0
nat | pick_int | pick | pick_int | 0
word | pick_nat | pick | pick | 0
# recasts
int | 1recast_nat 1ret var | 1ret a | 1bind 1ret a y 1ret y | 0
word | 1recast_nat 1ret var | 1ret i | 1bind 1ret i y 1ret word y | 2
nat | 1recast_nat 1ret var | 1ret a | 1ret a | 0";

#[test]
fn programs_that_are_no_instances(rt: HostRuntime) -> Result<(), Fail> {
    for line in OTHER_PROGRAMS.lines() {
        assert!(rt; is_so(rt.alloc(), line)?, "{line}");
    }
    Ok(())
}

// Where words are to be numbers, no operation on words may stay, even as a number.
#[test]
fn no_sum_of_words_stays_among_numbers(rt: HostRuntime) -> Result<(), Fail> {
    let row = "nat | 1ret 1unat 2op 1word_nat var 1word_nat var | 1ret wadd a b | \
        1ret nat wadd word a word b | ";
    for (level, answer) in [(Level::Words, "ok"), (Level::Numbers, "0")] {
        let line = format!(in rt.alloc(); "{row}{answer}")?;
        assert!(rt;
            is_so_at(rt.alloc(), line.as_str(), Some(level))?,
            "{answer}"
        );
    }
    Ok(())
}
