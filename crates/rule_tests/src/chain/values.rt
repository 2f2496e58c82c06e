//! Tests of what functions return, before and after the step to typed heaps: their expressions are
//! evaluated on bytes, and on the typed heap that is their view.

ghost use Rattle.std.specs.Prelude.{◌≡◌, true, [], Some, IfOk, IfSome};
ghost use Rattle.std.specs.Option.{IsSome};
ghost use Rattle.c_values.specs.Layout.{global_type, is_object};
ghost use Rattle.c_values.specs.CodeValue.{value_of};
ghost use Rattle.c_values.specs.CodeTypes.{type_of};
ghost use Rattle.c_memory.specs.Tags.{is_root_type};
ghost use Rattle.c_memory.specs.CodeHeap.{memory_of};
ghost use Rattle.c_memory.specs.Heap.{IsHeap, OnBytes};
ghost use Rattle.typed_heap.specs.CodeCells.{typed_content};
ghost use Rattle.expression_lang.specs.Sort.{sort_of};
ghost use Rattle.expression_lang.specs.CodeExpression.{exp_of};
ghost use Rattle.expression_lang.specs.CodeSort.{names_of, scalar_of, scope_of};
ghost use Rattle.expression_lang.specs.CodeState.{IsScalar, AreScalars, scalar_of_value, scalars_with, scope_in};

use crate::chain::sides_of;
use c_memory::{ByteHeap, Heap, HeapFault};
use c_values::{CType, Layout, Value, Word, is_object};
use expression_lang::{Env, Exp, Names, Scalar, eval, sort_of};
use monad_lang::Mon;
use std::alloc::{AllocError, Global};
use std::test::Fail;
use typed_heap::{TypedHeap, view};

const FIRST_BYTES: [u8; 32] = [
    1, 2, 3, 4, 5, 6, 7, 8, 9, 10, 11, 12, 13, 14, 15, 16, 17, 18, 19, 20, 21, 22, 23, 24, 25, 26,
    27, 28, 29, 30, 31, 32,
];

// What a value is, where it has no parts.
fn scalar(v: &Value) -> Option<Scalar>
    ensures value { IfSome result (λ s. scalar_of_value (value_of v.now) ≡ Some (scalar_of s)) }
    ensures scalar { IfSome result (λ s. IsScalar (value_of v.now)) }
{
    match v {
        Value::Word(w) => {
            // They fit the width.
            let _ = w.bits();
            Some(Scalar::Word(w.width()))
        }
        Value::Number(_) => Some(Scalar::Num),
        Value::Truth(_) => Some(Scalar::Truth),
        Value::Parts(_) => None,
    }
}

// Whether an expression without globals is well-sorted.
#[tactic(auto, using(crate::proofs::Mapped::is_there))]
fn has_sort(e: &Exp, names: &Names<'_>, l: &Layout) -> bool
    ensures { result ≡ true → IsSome (sort_of (scope_of l.now names.now []) (exp_of e.now)) }
{
    sort_of(e, names, l, &[]).is_some()
}

// Whether an expression without globals is well-sorted where values have these names, and others in
// front of them.
fn is_sorted_behind(e: &Exp, bindings: &[(String, Value)], names: &Names<'_>, l: &Layout) -> bool
    ensures scalars { result ≡ true → AreScalars bindings.now }
    ensures sorted { result ≡ true → IsSome (sort_of (record {
      layout = l.now;
      names = scalars_with bindings.now (λ x. names_of names.now x);
      globals = global_type [];
    }) (exp_of e.now)) }
{
    match bindings.split_first() {
        None => has_sort(&*e, &*names, &*l),
        Some(((name, value), rest)) => match scalar(value) {
            Some(scalar) => {
                let names = (&*names).push(name.as_str(), scalar);
                is_sorted_behind(&*e, rest, &names, &*l)
            }
            None => false,
        },
    }
}

// Whether an expression without globals is well-sorted in an environment.
fn is_sorted(e: &Exp, env: &Env, l: &Layout) -> bool
    ensures scalars { result ≡ true → AreScalars env.now.items }
    ensures sorted { result ≡ true →
        IsSome (sort_of (scope_in l.now env.now.items []) (exp_of e.now)) }
{
    let names = Names::new();
    is_sorted_behind(e, env, &names, l)
}

// The value of an expression without globals.
fn value<H: Heap>(alloc: Global, e: &Exp, env: &Env, heap: &H, l: &Layout) -> Option<Value>
    requires { IsHeap l.now (H.content heap.now) }
{
    if is_sorted(e, env, l) {
        eval(alloc, e, env, heap, l, &[], &[]).ok()
    } else {
        None
    }
}

// Whether a type may be that of a tag.
fn is_root(l: &Layout, t: &CType) -> bool
    ensures root { result ≡ true → is_root_type (type_of t.now) ≡ true }
    ensures object { result ≡ true → is_object l.now (type_of t.now) ≡ true }
{
    match t {
        CType::Int(_) | CType::Ptr(_) | CType::Struct(_) => is_object(l, t),
        CType::Void | CType::Array(_, _) => false,
    }
}

// The bytes 1, 2, .. at 4096, with these tags.
fn bytes(alloc: Global, l: &Layout, tags: &[(u64, CType); 2]) -> Result<Option<ByteHeap>, HeapFault>
    ensures { IfOk result (λ o. IfSome o (λ h. IsHeap l.now (OnBytes (memory_of h)))) }
{
    let bytes = Vec::from_slice(alloc, &FIRST_BYTES)?;
    if is_root(l, &tags[0].1) && is_root(l, &tags[1].1) {
        Ok(Some(ByteHeap::new(alloc, l, &[(4096, bytes)], tags)?))
    } else {
        Ok(None)
    }
}

// The typed heap of bytes.
fn typed(alloc: Global, l: &Layout, h: &ByteHeap) -> Result<TypedHeap, AllocError>
    requires { IsHeap l.now (OnBytes (memory_of h.now)) }
    ensures { IfOk result (λ cells. IsHeap l.now (typed_content cells)) }
{
    let _ = l.target();
    view(alloc, l, h)
}

// The values of two expressions, of the one on bytes and of the other on their view.
fn both(
    alloc: Global,
    l: &Layout,
    tags: &[(u64, CType); 2],
    env: &Env,
    (left, right): (&Exp, &Exp),
) -> Result<Option<(Value, Value)>, HeapFault> {
    let Some(bytes) = bytes(alloc, l, tags)? else {
        return Ok(None);
    };
    let cells = typed(alloc, l, &bytes)?;
    match (
        value(alloc, left, env, &bytes, l),
        value(alloc, right, env, &cells, l),
    ) {
        (Some(left), Some(right)) => Ok(Some((left, right))),
        _ => Ok(None),
    }
}

// What a program returns first.
fn returned(m: &Mon) -> Option<&Exp> {
    match m {
        Mon::Ret(values) => values.first(),
        Mon::Bind(first, _, last) => match returned(first) {
            Some(e) => Some(e),
            None => returned(last),
        },
        _ => None,
    }
}

// A function of two parameters `p` and `q`, with their values, the objects that there are, and what
// it returns.
struct Row<'a> {
    text: &'a str,
    arguments: (u64, u64),
    objects: [(u64, &'a str); 2],
    value: u64,
}

const ROWS: [Row<'static>; 7] = [
    Row {
        text: "struct i{int x;int y;};struct o{struct i a;struct i b[3];};int f(struct o*p,int q){return p->b[q].y;}",
        arguments: (4096, 2),
        objects: [(4096, "o"), (4160, "i")],
        value: 0x201f_1e1d,
    },
    Row {
        text: "struct i{int x;int y;};struct o{struct i a;struct i b[3];};int f(struct i*p,int q){return p->y;}",
        arguments: (4120, 0),
        objects: [(4096, "o"), (4160, "i")],
        value: 0x201f_1e1d,
    },
    Row {
        text: "struct i{int x;int y;};struct o{struct i a;struct i b[3];};int f(int*p,int q){return *p;}",
        arguments: (4124, 0),
        objects: [(4096, "o"), (4160, "i")],
        value: 0x201f_1e1d,
    },
    Row {
        text: "struct o{unsigned v[4];unsigned n;};struct i{int x;};unsigned f(struct o*p,unsigned q){return p->v[q];}",
        arguments: (4096, 3),
        objects: [(4096, "o"), (4160, "i")],
        value: 0x100f_0e0d,
    },
    Row {
        text: "struct i{unsigned char c;unsigned short h;};struct o{struct i a[4];};unsigned f(struct o*p,struct i*q){return p->a[1].h+q->h;}",
        arguments: (4096, 4100),
        objects: [(4096, "o"), (4160, "i")],
        value: 0x100e,
    },
    Row {
        text: "struct i{unsigned x;};struct o{unsigned y;};unsigned f(unsigned*p,unsigned*q){return *p^*q;}",
        arguments: (4100, 4100),
        objects: [(4096, "o"), (4100, "i")],
        value: 0,
    },
    Row {
        text: "struct i{unsigned x;};struct o{unsigned y;};unsigned f(struct i*p,unsigned*q){return p->x-*q;}",
        arguments: (4100, 4096),
        objects: [(4096, "o"), (4100, "i")],
        value: 0x0404_0404,
    },
];

// Where the arguments are the values of the parameters.
fn arguments(alloc: Global, (p, q): (u64, u64)) -> Result<Env, AllocError> {
    let mut env: Env = Vec::new(alloc);
    for (name, value) in [("p", p), ("q", q)] {
        let value = Value::Word(Word::new(32, value % (1 << 32)));
        env.push((String::from_str(alloc, name)?, value))?;
    }
    Ok(env)
}

fn tag(alloc: Global, (address, name): (u64, &str)) -> Result<(u64, CType), AllocError> {
    Ok((address, CType::Struct(String::from_str(alloc, name)?)))
}

// Whether a function returns its row's value on both heaps.
fn is_returned(alloc: Global, row: &Row<'_>) -> Result<bool, Fail> {
    let sides = sides_of(alloc, row.text)?;
    let expressions = match (returned(&sides.bytes), returned(&sides.heaps)) {
        (Some(left), Some(right)) => (left, right),
        _ => return Err(Fail::from("nothing is returned")),
    };
    let tags = [tag(alloc, row.objects[0])?, tag(alloc, row.objects[1])?];
    let env = arguments(alloc, row.arguments)?;
    let (left, right) = both(alloc, &sides.unit.layout, &tags, &env, expressions)?.ok_or(
        "no value",
    )?;
    let wanted = Value::Word(Word::new(32, row.value % (1 << 32)));
    Ok(left == wanted && right == wanted)
}

#[test]
fn parts_are_returned_alike(rt: HostRuntime) -> Result<(), Fail> {
    for row in &ROWS {
        assert!(rt; is_returned(rt.alloc(), row)?, "{}", row.text);
    }
    Ok(())
}
