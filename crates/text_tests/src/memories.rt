//! Texts of memories are read and written again, and texts that are none are refused at their
//! place.

use c_lang::tree::{Statements, TypedFn, TypedUnit, Variable};
use c_values::{CType, GlobalVar, IntType, Layout, Number, StructDef, Target, Value};
use expression_text::TextFault;
use memory_text::{MemoryFault, read_memory, write_memory};
use std::alloc::{AllocError, Global};
use std::process::Abort;
use std::test::Fail;

fn name(alloc: Global, text: &str) -> Result<String, AllocError> {
    String::from_str(alloc, text)
}

// A pointer to `struct p`.
fn pointer(alloc: Global) -> Result<CType, AllocError> {
    Ok(CType::Ptr(Box::new(alloc, CType::Struct(name(alloc, "p")?))?))
}

// struct p { int v; struct p *next; };
fn definition(alloc: Global) -> Result<StructDef, AllocError> {
    let mut members = Vec::new(alloc);
    members.push((name(alloc, "v")?, CType::Int(IntType::Int)))?;
    members.push((name(alloc, "next")?, pointer(alloc)?))?;
    let name = name(alloc, "p")?;
    Ok(StructDef { name, members })
}

fn layout(alloc: Global) -> Result<Layout, Fail> {
    let mut layout = Layout::build(Target::Ilp32, Vec::new(alloc))?;
    let definition = definition(alloc)?;
    layout
        .can_follow(&definition)
        .then_some(())
        .ok_or("no layout")?;
    layout.define(alloc, definition)?;
    Ok(layout)
}

fn global(alloc: Global, text: &str, ty: CType) -> Result<GlobalVar, AllocError> {
    Ok(GlobalVar {
        name: name(alloc, text)?,
        ty,
        initial: Value::Number(Number::new(false, 0)),
    })
}

// struct p n; int x;
fn globals(alloc: Global) -> Result<Vec<GlobalVar>, AllocError> {
    let mut globals = Vec::new(alloc);
    let n = CType::Struct(name(alloc, "p")?);
    globals.push(global(alloc, "n", n)?)?;
    globals.push(global(alloc, "x", CType::Int(IntType::Int))?)?;
    Ok(globals)
}

fn parameter(alloc: Global, text: &str, ty: CType) -> Result<Variable, AllocError> {
    let name = name(alloc, text)?;
    Ok(Variable { name, ty })
}

// int f(int i, struct p *q) {}
fn function(alloc: Global) -> Result<TypedFn, AllocError> {
    let mut params = Vec::new(alloc);
    params.push(parameter(alloc, "i", CType::Int(IntType::Int))?)?;
    params.push(parameter(alloc, "q", pointer(alloc)?)?)?;
    Ok(TypedFn {
        name: name(alloc, "f")?,
        result: None,
        params,
        locals: Vec::new(alloc),
        folds_cast: false,
        body: Statements::None,
    })
}

fn unit(alloc: Global) -> Result<TypedUnit, Fail> {
    let mut functions = Vec::new(alloc);
    functions.push(function(alloc)?)?;
    Ok(TypedUnit {
        layout: layout(alloc)?,
        globals: globals(alloc)?,
        functions,
    })
}

const READ: [&str; 2] = [
    "(memory 1 (call f -1 4096) (turns 5) (fill 0) (bytes) (tags) (globals))\n",
    "(memory 1 (call f 2147483647 4294967295) (turns 100000) (fill 18446744073709551615) (bytes (4294967292 ff0a) (4294967294 0001)) (tags (4096 (struct p)) (4095 (ptr (struct zz)))) (globals (n (7 4096)) (x -2147483648)))\n",
];

const REFUSED: [(&str, MemoryFault); 4] = [
    (
        "(memory 1 (call f 1 2) (turns 5) (fill 0) (bytes) (tags) (globals))",
        MemoryFault::Text(TextFault::NotText),
    ),
    (
        "(memory 1 (call f 1) (turns 5) (fill 0) (bytes) (tags) (globals))\n",
        MemoryFault::Text(TextFault::Shape(3)),
    ),
    (
        "(memory 1 (call f 1 2) (turns 100001) (fill 0) (bytes) (tags) (globals (x 1) (n (1 2))))\n",
        MemoryFault::Text(TextFault::Shape(24)),
    ),
    (
        "(memory 1 (call f 1 2) (turns 340282366920938463463374607431768211455) (fill 0) (bytes) (tags (1 int)) (globals))\n",
        MemoryFault::Turns,
    ),
];

// What is read is written again as it was.
fn is_read(rt: &impl Abort, alloc: Global, unit: &TypedUnit, text: &str) -> Result<(), Fail> {
    match read_memory(alloc, text.as_bytes(), unit) {
        Ok(memory) => {
            let again = write_memory(alloc, &memory)?;
            assert!(rt; again.as_slice() == text.as_bytes(), "{text}");
        }
        Err(fault) => panic!(rt; "{text}: {fault}"),
    }
    Ok(())
}

fn is_refused(rt: &impl Abort, alloc: Global, unit: &TypedUnit, text: &str, fault: MemoryFault) {
    match read_memory(alloc, text.as_bytes(), unit) {
        Ok(_) => panic!(rt; "read: {text}"),
        Err(found) => assert!(rt; found == fault, "{text}: {found}"),
    }
}

#[test]
fn memories(rt: HostRuntime) -> Result<(), Fail> {
    let alloc = rt.alloc();
    let unit = unit(alloc)?;
    for text in READ {
        is_read(&rt, alloc, &unit, text)?;
    }
    for (text, fault) in REFUSED {
        is_refused(&rt, alloc, &unit, text, fault);
    }
    Ok(())
}
