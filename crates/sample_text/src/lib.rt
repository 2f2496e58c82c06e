//! C texts to try the program on, as long as is asked for.
#![tactic(auto)]

ghost use Rattle.std.specs.Prelude.{◌≡◌, ◌++◌, ◌<◌, OnOk, IfOk, codes};
ghost use Rattle.sample_text.specs.Sample.{around, with_constant, of_shape, result_of, line, sample_text};

use itoa::Buffer;
use std::alloc::{AllocError, Global};

/// A struct and so many functions: a sum, a quotient, a walk along a list, an exchange and a call of
/// the function four before, in turn.
pub fn sample_text(alloc: Global, count: u8) -> Result<Vec<u8>, AllocError>
    ensures { IfOk result (λ text. text.items ≡ sample_text count) }
{
    let mut text = Vec::from_slice(alloc, b"struct node { unsigned v; struct node *next; };\n")?;
    for k in 0..count {
        push_line(&mut text, u32::from(k))?;
    }
    Ok(text)
}

// One function.
fn push_line(text: &mut Vec<u8>, k: u32) -> Result<(), AllocError>
    requires { k < 256 }
    ensures { OnOk result (text.new.items ≡ text.old.items ++ line k) }
{
    push_around(text, result_of(k % 5), k, "")?;
    push_of_shape(text, k % 5, k)
}

fn result_of(shape: u32) -> &'static str
    ensures { result.now ≡ result_of shape }
{
    match shape {
        1 => "int f",
        3 => "void f",
        _ => "unsigned f",
    }
}

// A function of the shape, behind its name.
fn push_of_shape(text: &mut Vec<u8>, shape: u32, k: u32) -> Result<(), AllocError>
    requires { k < 256 }
    ensures { OnOk result (text.new.items ≡ text.old.items ++ of_shape shape k) }
{
    match shape {
        0 => push_constant(
            text,
            "(unsigned a, unsigned b) { return a + b * ",
            k,
            "u; }\n",
        ),
        1 => push_constant(
            text,
            "(int a, int b) { if (b == 0) return ",
            k,
            "; return a / b; }\n",
        ),
        2 => push(
            text,
            "(struct node *p) { unsigned n = 0; while (p) { n = n + p->v; p = p->next; } return n; }\n",
        ),
        3 => push_constant(
            text,
            "(unsigned *p, unsigned *q) { unsigned t = *p; *p = *q; *q = t + ",
            k,
            "u; }\n",
        ),
        _ => push_call(text, k.saturating_sub(4)),
    }
}

// A function that calls this one.
fn push_call(text: &mut Vec<u8>, called: u32) -> Result<(), AllocError>
    ensures { OnOk result (text.new.items ≡ text.old.items
        ++ around (codes "(unsigned a, unsigned b) { unsigned r; r = f") called
        (codes "(a, b); return r; }\n")) }
{
    push_around(
        text,
        "(unsigned a, unsigned b) { unsigned r; r = f",
        called,
        "(a, b); return r; }\n",
    )
}

fn push_constant(text: &mut Vec<u8>, before: &str, k: u32, after: &str) -> Result<(), AllocError>
    requires { k < 256 }
    ensures { OnOk result
        (text.new.items ≡ text.old.items ++ with_constant k before.now after.now) }
{
    push_around(text, before, (k * k + 7 * k + 3) % 1000, after)
}

// A number between two texts.
fn push_around(text: &mut Vec<u8>, before: &str, number: u32, after: &str) -> Result<(), AllocError>
    ensures { OnOk result (text.new.items ≡ text.old.items ++ around before.now number after.now) }
{
    push(text, before)?;
    push(text, Buffer::new().format(number))?;
    push(text, after)
}

fn push(text: &mut Vec<u8>, more: &str) -> Result<(), AllocError>
    ensures { OnOk result (text.new.items ≡ text.old.items ++ more.now) }
{
    text.extend_from_slice(more.as_bytes())
}
