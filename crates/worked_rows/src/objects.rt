//! Objects in objects: what programs give of them before and after the step to typed heaps.

ghost use Rattle.std.specs.Prelude.{pos};
ghost use Rattle.expression_lang.specs.Expression.{Here, IntoField, Load, Read, WordLit};
ghost use Rattle.c_values.specs.Word.{word};
ghost use Rattle.worked_rows.specs.Trees.{int, value};
ghost use Rattle.worked_rows.specs.Objects.{GiveBoth, given, storing, address, inner, outer, first, last};

/// The member of a struct in an array in a struct is read by its path, and by a pointer to it.
pub fn parts_of_parts()
    ensures by_path { GiveBoth (given outer 4096 last) (value (pos 538910237)) }
    ensures by_pointer { GiveBoth (given int 4124 Here) (value (pos 538910237)) }
    ensures part { GiveBoth (given inner 4120 (IntoField 0 Here)) (value (pos 471538201)) }
{}

/// What is written through one pointer is read through another one to the same object, and what
/// lies beside it stays.
pub fn pointers_to_one_object()
    ensures aliased { GiveBoth
        (storing int 4124 Here (WordLit (word 32 (pos 7))) (WordLit (word 32 (pos 7)))
        (given outer 4096 last)) (value (pos 7)) }
    ensures aliased_by_path { GiveBoth
        (storing outer 4096 last (WordLit (word 32 (pos 7))) (WordLit (word 32 (pos 7)))
        (given int 4124 Here)) (value (pos 7)) }
    ensures apart { GiveBoth
        (storing int 4124 Here (WordLit (word 32 (pos 7))) (WordLit (word 32 (pos 7)))
        (given outer 4096 first)) (value (pos 67305985)) }
    ensures structs { GiveBoth
        (storing inner 4096 Here (Load inner (address 4120) Here) (Read inner (address 4120) Here)
        (given outer 4096 first)) (value (pos 471538201)) }
{}
