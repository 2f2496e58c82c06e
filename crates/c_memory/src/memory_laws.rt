//! Laws of loads and stores: what is stored is loaded, and what a store leaves as it was. Addresses are modulo the
//! space, so the laws hold for objects that go over its end too.

ghost use Rattle.std.specs.Prelude.{◌≡◌, ◌≢◌, ℕ, ◌+◌, ◌%◌, ◌<◌, true};
ghost use Rattle.c_values.specs.Types.{CType};
ghost use Rattle.c_values.specs.Value.{Value};
ghost use Rattle.c_values.specs.Layout.{Layout, IsLayout, Shape, shape_of, size_of, is_object, is_complete, is_scalar, space};
ghost use Rattle.c_values.specs.Path.{HasShape};
ghost use Rattle.c_memory.specs.Memory.{AreBytes, load, store};
ghost use Rattle.c_memory.specs.Tags.{IsPart};

/// What is stored is loaded.
pub fn stored_is_loaded()
    ensures { (l : Layout) (t : CType) (a : ℕ) (v : Value) (bytes : ℕ → ℕ) → IsLayout l →
        is_object l t ≡ true → HasShape (shape_of l t) v →
        load (space l) (store (space l) (shape_of l t) a v bytes) (shape_of l t) a ≡ v }
{}

/// A store changes bytes of the object's scalar parts alone: every byte outside of the object stays, and its padding
/// too.
pub fn store_changes_scalars_alone()
    ensures { (l : Layout) (t : CType) (a : ℕ) (v : Value) (bytes : ℕ → ℕ) (x : ℕ) → IsLayout l →
        is_complete (shape_of l t) ≡ true →
        ((d : ℕ) (u : CType) → IsPart (shape_of l t) d u → is_scalar u ≡ true →
        (i : ℕ) → i < size_of l u → (a + d + i) % space l ≢ x) →
        store (space l) (shape_of l t) a v bytes x ≡ bytes x }
{}

/// A store leaves every byte outside of the object as it was.
pub fn store_stays_within()
    ensures { (l : Layout) (t : CType) (a : ℕ) (v : Value) (bytes : ℕ → ℕ) (x : ℕ) → IsLayout l →
        is_complete (shape_of l t) ≡ true →
        ((i : ℕ) → i < size_of l t → (a + i) % space l ≢ x) →
        store (space l) (shape_of l t) a v bytes x ≡ bytes x }
{}

/// A load gives what it gave before a store to an object that has no byte in common with it.
pub fn load_is_as_before()
    ensures { (l : Layout) (t u : CType) (a b : ℕ) (v : Value) (bytes : ℕ → ℕ) → IsLayout l →
        is_complete (shape_of l t) ≡ true → is_complete (shape_of l u) ≡ true →
        ((i j : ℕ) → i < size_of l t → j < size_of l u → (a + i) % space l ≢ (b + j) % space l) →
        load (space l) (store (space l) (shape_of l t) a v bytes) (shape_of l u) b
        ≡ load (space l) bytes (shape_of l u) b }
{}

/// To store what was loaded changes nothing.
pub fn loaded_is_stored()
    ensures { (space : ℕ) (s : Shape) (a : ℕ) (bytes : ℕ → ℕ) → AreBytes bytes →
        store space s a (load space bytes s a) bytes ≡ bytes }
{}

/// What is loaded of a type is a value of its shape.
pub fn loaded_has_its_shape()
    ensures { (l : Layout) (t : CType) (a : ℕ) (bytes : ℕ → ℕ) → IsLayout l →
        is_complete (shape_of l t) ≡ true → AreBytes bytes →
        HasShape (shape_of l t) (load (space l) bytes (shape_of l t) a) }
{}

/// A store to bytes leaves bytes.
pub fn store_leaves_bytes()
    ensures { (space : ℕ) (s : Shape) (a : ℕ) (v : Value) (bytes : ℕ → ℕ) → AreBytes bytes →
        AreBytes (store space s a v bytes) }
{}

/// A load and a store see an address modulo the space alone.
pub fn addresses_are_modulo_the_space()
    ensures loads { (space : ℕ) (s : Shape) (a b : ℕ) (bytes : ℕ → ℕ) → a % space ≡ b % space →
        load space bytes s a ≡ load space bytes s b }
    ensures stores { (space : ℕ) (s : Shape) (a b : ℕ) (v : Value) (bytes : ℕ → ℕ) →
        a % space ≡ b % space →
        store space s a v bytes ≡ store space s b v bytes }
{}
