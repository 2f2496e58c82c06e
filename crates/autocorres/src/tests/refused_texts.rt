//! Texts that are refused, and what is said of each.

/// What a text is about, the text of `a.c`, and behind ` =>` what is said where it is shown.
pub(crate) const ROWS: &str = "\
a byte that begins no token
int f(int a)
{
    return a $ 1;
}
 =>
a.c:3:14: no token begins here: this isn't a character of C outside comments, or its quote isn't that of one ASCII character
    return a $ 1;
             ^

a quote that begins no character
int f(void) { return 'ab'; } =>
a.c:1:22: no token begins here: this isn't a character of C outside comments, or its quote isn't that of one ASCII character
int f(void) { return 'ab'; }
                     ^

a byte past ASCII, behind one in a comment
/* ä */ int ä; =>
a.c:1:14: no token begins here: this isn't a character of C outside comments, or its quote isn't that of one ASCII character
/* ?? */ int ??;
             ^

a fraction
unsigned f(unsigned a)
{
\treturn a * 0.5;
}
 =>
a.c:3:13: this is no integer constant, or none that 64 bits hold; there are no floating constants
\treturn a * 0.5;
\t           ^

a number that no type holds
unsigned f(void) { return 0x10000000000000000; } =>
a.c:1:27: this is no integer constant, or none that 64 bits hold; there are no floating constants
unsigned f(void) { return 0x10000000000000000; }
                          ^

a comment without its end
int f(void);
\t/* and so on
 =>
a.c:2:2: this comment isn't ended: write */ behind it
\t/* and so on
\t^

a name of 64 bytes
int nnnnnnnnnnnnnnnnnnnnnnnnnnnnnnnnnnnnnnnnnnnnnnnnnnnnnnnnnnnnnnnn;
 =>
a.c:1:5: this name has more than 63 characters: choose a shorter one
int nnnnnnnnnnnnnnnnnnnnnnnnnnnnnnnnnnnnnnnnnnnnnnnnnnnnnnnnnnnn
    ^

a step in an expression
unsigned f(unsigned a)
{
    return a++;
}
 =>
a.c:3:13: this can't stand here, or more has to follow: in the subset assignments, `++`, `--` and calls stand in no expression
    return a++;
            ^

a text that breaks off
unsigned f(unsigned a)
{
    return a;
 =>
a.c:3:14: this can't stand here, or more has to follow: in the subset assignments, `++`, `--` and calls stand in no expression
    return a;
             ^

no declared name
int f(void) { return x; } =>
a.c:1:22: this name, tag or member isn't declared before
int f(void) { return x; }
                     ^

a second local of one name
int f(int a)
{
    int a;
    return a;
}
 =>
a.c:3:9: this is declared, defined, initialised or labelled a second time
    int a;
        ^

two pointers
int *f(int *p, int *q)
{
    return p + q;
}
 =>
a.c:3:12: the types of the operands don't fit, or this isn't the constant or the statement that is needed here
    return p + q;
           ^

no place
void f(int a)
{
    (a + 1) = 2;
}
 =>
a.c:3:5: this has no place in memory: `=`, `++`, `--` and `&` need a variable, a member, an element or `*p`
    (a + 1) = 2;
    ^

a struct without its body
struct s;
unsigned f(void) { return sizeof(struct s); }
 =>
a.c:2:27: an object is needed here, and this is `void` or a struct whose body hasn't stood yet
unsigned f(void) { return sizeof(struct s); }
                          ^

a function without a body
int g(void);
int f(void) { return g(); }
 =>
a.c:2:22: this function has no body in the text: give it one
int f(void) { return g(); }
                     ^

an argument too many
int g(int a) { return a; }
int f(void) { return g(1, 2); }
 =>
a.c:2:22: this call has more or fewer arguments than the function has parameters
int f(void) { return g(1, 2); }
                     ^

a group that runs into the next
int f(int a)
{
    switch (a) {
    case 1:
        a = 2;
    default:
        a = 3;
    }
    return a;
}
 =>
a.c:4:5: these cases run into the next ones: end them by `break`, `continue` or `return`
    case 1:
    ^

the address of a parameter
int *f(int a) { return &a; } =>
a.c:1:24: this is C, but not in the subset that is read
int *f(int a) { return &a; }
                       ^

a long array
int a[4097];
 =>
a.c:1:5: an array has 1 to 4096 elements, and an array or a struct at most 65536 bytes
int a[4097];
    ^";

/// The same for the other target.
pub(crate) const WIDE: &str = "\
a struct that is too large on one target
struct s {
    long a[4096][4];
};
struct s s;
 =>
a.c:2:10: an array has 1 to 4096 elements, and an array or a struct at most 65536 bytes
    long a[4096][4];
         ^";

/// What can't stand in the third column of the second line, and what is said of it.
pub(crate) const WORDS: &str = "\
asm => there is no assembly in the subset
auto => `auto` isn't in the subset: leave it out
double => there are no floating types in the subset: count in integers
float => there are no floating types in the subset: count in integers
goto => `goto` isn't in the subset: use a loop, `break`, `continue` or `return`
register => `register` isn't in the subset: leave it out
restrict => `restrict` isn't in the subset: leave it out
union => `union` isn't in the subset: use a struct, or bytes
volatile => `volatile` isn't in the subset: nothing but the program changes its objects
_Bool => `_Bool` isn't in the subset: use `int` or `unsigned char`
_Complex => there are no floating types in the subset: count in integers
_Imaginary => there are no floating types in the subset: count in integers
__asm__ => there is no assembly in the subset
__attribute__ => attributes aren't in the subset: leave it out
__extension__ => extensions aren't in the subset: leave it out
\"s\" => strings aren't in the subset: use an array of `char`
... => functions have a fixed number of parameters in the subset
#define N 1 => directives aren't read: run the preprocessor first, as `cc -E` does";

/// The same as the first, where the part between the bars stands as often as the number says. Each
/// text passes a limit of the tree.
pub(crate) const MANY: &str = "\
1025 functions
|void f(void) {}
| =>
a.c:1025:1: a text has at most 1024 functions with bodies: part it into files
void f(void) {}
^

201 statements
void f(void)
{
|;
|}
 =>
a.c:203:1: a function has at most 200 statements, declared locals included: part it into functions
;
^

32 blocks
void f(int a)
{
|if (a)
|;
}
 =>
a.c:35:1: at most 32 statements stand one inside the other: make functions of the inner ones
;
^

32 depth
int f(int a)
{
return
|~
|a;
}
 =>
a.c:36:1: the parts of an expression nest at most 32 deep: name some of them by locals
a;
^

7 nodes
int f(int a)
{
return (a + a + a + a + a + a + a + a)
|+ (a + a + a + a + a + a + a + a)
|;
}
 =>
a.c:10:8: an expression has at most 128 names, constants, operators and parentheses: name parts of it by locals
+ (a + a + a + a + a + a + a + a)
       ^";
