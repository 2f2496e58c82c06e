//! Runs of C functions and of their programs, side by side.

use crate::tests::calls::{Files, said};
use crate::tests::checks::{CERTIFICATE, SEVEN, changed, line_of, written};
use std::alloc::Global;
use std::test::Fail;

// A C text, a memory and what is written each.
const RUNS: &str = "\
unsigned f(unsigned a, unsigned b){return a+b;}
(memory 1 (call f 4294967295 1) (turns 100) (fill 0) (bytes) (tags) (globals))
c value 0
abstract fails
failed

unsigned mid(unsigned l, unsigned r){return (l + r) / 2;}
(memory 1 (call mid 4294967294 4294967295) (turns 100) (fill 0) (bytes) (tags) (globals))
c value 2147483646
abstract fails
failed

unsigned mid(unsigned l, unsigned r){return l + (r - l) / 2;}
(memory 1 (call mid 4294967294 4294967295) (turns 100) (fill 0) (bytes) (tags) (globals))
c value 4294967294
abstract value 4294967294
agree

int d(int a,int b){return a/b;} int m(int a,int b){return a%b;}
(memory 1 (call d -2147483648 -1) (turns 100) (fill 0) (bytes) (tags) (globals))
c guard signed
abstract fails
failed

int d(int a,int b){return a/b;} int m(int a,int b){return a%b;}
(memory 1 (call m -2147483648 -1) (turns 100) (fill 0) (bytes) (tags) (globals))
c guard signed
abstract fails
failed

int d(int a,int b){return a/b;} int m(int a,int b){return a%b;}
(memory 1 (call d 7 0) (turns 100) (fill 0) (bytes) (tags) (globals))
c guard div
abstract fails
failed

int d(int a,int b){return a/b;} int m(int a,int b){return a%b;}
(memory 1 (call d -7 2) (turns 100) (fill 0) (bytes) (tags) (globals))
c value -3
abstract value -3
agree

int d(int a,int b){return a/b;} int m(int a,int b){return a%b;}
(memory 1 (call m -7 2) (turns 100) (fill 0) (bytes) (tags) (globals))
c value -1
abstract value -1
agree

int s(int x,int n){return x<<n;} unsigned u(unsigned x,int n){return x<<n;} int r(int x,int n){return x>>n;}
(memory 1 (call s 1 31) (turns 100) (fill 0) (bytes) (tags) (globals))
c guard shift
abstract fails
failed

int s(int x,int n){return x<<n;} unsigned u(unsigned x,int n){return x<<n;} int r(int x,int n){return x>>n;}
(memory 1 (call u 1 31) (turns 100) (fill 0) (bytes) (tags) (globals))
c value 2147483648
abstract value 2147483648
agree

int s(int x,int n){return x<<n;} unsigned u(unsigned x,int n){return x<<n;} int r(int x,int n){return x>>n;}
(memory 1 (call u 1 32) (turns 100) (fill 0) (bytes) (tags) (globals))
c guard shift
abstract fails
failed

int s(int x,int n){return x<<n;} unsigned u(unsigned x,int n){return x<<n;} int r(int x,int n){return x>>n;}
(memory 1 (call r -1 1) (turns 100) (fill 0) (bytes) (tags) (globals))
c value -1
abstract value -1
agree

unsigned char g(unsigned char a, unsigned char b){return a+b;}
(memory 1 (call g 255 1) (turns 100) (fill 0) (bytes) (tags) (globals))
c value 0
abstract value 0
agree

struct s{int x;}; int h(struct s *p){return p && p->x > 3;}
(memory 1 (call h 0) (turns 100) (fill 0) (bytes) (tags) (globals))
c value 0
abstract value 0
agree

struct s{int x;}; int h(struct s *p){return p && p->x > 3;}
(memory 1 (call h 4096) (turns 100) (fill 0) (bytes (4096 05000000)) (tags) (globals))
c value 1
c bytes 4096 05000000
abstract fails
failed

struct s{int x;}; int h(struct s *p){return p && p->x > 3;}
(memory 1 (call h 4096) (turns 100) (fill 0) (bytes (4096 05000000)) (tags (4096 (struct s))) (globals))
c value 1
c at 4096 (5)
c bytes 4096 05000000
abstract value 1
abstract at 4096 (5)
agree

void swap(unsigned *p, unsigned *q){unsigned t=*p; *p=*q; *q=t;}
(memory 1 (call swap 4096 4100) (turns 100) (fill 0) (bytes (4096 0100000002000000)) (tags (4096 uint) (4100 uint)) (globals))
c value
c at 4096 2
c at 4100 1
c bytes 4096 0200000001000000
abstract value
abstract at 4096 2
abstract at 4100 1
agree

void swap(unsigned *p, unsigned *q){unsigned t=*p; *p=*q; *q=t;}
(memory 1 (call swap 4096 4096) (turns 100) (fill 0) (bytes (4096 0100000002000000)) (tags (4096 uint) (4100 uint)) (globals))
c value
c at 4096 1
c at 4100 2
c bytes 4096 0100000002000000
abstract value
abstract at 4096 1
abstract at 4100 2
agree

int find(unsigned *a, int n, unsigned k){int i; for(i=0;i<n;i++){if(a[i]==k)return i;} return -1;}
(memory 1 (call find 4096 3 7) (turns 0) (fill 0) (bytes (4096 050000000700000009000000)) (tags (4096 uint) (4100 uint) (4104 uint)) (globals))
c out of turns
abstract out of turns
open

int find(unsigned *a, int n, unsigned k){int i; for(i=0;i<n;i++){if(a[i]==k)return i;} return -1;}
(memory 1 (call find 4096 3 7) (turns 1) (fill 0) (bytes (4096 050000000700000009000000)) (tags (4096 uint) (4100 uint) (4104 uint)) (globals))
c out of turns
abstract out of turns
open

int find(unsigned *a, int n, unsigned k){int i; for(i=0;i<n;i++){if(a[i]==k)return i;} return -1;}
(memory 1 (call find 4096 3 7) (turns 2) (fill 0) (bytes (4096 050000000700000009000000)) (tags (4096 uint) (4100 uint) (4104 uint)) (globals))
c value 1
c at 4096 5
c at 4100 7
c at 4104 9
c bytes 4096 050000000700000009000000
abstract value 1
abstract at 4096 5
abstract at 4100 7
abstract at 4104 9
agree

struct node{unsigned v; struct node *next;}; unsigned cnt(struct node *p, unsigned n){unsigned c=0; while(p->v<n){c=c+1; p=p->next;} return c;}
(memory 1 (call cnt 4096 5) (turns 100) (fill 0) (bytes (4096 0100000000200000) (8192 0900000000000000)) (tags (4096 (struct node))) (globals))
c value 1
c at 4096 (1 8192)
c bytes 4096 0100000000200000
c bytes 8192 0900000000000000
abstract fails
failed

unsigned dw(unsigned n){unsigned c=0; do { n=n-1; if(n==3) continue; c=c+1; } while(n>1); return c;}
(memory 1 (call dw 5) (turns 4) (fill 0) (bytes) (tags) (globals))
c value 3
abstract value 3
agree

unsigned dw(unsigned n){unsigned c=0; do { n=n-1; if(n==3) continue; c=c+1; } while(n>1); return c;}
(memory 1 (call dw 5) (turns 3) (fill 0) (bytes) (tags) (globals))
c out of turns
abstract out of turns
open

struct node{unsigned v; struct node *next;}; struct node *rev(struct node *p){struct node *r=0; while(p){struct node *q=p->next; p->next=r; r=p; p=q;} return r;}
(memory 1 (call rev 4096) (turns 100) (fill 0) (bytes (4096 01000000081000000200000000000000)) (tags (4096 (struct node)) (4104 (struct node))) (globals))
c value 4104
c at 4096 (1 0)
c at 4104 (2 4096)
c bytes 4096 01000000000000000200000000100000
abstract value 4104
abstract at 4096 (1 0)
abstract at 4104 (2 4096)
agree

struct node{unsigned v; struct node *next;}; unsigned st(struct node *p){p->next->v=1; p->next=0; return p->next->v;}
(memory 1 (call st 4096) (turns 100) (fill 0) (bytes (4096 01000000081000000200000000000000)) (tags (4096 (struct node)) (4104 (struct node))) (globals))
c guard pointer
abstract fails
failed

unsigned char b0(unsigned *p){unsigned char *c=(unsigned char *)p; return *c;} unsigned char b1(unsigned *p){unsigned char r; r=b0(p); return r;}
(memory 1 (call b1 4096) (turns 100) (fill 0) (bytes (4096 2a000000)) (tags) (globals))
c value 42
c bytes 4096 2a000000
abstract value 42
abstract bytes 4096 2a000000
agree

unsigned u0(void){unsigned x; return x;}
(memory 1 (call u0) (turns 100) (fill 0) (bytes) (tags) (globals))
c value 0
abstract value 0
agree

unsigned u0(void){unsigned x; return x;}
(memory 1 (call u0) (turns 100) (fill 7) (bytes) (tags) (globals))
c value 7
abstract value 7
agree

struct p{unsigned char a; unsigned b;}; void cp(struct p *d, struct p *s){*d=*s;}
(memory 1 (call cp 4104 4096) (turns 100) (fill 0) (bytes (4096 01aaaaaa0200000003bbbbbb04000000)) (tags (4096 (struct p)) (4104 (struct p))) (globals))
c value
c at 4096 (1 2)
c at 4104 (1 2)
c bytes 4096 01aaaaaa0200000001bbbbbb02000000
abstract value
abstract at 4096 (1 2)
abstract at 4104 (1 2)
agree

struct p{unsigned char a; unsigned b;}; void cp(struct p *d, struct p *s){*d=*s;} void bc(struct p *d, unsigned *s){cp(d, (struct p *)s);}
(memory 1 (call bc 4104 4096) (turns 100) (fill 0) (bytes (4096 01aaaaaa0200000003bbbbbb04000000)) (tags (4096 (struct p)) (4104 (struct p))) (globals))
c value
c at 4096 (1 2)
c at 4104 (1 2)
c bytes 4096 01aaaaaa0200000001bbbbbb02000000
abstract value
abstract at 4096 (1 2)
abstract at 4104 (1 2)
abstract bytes 4096 01aaaaaa0200000001bbbbbb02000000
agree

unsigned ev(unsigned n); unsigned od(unsigned n){unsigned r; if(n==0)return 0; r=ev(n-1); return r;} unsigned ev(unsigned n){unsigned r; if(n==0)return 1; r=od(n-1); return r;}
(memory 1 (call ev 256) (turns 1000) (fill 0) (bytes) (tags) (globals))
c value 1
abstract value 1
agree

unsigned ev(unsigned n); unsigned od(unsigned n){unsigned r; if(n==0)return 0; r=ev(n-1); return r;} unsigned ev(unsigned n){unsigned r; if(n==0)return 1; r=od(n-1); return r;}
(memory 1 (call ev 257) (turns 1000) (fill 0) (bytes) (tags) (globals))
c deep
abstract deep
open

int count = -3; struct q{char c; int v[2];} last; int next(void){count = count + 1; last.v[1] = count; return last.v[1];}
(memory 1 (call next) (turns 100) (fill 0) (bytes) (tags) (globals))
c value -2
c global count -2
c global last (0 (0 -2))
abstract value -2
abstract global count -2
abstract global last (0 (0 -2))
agree

int count = -3; struct q{char c; int v[2];} last; int next(void){count = count + 1; last.v[1] = count; return last.v[1];}
(memory 1 (call next) (turns 100) (fill 0) (bytes) (tags) (globals (count 41) (last (7 (1 2)))))
c value 42
c global count 42
c global last (7 (1 42))
abstract value 42
abstract global count 42
abstract global last (7 (1 42))
agree";

// The same where words wrap.
const WRAPS: &str = "\
unsigned f(unsigned a, unsigned b){return a+b;}
(memory 1 (call f 4294967295 1) (turns 100) (fill 0) (bytes) (tags) (globals))
c value 0
abstract value 0
agree";

// The same of memories that no run starts from.
const REFUSED: &str = "\
void swap(unsigned *p, unsigned *q){unsigned t=*p; *p=*q; *q=t;}
(memory 1 (call swap 4096 4100) (turns 100) (fill 0) (bytes) (tags (4096 uint) (4098 uint)) (globals))
text: memory tag 1 misaligned

void swap(unsigned *p, unsigned *q){unsigned t=*p; *p=*q; *q=t;}
(memory 1 (call swap 4096 4100) (turns 100) (fill 0) (bytes) (tags (4096 uint) (4096 uint)) (globals))
text: memory tag 1 overlap

void swap(unsigned *p, unsigned *q){unsigned t=*p; *p=*q; *q=t;}
(memory 1 (call swap 4096 4100) (turns 100) (fill 0) (bytes) (tags (0 uint)) (globals))
text: memory tag 0 null

struct node{unsigned v; struct node *next;}; struct node *rev(struct node *p){struct node *r=0; while(p){struct node *q=p->next; p->next=r; r=p; p=q;} return r;}
(memory 1 (call rev 0) (turns 100) (fill 0) (bytes) (tags (4096 uint) (4294967292 (struct node))) (globals))
text: memory tag 1 past

unsigned f(unsigned a, unsigned b){return a+b;}
(memory 1 (call f 1 2) (turns 100001) (fill 0) (bytes) (tags) (globals))
limit: turns

void swap(unsigned *p, unsigned *q){unsigned t=*p; *p=*q; *q=t;}
(memory 1 (call swap 4096 4100) (turns 100001) (fill 0) (bytes) (tags (4098 uint)) (globals))
limit: turns

unsigned f(unsigned a, unsigned b){return a+b;}
(memory 1 (call g 1 2) (turns 100) (fill 0) (bytes) (tags) (globals))
text: memory shape at 5

unsigned f(unsigned a, unsigned b){return a+b;}
(memory 1 (call f 1) (turns 100) (fill 0) (bytes) (tags) (globals))
text: memory shape at 3

unsigned f(unsigned a, unsigned b){return a+b;}
(memory 1 (call f 1 4294967296) (turns 100) (fill 0) (bytes) (tags) (globals))
text: memory shape at 7

unsigned f(unsigned a, unsigned b){return a+b;}
(memory
text: memory not text";

// Whether that is written, with the certificate that the words write for the text.
fn is_run(alloc: Global, words: &str, record: &str) -> Result<bool, Fail> {
    let (text, rest) = record.split_once('\n').ok_or("no text")?;
    let (memory, lines) = rest.split_once('\n').ok_or("no memory")?;
    let certificate = written(alloc, words, text)?;
    let memory = line_of(alloc, memory)?;
    ends(alloc, text, &certificate, &memory, lines)
}

// Whether a run ends so.
fn ends(
    alloc: Global,
    text: &str,
    certificate: &[u8],
    memory: &[u8],
    lines: &str,
) -> Result<bool, Fail> {
    let files = Files::of(text.as_bytes()).with(certificate).and(memory);
    Ok(said(alloc, "run a.c c.cert m.mem", &files)?.is(lines))
}

#[test]
fn both_sides_end_as_the_rows_say(rt: HostRuntime) -> Result<(), Fail> {
    for record in RUNS.split("\n\n") {
        assert!(rt; is_run(rt.alloc(), "translate a.c", record)?, "{record}");
    }
    assert!(rt; is_run(rt.alloc(), "translate a.c words=f", WRAPS)?);
    Ok(())
}

#[test]
fn bad_memories_are_refused(rt: HostRuntime) -> Result<(), Fail> {
    for record in REFUSED.split("\n\n") {
        assert!(rt; is_run(rt.alloc(), "translate a.c", record)?, "{record}");
    }
    Ok(())
}

// The certificate comes before the memory, whatever that is.
#[test]
fn certificates_are_asked_first(rt: HostRuntime) -> Result<(), Fail> {
    let alloc = rt.alloc();
    let certificate = changed(alloc, CERTIFICATE, "(w 32 7)", "(w 32 8)")?;
    let line = "no: f exception 3";
    assert!(rt; ends(alloc, SEVEN, &certificate, b"no memory", line)?);
    Ok(())
}
