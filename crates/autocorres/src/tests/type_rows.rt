//! Texts, one a line, each with the line that shows it or refuses it.

/// A sentence of the typing rules each. Before `..` stands how the line begins.
pub(crate) const ROWS: &str = "\
int f(void){return x;} => source: unknown at 19
enum e x; => source: unknown at 0
struct s{int a;};enum s x; => source: unknown at 17
struct s{int a;};int f(struct s*p){return p->b;} => source: unknown at 42
struct s{int a;};struct s g;int f(void){return g.b;} => source: unknown at 47
void f(void){g(x);} => source: unknown at 15
void f(void){g();} => source: unknown at 13
void f(void){{int a;a=1;}a=2;} => source: unknown at 25
int f(int a,int a); => source: twice at 16
void f(int a){int a;} => source: twice at 18
void f(void){int a;int a;} => source: twice at 23
int x;int x; => source: twice at 10
extern int x;extern long x; => source: twice at 25
int x=1;extern int x=2; => source: twice at 19
int f(void);long f(void); => source: twice at 17
int f(int);long f(int x){return x;} => source: twice at 16
int f(void){return 0;}int f(void){return 0;} => source: twice at 26
int x;int x(void); => source: twice at 10
struct s{int a;};struct s{int b;}; => source: twice at 17
struct s{int a;int a;}; => source: twice at 19
enum{A,A}; => source: twice at 7
typedef int t,u[sizeof(enum{t})]; => source: twice at 28
enum e{A};enum e{B}; => source: twice at 10
struct e{int a;};enum e{B}; => source: twice at 17
void f(int a){switch(a){case 1:break;case 1:break;}} => source: twice at 37
void f(int a){switch(a){default:break;default:break;}} => source: twice at 38
void f(unsigned a){switch(a){case -1:break;case 4294967295u:break;}} => source: twice at 43
void f(int a){switch(a){case 1:case 2:break;case 3:case 2:break;}} => source: twice at 51
void f(int a){switch(a){case 1:;int y;y=1;break;case 2:;int y;y=2;}} => source: twice at 60
void f(void){return 1;} => source: mismatch at 13
int f(void){return;} => source: mismatch at 12
int f(int*p){return p*2;} => source: mismatch at 20
int f(int*p,int*q){return p-q;} => source: mismatch at 26
int f(int*p,int*q){return p<q;} => source: mismatch at 26
int f(int*p,char*q){return p==q;} => source: mismatch at 27
int f(int*p){return p==1;} => source: mismatch at 20
int f(int a,int*p,char*q){return a?p:q;} => source: mismatch at 33
int f(int*p){return 2[p];} => source: mismatch at 20
int f(int*p){return ~p;} => source: mismatch at 20
struct s{int a;};int f(struct s*p){return !*p;} => source: mismatch at 42
struct s{int a;};int f(struct s*p){return (int)*p;} => source: mismatch at 42
struct s{int a;};int f(struct s*p){return *p&&1;} => source: mismatch at 42
int n;int a[n]; => source: mismatch at 12
int n;int a[1||n]; => source: mismatch at 12
int a[1/0]; => source: mismatch at 6
enum{A=1/0}; => source: mismatch at 7
enum{A=2147483648}; => source: mismatch at 7
int A;enum{A=4294967295}; => source: mismatch at 13
enum{A=2147483647,B}; => source: mismatch at 18
int x=1/0; => source: mismatch at 6
int x=-2147483647-2; => source: mismatch at 6
int n;int x=n; => source: mismatch at 12
int*p=0;int x=(int*)0; => source: mismatch at 12
int x;int*p=1; => source: mismatch at 9
void f(int*p){int x=p;} => source: mismatch at 18
void f(int*p){*p=p;} => source: mismatch at 14
int*f(char*p){return p;} => source: mismatch at 14
struct s{int a;};void f(struct s*p){if(*p)return;} => source: mismatch at 36
struct s{int a;};void f(struct s*p){while(*p);} => source: mismatch at 36
struct s{int a;};void f(struct s*p){do;while(*p);} => source: mismatch at 36
struct s{int a;};void f(struct s*p){for(;*p;);} => source: mismatch at 36
void f(int*p){switch(p){}} => source: mismatch at 14
void f(int a){switch(a){case a:break;}} => source: mismatch at 29
void f(int a){switch(a){case 1/0:break;}} => source: mismatch at 29
void g(void){}void f(int a){a=g();} => source: mismatch at 28
int g(int*p){return 0;}int f(char*q){return g(q);} => source: mismatch at 44
int x;int f(void){return x();} => source: mismatch at 25
int f(int a){return a.b;} => source: mismatch at 20
int f(int a){return a->b;} => source: mismatch at 20
int f(int a){return *a;} => source: mismatch at 20
int f(int*p){return p+p;} => source: mismatch at 20
typedef int t=1; => source: mismatch at 12
int f(void)=1; => source: mismatch at 4
struct s{int a[2];};void f(struct s*p,struct s*q){p->a=q->a;} => source: mismatch at 50
struct s{int a;};struct t{int a;};void f(struct s*p,struct t*q){*p=*q;} => source: mismatch at 64
int f(void){return f;} => source: mismatch at 19
void f(int a){1=a;} => source: not an lvalue at 14
void f(int a){(a+1)=2;} => source: not an lvalue at 14
void f(int a){1++;} => source: not an lvalue at 14
void f(int a){--1;} => source: not an lvalue at 14
int*f(int a){return &(a+1);} => source: not an lvalue at 20
void x; => source: incomplete at 5
struct s x; => source: incomplete at 9
extern struct u x; => source: incomplete at 16
int f(void*p){return *p;} => source: incomplete at 21
struct s;int f(struct s*p){return p->a;} => source: incomplete at 34
struct s;struct s*f(struct s*p){return &*p;} => source: incomplete at 40
int f(void){return sizeof(void);} => source: incomplete at 19
struct s;int f(void){return sizeof(struct s);} => source: incomplete at 28
int f(const void); => source: incomplete at 6
int f(int,void); => source: incomplete at 10
int f(void[]); => source: incomplete at 10
int f(struct t x); => source: incomplete at 15
void*f(void*p){return p+1;} => source: incomplete at 22
struct s;struct s*f(struct s*p){return p-1;} => source: incomplete at 39
struct s{struct s x;}; => source: incomplete at 18
void f(void){void x;} => source: incomplete at 18
void x[3]; => source: incomplete at 5
void a[3](void); => source: incomplete at 5
typedef void t[3]; => source: incomplete at 13
int g(int);int f(void){return g(1);} => source: no body at 30
int g(void);void f(void){g();} => source: no body at 25
int g(int a){return a;}int f(void){return g();} => source: arity at 42
int g(int a){return a;}int f(void){return g(1,2);} => source: arity at 42
int g(int*p){return 0;}int f(int a){return g(a,a);} => source: arity at 43
void f(int a){switch(a){case 1:a=2;default:break;}} => source: fall through at 24
void f(int a){switch(a){case 1:{break;}default:break;}} => source: fall through at 24
void f(int a){switch(a){case 1:if(a)break;else break;default:break;}} => source: fall through at 24
int g;int*f(void){return &g;} => source: out of subset at 25
int g[2];int*f(void){return &g;} => source: out of subset at 29
int g[2];int f(void){return sizeof g;} => source: out of subset at 35
int g[2];int*f(void){return g;} => source: out of subset at 28
void f(int*p){int a;p=&a;} => source: out of subset at 22
void f(int a,int*p){p=&a;} => source: out of subset at 22
void f(void){break;} => source: out of subset at 13
void f(void){continue;} => source: out of subset at 13
void f(int a){switch(a){default:continue;}} => source: out of subset at 32
void f(int){} => source: out of subset at 7
void f(int[3]){} => source: out of subset at 10
int f(void){int x=x;return 0;} => source: out of subset at 18
void f(int a){switch(a){case 1:;int y;y=1;break;case 2:y=2;break;}} => source: out of subset at 55
struct s{int a;};void f(void){struct s x;} => source: out of subset at 39
struct s{int a;};void f(struct s x); => source: out of subset at 33
struct s{int a;};struct s f(void); => source: out of subset at 26
void f(void){int a[3];} => source: out of subset at 17
void f(void){static int x;} => source: out of subset at 13
void f(void){extern int x;} => source: out of subset at 13
typedef int t[3];t*p; => source: out of subset at 18
typedef int t[3];int f(void){return sizeof(t*);} => source: out of subset at 43
int a[3](void); => source: out of subset at 4
typedef int t(int); => source: out of subset at 12
int a[4097]; => source: too large at 4
int a[0]; => source: too large at 4
int a[-1]; => source: too large at 4
char a[4096][17]; => source: too large at 5
struct s{char a[4096][16];char b;}; => source: too large at 0
int f(char a[4097]); => source: too large at 11
int f(int[0]); => source: too large at 9
typedef int t[4096][5]; => source: too large at 12
struct s{int a[4097];}; => source: too large at 13
int f(void){return 0;} => (program..
int f(int a){return a;}int g(int a){int r;r=f(a);return r;} => (program..
int g(int);int f(int a){int r;r=g(a);return r;}int g(int a){int r;r=f(a);return r;} => (program..
extern int x;int x;extern int x; => (program..
int x=1;int*p=0;int*q=(void*)0;void*r=0; => (program..
enum{A,B=5,C};int a[C];int f(void){return A+B+C;} => (program..
enum e{A};enum e f(enum e x){return x;} => (program..
struct{int a;}x;struct{int b;}y;int f(void){return x.a+y.b;} => (program..
struct s{int a;struct s*next;};int f(struct s*p){return p->next->a;} => (program..
struct s{int a[2][3];};int f(struct s*p,int i){return p->a[i][2];} => (program..
struct s{int a;};void f(struct s*p,struct s*q){*p=*q;} => (program..
struct s{int a;};struct s g;void f(struct s*p){g=*p;*p=g;} => (program..
struct s{char a[4096][16];}; => (program)
int a[4096];char b[4096][16]; => (program..
int f(int a){{int a;a=1;}return a;} => (program..
int f(int a){for(int a=0;a<3;a++);return a;} => (program..
void f(int a){switch(a){case 1:;int y;y=1;break;case 2:;{int y;y=2;}}} => (program..
int f(int a){switch(a){case 1:case 2:return 1;case 3:while(1)break;return 2;default:break;}return 0;} => (program..
int f(void*p,int*q){q=p;p=q;return p==q&&q==0&&p==(void*)0;} => (program..
int f(int a,int*p,void*q){p=a?p:0;q=a?p:q;return 0;} => (program..
int f(int*p){return p[1]+*(p+1)+*(1+p)+*(p-1);} => (program..
int*f(int*p){return &p[3];} => (program..
int*f(int*p){return &*p;} => (program..
struct s{int a[3];};int*f(struct s*p){return p->a;} => (program..
struct s{int a[3];};int f(struct s*p){return sizeof p->a+sizeof(1?0:0);} => (program..
unsigned f(int*p){return sizeof*p+sizeof p+sizeof(int*);} => (program..
int f(char*p){p++;++p;return 0;} => (program..
int f(int a){a+=1;a<<=2;a++;--a;return a;} => (program..
void f(void);void f(void){return;} => (program..
static inline const int f(const int a){return a;} => (program..
int f(int a[]){return a[0];} => (program..
int f(int a[3]){return *a;} => (program..
typedef struct node node_t;struct node{node_t*next;}; => (program)
long long x=9223372036854775807;unsigned long long y=18446744073709551615u; => (program..
int f(unsigned a,long b){return a<b;} => (program..
long const int x; => (program..
int; => (program)
unsigned inc(unsigned a){return a+1;} => (program (inc numbers ((a (nat 32))) ((nat 32)) (do () (guard (between 0 (add a 1) 4294967295)) (ret (add a 1)))))
unsigned f(void){return 7;} => (program (f numbers () ((nat 32)) (ret 7)))
unsigned f(void){return -1;} => (program..
enum{A=-1};unsigned f(void){return A;} => (program (f numbers () ((nat 32)) (ret 4294967295)))
typedef unsigned u;struct s{u a;};u f(u a){return (a)+sizeof(struct s);} => (program (f numbers ((a (nat 32))) ((nat 32)) (do () (guard (between 0 (add a 4) 4294967295)) (ret (add a 4)))))
unsigned f(unsigned a){return 'a'+a;} => (program (f numbers ((a (nat 32))) ((nat 32)) (do () (guard (between 0 (add 97 a) 4294967295)) (ret (add 97 a)))))
unsigned f(char*a){return sizeof(int*)+sizeof*(int*)a;} => (program..
unsigned f(unsigned a){unsigned b;return a;} => (program..
unsigned f(unsigned a){return a+sizeof*(int*)a;} => (program..
unsigned f(unsigned a){return a;}unsigned g(unsigned a){return a;} => (program..
unsigned f(unsigned a){return a+1l;} => (program..
unsigned f(unsigned a){return a-a;} => (program..
unsigned f(int a){return a;} => (program..
int f(unsigned a){return 1;} => (program..";

/// The same of tokens, of the grammar and of programs.
pub(crate) const READ: &str = "\
unsigned f(unsigned a){return a;} => (program (f numbers ((a (nat 32))) ((nat 32)) (ret a)))
unsigned f(unsigned a,unsigned b,unsigned c){return a+(b+c);} => (program (f numbers ((a (nat 32)) (b (nat 32)) (c (nat 32))) ((nat 32)) (do () (guard (between 0 (add b c) 4294967295)) () (guard (between 0 (add a (add b c)) 4294967295)) (ret (add a (add b c))))))
 => (program)
int f(int a){return a;} => (program..
unsigned int f(unsigned a){return a;} => (program (f numbers ((a (nat 32))) ((nat 32)) (ret a)))
unsigned f(unsigned a){return a+0x7fffffff;} => (program (f numbers ((a (nat 32))) ((nat 32)) (do () (guard (between 0 (add a 2147483647) 4294967295)) (ret (add a 2147483647)))))
unsigned f(unsigned a){return a+2147483648;} => (program..
unsigned f(unsigned a){return a+4294967296u;} => (program..
unsigned f(unsigned a){return a+1ul;} => (program..
unsigned f(unsigned a){return b;} => source: unknown at 30
unsigned f(unsigned a,unsigned a){return a;} => source: twice at 31
unsigned f(unsigned a){return a-a;} => (program..
unsigned f(void){return 1u;} => (program (f numbers () ((nat 32)) (ret 1)))
unsigned f(unsigned a){;return a;} => (program..
unsigned f(unsigned a){return g(a);} => source: unknown at 30
unsigned f(unsigned a); => (program)
unsigned f(unsigned a){return a;}int x; => (program..
int f(void){goto x;} => source: unsupported goto at 12
char *s = \"x\"; => source: unsupported \" at 10
int f(int a,...); => source: unsupported ... at 12
int a; # 1 => source: unsupported # at 7
/* x => source: open comment at 0
int a = 08; => source: bad number at 8
int a = 18446744073709551616ull; => source: bad number at 8
int a = 18446744073709551615ull; => (program..
int @; => source: bad byte at 4
int a = '\\377'; => (program..
int a = '\\400'; => source: bad byte at 8
int f(int a){else;} => source: syntax at 13
int f(int a,int b){return a- -b;} => (program..
int f(int a,int b){return a--b;} => source: syntax at 27
int f(int a,int b){return a+++b;} => source: syntax at 27
void f(int *p){*p++;} => source: syntax at 17
void f(void){x*y;} => source: syntax at 14
typedef int x;void f(void){x*y;} => (program..
typedef int t;struct s{int t;}; => source: syntax at 27
/* /* */ */ => source: syntax at 9
int => source: syntax at 3
unsigned f(unsigned a){return a;  => source: syntax at 32";
