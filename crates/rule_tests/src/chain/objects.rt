//! Tests of objects: structs in structs, arrays in structs, pointers to members, and two pointers
//! to one object.

use crate::chain::{ALL, are_taken};
use c_values::Target;
use std::test::Fail;

#[test]
fn parts_of_objects(rt: HostRuntime) -> Result<(), Fail> {
    let alloc = rt.alloc();
    for text in [
        "struct i{int x;int y;};struct o{struct i a;struct i b[3];};int f(struct o*p,int k){p->b[k].y=p->a.x;return p->b[1].y;}",
        "struct i{int x;int y;};struct o{struct i a;struct i b[3];};void f(struct o*p,struct o*q){p->a=q->b[2];*q=*p;}",
        "struct s{unsigned v[4];unsigned n;};unsigned f(struct s*p){unsigned k;unsigned t=0;for(k=0;k<4;k++){t=t+p->v[k];}p->n=t;return t;}",
        "void f(unsigned*p,unsigned*q){unsigned t=*p;*p=*q;*q=t;}",
        "struct l{int v;struct l*next;};int f(struct l*p){int t=0;while(p!=0){t=p->v;p=p->next;}return t;}",
        "struct l{int v;struct l*next;};struct l*f(struct l*p){struct l*r=0;struct l*n;while(p!=0){n=p->next;p->next=r;r=p;p=n;}return r;}",
        "int g;struct s{int a;};struct s h;int f(struct s*p){g=p->a;h=*p;h.a=g+1;return h.a;}",
        "unsigned f(unsigned*p,unsigned n){unsigned*e=p+n;unsigned t=0;while(p!=e){t=t^*p;p=p+1;}return t;}",
    ] {
        for target in [Target::Ilp32, Target::Lp64] {
            for chosen in ALL {
                assert!(rt;
                    are_taken(alloc, text, target, chosen)?,
                    "{chosen:?} {text}"
                );
            }
        }
    }
    Ok(())
}
