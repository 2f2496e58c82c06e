//! Deep and long programs through the kernel: nested 4,096 deep, and along 200,000 parts. A row
//! is one of `rules`, with parts that stand there many times. A long program has few names, since a
//! name is looked for in all that was passed.

use crate::equality::rules::is_so;
use crate::rows::repeated;
use std::test::Fail;

const DEEP: &str = "\
2bind *exp* refl | bind *guard not not t* ret | bind *guard t* ret | ok
2if *exp* refl | if t *guard not not t* ret | if t *guard t* ret | ok
1loop *exp | loop true t *guard not not t | loop true t *guard t | ok
2through_x *if_const* refl | if true 1bind 1ret a x 1ret x 1ret b | 1bind 1ret a x 1ret x | ok
exp | *guard not not *not *t | *guard *not *t | ok
exp | *guard *not *t | *guard *not *t | 0
ret_first | *1bind 1ret t x *bind *guard x* ret | bind *guard t* ret | ok
ret_first | *1bind 1ret t x *bind *1bind 1ret true t guard x* ret | \
    bind *1bind 1ret true t guard t* ret | 0
2bind *refl* refl | bind *guard t* ret | bind *guard true* ret | 4096";

#[test]
fn deep_programs(rt: HostRuntime) -> Result<(), Fail> {
    for line in DEEP.lines() {
        let row = repeated(rt.alloc(), line, 4_096)?;
        assert!(rt; is_so(rt.alloc(), row.as_str())?, "{line}");
    }
    Ok(())
}

const LONG: &str = "\
2bind refl *exp | bind guard true *guard not not true | bind guard true *guard true | ok
ret_first | *1bind 1ret true x *bind guard true *guard x | bind guard true *guard true | ok
2bind refl *refl | bind guard true *guard true | bind guard true *guard false | 400000";

#[test]
fn long_programs(rt: HostRuntime) -> Result<(), Fail> {
    for line in LONG.lines() {
        let row = repeated(rt.alloc(), line, 200_000)?;
        assert!(rt; is_so(rt.alloc(), row.as_str())?, "{line}");
    }
    Ok(())
}
