//! Where expressions are evaluated.

use crate::environments::Env;
use c_values::{GlobalVar, Layout, Value};
use std::alloc::Global;

/// Where expressions are evaluated: an environment, a heap and the globals with their values, under
/// a layout.
#[derive(Drop)]
pub(crate) struct Scene<'a, H> {
    pub(crate) alloc: Global,
    pub(crate) layout: &'a Layout,
    pub(crate) env: &'a Env,
    pub(crate) heap: &'a H,
    pub(crate) vars: &'a [GlobalVar],
    pub(crate) globals: &'a [Value],
}
