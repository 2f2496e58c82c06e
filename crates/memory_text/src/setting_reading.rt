//! Trees read as values of globals.
ghost use Rattle.std.specs.Prelude.{◌≡◌, codes, map, option_map};
ghost use Rattle.ac_sx.specs.CodeSx.{tree_of, trees_in};
ghost use Rattle.c_values.specs.CodeValue.{global_of};
ghost use Rattle.expression_text.specs.CodeFault.{Gives};
ghost use Rattle.memory_text.specs.MemoryText as texts;
ghost use Rattle.memory_text.specs.MemoryReading as reading;
ghost use Rattle.memory_text.specs.CodeMemory.{setting_of};

use crate::parts::{pair, parts_behind};
use crate::value_reading::value_at;
use ac_sx::Sx;
use c_values::{GlobalVar, Layout, Value};
use expression_text::{TextFault, name_at, next};
use std::alloc::Global;

/// The values of globals that a tree is, in the order of the globals.
pub(crate) fn settings_at(
    alloc: Global,
    layout: &Layout,
    globals: &[GlobalVar],
    tree: &Sx,
    at: u32,
) -> Result<(Vec<(String, Value)>, u32), TextFault>
    ensures { Gives (λ settings. map setting_of settings.items) result
        (reading.listed_at (codes "globals")
        (reading.chained_at (reading.setting_at layout.now) (map global_of globals.now)) at
        (tree_of tree.now)) }
{
    match parts_behind("globals", tree) {
        Some(parts) => each_setting_at(alloc, layout, globals, parts, next(next(at))),
        None => Err(TextFault::Shape(at)),
    }
}

fn each_setting_at(
    alloc: Global,
    layout: &Layout,
    globals: &[GlobalVar],
    parts: &[Sx],
    at: u32,
) -> Result<(Vec<(String, Value)>, u32), TextFault>
    ensures { Gives (λ settings. map setting_of settings.items) result
        (reading.chained_at (reading.setting_at layout.now) (map global_of globals.now) at
        (trees_in parts.now)) }
{
    let mut settings = Vec::new(alloc);
    let mut left = globals;
    let mut here = at;
    let mut rest = parts;
    'settings: while let Some((part, others)) = rest.split_first() {
        let ((setting, later), behind) = setting_at(alloc, layout, left, part, here)?;
        settings.push(setting)?;
        left = later;
        here = behind;
        rest = others;
    }
    Ok((settings, here))
}

// The value of one of these globals that a tree is, and the globals behind it.
fn setting_at<'a>(
    alloc: Global,
    layout: &Layout,
    globals: &'a [GlobalVar],
    tree: &Sx,
    at: u32,
) -> Result<(((String, Value), &'a [GlobalVar]), u32), TextFault>
    ensures { Gives (λ x. (setting_of x.0, map global_of x.1.now)) result
        (reading.setting_at layout.now (map global_of globals.now) at (tree_of tree.now)) }
{
    let Some((name, value)) = pair(tree) else {
        return Err(TextFault::Shape(at));
    };
    let start = next(at);
    let (name, here) = name_at(alloc, name, start)?;
    let Some((global, others)) = global_named(globals, name.as_str()) else {
        return Err(TextFault::Shape(start));
    };
    let (value, behind) = value_at(alloc, layout, &global.ty, value, here)?;
    Ok((((name, value), others), behind))
}

// The first global of a name, and those behind it.
fn global_named<'a>(
    globals: &'a [GlobalVar],
    name: &str,
) -> Option<(&'a GlobalVar, &'a [GlobalVar])>
    ensures { option_map (λ x. (global_of x.0.now, map global_of x.1.now)) result
        ≡ texts.global_named (map global_of globals.now) name.now }
{
    let mut rest = globals;
    'globals: while let Some((global, others)) = rest.split_first() {
        if global.name.as_str() == name {
            return Some((global, others));
        }
        rest = others;
    }
    None
}
