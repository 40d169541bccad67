//! The parts of a JSON value that a library is made of, each where it has its type. What is wrong
//! where it hasn't is for others to say.
ghost use Rattle.std.specs.Prelude.{◌≡◌, map, option_map, option_and_then, IfOk};
ghost use Rattle.serde_json.specs.Find.{get};
ghost use Rattle.serde_json.specs.View.{view, items_view};
ghost use Rattle.bx_library.specs.Triples.{triple_dot};
ghost use Rattle.bx_library.specs.Values.{whole, dot_of, dots_of, dots_of_items};

use bx_logic::NoMemory;
use serde_json::Value;
use std::alloc::Global;

/// Three numbers, as a dot is written down: `l` may be any number.
#[derive(Clone, Copy)]
pub struct Triple {
    pub n: u32,
    pub m: u32,
    pub l: u32,
}

/// The whole number below 2^32 that stands under this key.
pub(crate) fn number(value: &Value, key: &str) -> Option<u32>
    ensures { result ≡ option_and_then whole (get key.now (view value.now)) }
{
    whole_number(value.get(key)?)
}

fn whole_number(value: &Value) -> Option<u32>
    ensures { result ≡ whole (view value.now) }
{
    u32::try_from(value.as_u64()?).ok()
}

/// The dots that are listed, if each is a list of three numbers.
pub(crate) fn triples(alloc: Global, value: &Value) -> Result<Option<Vec<Triple>>, NoMemory>
    ensures { IfOk result
        (λ found. option_map (λ v. map triple_dot v.items) found ≡ dots_of (view value.now)) }
{
    match value.as_array() {
        Some(list) => triples_in(alloc, list),
        None => Ok(None),
    }
}

fn triples_in(alloc: Global, list: &[Value]) -> Result<Option<Vec<Triple>>, NoMemory>
    ensures { IfOk result (λ found. option_map (λ v. map triple_dot v.items) found ≡
        dots_of_items (items_view list.now)) }
{
    let mut triples = Vec::new(alloc);
    for value in list {
        let Some(triple) = numbers(value) else {
            return Ok(None);
        };
        triples.push(triple)?;
    }
    Ok(Some(triples))
}

fn numbers(value: &Value) -> Option<Triple>
    ensures { option_map triple_dot result ≡ dot_of (view value.now) }
{
    let [n, m, l] = value.as_array()?.as_slice() else {
        return None;
    };
    Some(Triple {
        n: whole_number(n)?,
        m: whole_number(m)?,
        l: whole_number(l)?,
    })
}
