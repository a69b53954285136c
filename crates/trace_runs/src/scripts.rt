//! What the callback of a pool answers: all `raw` lines of the trace that name the pool, wherever they stand. This
//! project's own.
ghost use Rattle.std.specs.Prelude.{◌≡◌, [], IfOk};
ghost use Rattle.trace_runs.specs.Scripts.{get_of, put_of, gets_of, puts_of, script_of};

use pool_types::{Region, ScriptedRaw};
use std::alloc::{AllocError, Global};
use trace_reader::{Act, TraceLine};

/// What a line adds to the gets of a pool, if it does.
fn get_of(pool: u16, act: &Act) -> Option<Option<Region>>
    ensures { result ≡ get_of pool act.now }
{
    match act {
        Act::RawGet {
            pool: named,
            base,
            bytes,
        } if *named == pool => Some(Some(Region {
            base: *base,
            bytes: *bytes,
        })),
        Act::RawGetFail { pool: named } if *named == pool => Some(None),
        _ => None,
    }
}

/// What a line adds to the puts of a pool, if it does.
fn put_of(pool: u16, act: &Act) -> Option<bool>
    ensures { result ≡ put_of pool act.now }
{
    match act {
        Act::RawPutOk { pool: named } if *named == pool => Some(true),
        Act::RawPutFail { pool: named } if *named == pool => Some(false),
        _ => None,
    }
}

/// The gets of a pool, in the order of the lines.
fn gets_of(alloc: Global, pool: u16, lines: &[TraceLine]) -> Result<Vec<Option<Region>>, AllocError>
    ensures { IfOk result (λ gets. gets.items ≡ gets_of pool lines.now) }
{
    let mut gets = Vec::new(alloc);
    for line in lines {
        if let Some(get) = get_of(pool, &line.act) {
            gets.push(get)?;
        }
    }
    Ok(gets)
}

/// The puts of a pool, in the order of the lines.
fn puts_of(alloc: Global, pool: u16, lines: &[TraceLine]) -> Result<Vec<bool>, AllocError>
    ensures { IfOk result (λ puts. puts.items ≡ puts_of pool lines.now) }
{
    let mut puts = Vec::new(alloc);
    for line in lines {
        if let Some(put) = put_of(pool, &line.act) {
            puts.push(put)?;
        }
    }
    Ok(puts)
}

/// The callback of a pool, as the lines have it.
#[tactic(auto, unfolding(crate::specs::Scripts::script_of))]
pub fn script_of(alloc: Global, pool: u16, lines: &[TraceLine]) -> Result<ScriptedRaw, AllocError>
    ensures raw { IfOk result (λ raw. raw ≡ script_of pool lines.now) }
    ensures out { IfOk result (λ raw. raw.out ≡ []) }
{
    let gets = gets_of(alloc, pool, lines)?;
    let puts = puts_of(alloc, pool, lines)?;
    Ok(ScriptedRaw::of(gets, puts))
}
