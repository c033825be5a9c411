//! Plans and their parts read from their words.

ghost use Rattle.std.specs.Prelude.{Some};
ghost use Rattle.dfs_record.specs.Pieces.{words, passing};
ghost use Rattle.dfs_script.specs.Line.{scope_of, parts_of, plan_of, part_of};
ghost use Rattle.dfs_script.specs.Read.{IsRead};
ghost use Rattle.dfs_script.specs.Scopes.{is_parts};

use crate::values::read_number;
use crate::words::{is_blank, next_word, one};
use crate::{JobWord, Line, LineFault};
use dfs_path::Scope;

fn read_scope(word: &[u8]) -> Result<Scope, LineFault>
    ensures { IsRead result (scope_of word.now) }
{
    if word == b"own".as_slice() {
        Ok(Scope::Own)
    } else if word == b"all".as_slice() {
        Ok(Scope::All)
    } else {
        Err(LineFault::Syntax)
    }
}

// The number, where a plan can have so many parts.
fn within_parts(parts: u64) -> Result<Option<u16>, LineFault>
    ensures { IsRead result (passing (is_parts parts) (Some parts)) }
{
    if 1 <= parts && parts <= 256 {
        Ok(Some(parts as u16))
    } else {
        Err(LineFault::Syntax)
    }
}

fn read_parts(rest: &[u8]) -> Result<Option<u16>, LineFault>
    ensures { IsRead result (parts_of (words 32 rest.now)) }
{
    if is_blank(rest) {
        return Ok(None);
    }
    match one(rest) {
        Some(parts) => within_parts(read_number(parts)?),
        None => Err(LineFault::Syntax),
    }
}

/// What the words behind `plan` ask for.
pub fn read_plan(job: JobWord, rest: &[u8]) -> Result<Line, LineFault>
    ensures { IsRead result (plan_of job (words 32 rest.now)) }
{
    match next_word(rest) {
        Some((scope, rest)) => Ok(Line::Plan {
            job,
            scope: read_scope(scope)?,
            parts: read_parts(rest)?,
        }),
        None => Err(LineFault::Syntax),
    }
}

/// What the words behind `part` ask for.
pub fn read_part(job: JobWord, rest: &[u8]) -> Result<Line, LineFault>
    ensures { IsRead result (part_of job (words 32 rest.now)) }
{
    match one(rest) {
        Some(part) => Ok(Line::Part {
            job,
            part: read_number(part)?,
        }),
        None => Err(LineFault::Syntax),
    }
}
