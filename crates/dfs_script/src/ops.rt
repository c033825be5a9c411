//! Operations read from their words.

ghost use Rattle.dfs_record.specs.Pieces.{words};
ghost use Rattle.dfs_script.specs.Line.{mkdir_of, create_of, setattr_of, rename_of, one_path, op_of};
ghost use Rattle.dfs_script.specs.Read.{IsRead};

use crate::LineFault;
use crate::values::{read_mode, read_number, read_path, read_reference};
use crate::words::{five, one, three, two};
use dfs_path::{Op, Path};
use std::alloc::Global;

fn read_mkdir(alloc: Global, rest: &[u8]) -> Result<Op, LineFault>
    ensures { IsRead result (mkdir_of (words 32 rest.now)) }
{
    match three(rest) {
        Some((path, mode, time)) => Ok(Op::Mkdir {
            path: read_path(alloc, path)?,
            mode: read_mode(mode)?,
            time: read_number(time)?,
        }),
        None => Err(LineFault::Syntax),
    }
}

fn read_setattr(alloc: Global, rest: &[u8]) -> Result<Op, LineFault>
    ensures { IsRead result (setattr_of (words 32 rest.now)) }
{
    match three(rest) {
        Some((path, mode, time)) => Ok(Op::Setattr {
            path: read_path(alloc, path)?,
            mode: read_mode(mode)?,
            time: read_number(time)?,
        }),
        None => Err(LineFault::Syntax),
    }
}

fn read_rename(alloc: Global, rest: &[u8]) -> Result<Op, LineFault>
    ensures { IsRead result (rename_of (words 32 rest.now)) }
{
    match two(rest) {
        Some((from, to)) => Ok(Op::Rename {
            from: read_path(alloc, from)?,
            to: read_path(alloc, to)?,
        }),
        None => Err(LineFault::Syntax),
    }
}

fn read_one_path(alloc: Global, rest: &[u8]) -> Result<Path, LineFault>
    ensures { IsRead result (one_path (words 32 rest.now)) }
{
    match one(rest) {
        Some(path) => read_path(alloc, path),
        None => Err(LineFault::Syntax),
    }
}

fn read_create(alloc: Global, rest: &[u8]) -> Result<Op, LineFault>
    ensures { IsRead result (create_of (words 32 rest.now)) }
{
    match five(rest) {
        Some((path, mode, time, size, reference)) => Ok(Op::Create {
            path: read_path(alloc, path)?,
            mode: read_mode(mode)?,
            time: read_number(time)?,
            size: read_number(size)?,
            reference: read_reference(alloc, reference)?,
        }),
        None => Err(LineFault::Syntax),
    }
}

/// The operation that a command and the words behind it ask for.
pub fn read_op(alloc: Global, command: &[u8], rest: &[u8]) -> Result<Op, LineFault>
    ensures { IsRead result (op_of command.now (words 32 rest.now)) }
{
    if command == b"mkdir".as_slice() {
        read_mkdir(alloc, rest)
    } else if command == b"create".as_slice() {
        read_create(alloc, rest)
    } else if command == b"unlink".as_slice() {
        Ok(Op::Unlink {
            path: read_one_path(alloc, rest)?,
        })
    } else if command == b"rmdir".as_slice() {
        Ok(Op::Rmdir {
            path: read_one_path(alloc, rest)?,
        })
    } else if command == b"rename".as_slice() {
        read_rename(alloc, rest)
    } else if command == b"setattr".as_slice() {
        read_setattr(alloc, rest)
    } else if command == b"stat".as_slice() {
        Ok(Op::Stat {
            path: read_one_path(alloc, rest)?,
        })
    } else if command == b"list".as_slice() {
        Ok(Op::List {
            path: read_one_path(alloc, rest)?,
        })
    } else {
        Err(LineFault::Syntax)
    }
}
