//! Settings read from their words.

ghost use Rattle.std.specs.Prelude.{◌≡◌};
ghost use Rattle.dfs_record.specs.Pieces.{words, passing};
ghost use Rattle.dfs_script.specs.Line.{setting_of, set_of};
ghost use Rattle.dfs_script.specs.Read.{IsRead};
ghost use Rattle.dfs_script.specs.Settings.{is_in_range};

use crate::values::read_number;
use crate::words::two;
use crate::{Line, LineFault, Setting};

fn read_setting(word: &[u8]) -> Result<Setting, LineFault>
    ensures { IsRead result (setting_of word.now) }
{
    if word == b"buffer".as_slice() {
        Ok(Setting::Buffer)
    } else if word == b"cache".as_slice() {
        Ok(Setting::Cache)
    } else if word == b"parts".as_slice() {
        Ok(Setting::Parts)
    } else if word == b"logbytes".as_slice() {
        Ok(Setting::LogBytes)
    } else {
        Err(LineFault::Syntax)
    }
}

fn has_range(what: Setting, value: u64) -> bool
    ensures { result ≡ is_in_range what value }
{
    match what {
        Setting::Buffer => 1 <= value && value <= 65_536,
        Setting::Cache => 1 <= value && value <= 65_536,
        Setting::Parts => 1 <= value && value <= 256,
        Setting::LogBytes => 4_096 <= value && value <= 1_099_511_627_776,
    }
}

// The command, where the value is in the range of the setting.
fn within_range(what: Setting, value: u64) -> Result<Line, LineFault>
    ensures { IsRead result (passing (is_in_range what value) (Line.Set what value)) }
{
    if has_range(what, value) {
        Ok(Line::Set { what, value })
    } else {
        Err(LineFault::Syntax)
    }
}

/// What the words behind `set` ask for.
pub fn read_set(rest: &[u8]) -> Result<Line, LineFault>
    ensures { IsRead result (set_of (words 32 rest.now)) }
{
    match two(rest) {
        Some((setting, value)) => within_range(read_setting(setting)?, read_number(value)?),
        None => Err(LineFault::Syntax),
    }
}
