//! What jobs are given when they begin.

ghost use Rattle.std.specs.Prelude.{◌≡◌, IsTrue};
ghost use Rattle.dfs_job.specs.Stands.{AreSettings};
ghost use Rattle.dfs_script.specs.Settings.{is_in_range};
ghost use Rattle.dfs_session.specs.Session.{with_setting as settings_with};

use dfs_job::Settings;
use dfs_script::Setting;

/// The settings with another value of one.
pub(crate) fn with_setting(settings: Settings, what: Setting, value: u64) -> Settings
    requires settings { AreSettings settings }
    requires range { IsTrue (is_in_range what value) }
    ensures with { result ≡ settings_with what value settings }
    ensures settings { AreSettings result }
{
    match what {
        Setting::Buffer => Settings {
            buffer: value as u32,
            ..settings
        },
        Setting::Cache => Settings {
            cache: value as u32,
            ..settings
        },
        Setting::Parts => Settings {
            parts: value as u16,
            ..settings
        },
        Setting::LogBytes => Settings {
            log_bytes: value,
            ..settings
        },
    }
}
