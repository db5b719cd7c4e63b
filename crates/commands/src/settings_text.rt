//! The settings of a text.
ghost use Rattle.std.specs.Prelude.{◌≡◌, Some, MatchResult};
ghost use Rattle.settings.specs.Documents.{Refuses, settings_of};
ghost use Rattle.settings.specs.Views.{settings_view};

use settings::Settings;
use std::alloc::Global;
use units::Fault;

/// The settings of a drive, by a TOML text. Any other text is refused as `settings`.
pub fn settings(alloc: Global, text: &str) -> Result<Settings, Fault>
    ensures { MatchResult result
        (λ settings. settings_of text.now ≡ Some (settings_view settings))
        (λ fault. Refuses fault (settings_of text.now)) }
{
    Settings::read(alloc, text)
}
