//! Laws over the definitions alone. Each is the contract of a function that does nothing.

ghost use Rattle.data_command.specs.Across.{LogsLeadOn};
ghost use Rattle.data_command.specs.Carried.{WordsChangeLimits};
ghost use Rattle.data_command.specs.Laws.{CrashesStand};

/// Whatever a crash leaves of a folder, at any moment of a run, opens as where all lines lead whose replies went out.
pub fn crashes_stand()
    ensures { CrashesStand }
{}

/// However many logs a run passed, the last one's silo goes on as one that got all of their lines one after another, and the
/// replies of all of them are those of that one.
pub fn logs_lead_on()
    ensures { LogsLeadOn }
{}

/// A start under other words changes the limits of each tenant and the ages, and nothing that was kept.
pub fn words_change_limits()
    ensures { WordsChangeLimits }
{}
