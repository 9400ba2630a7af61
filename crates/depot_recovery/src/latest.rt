//! Which entry computed a partition last.

ghost use Rattle.std.specs.Prelude.{◌≡◌};
ghost use Rattle.claim_core.specs.Cores.{IsFound};
ghost use Rattle.depot_recovery.specs.Depots.{is_latest};
ghost use Rattle.depot_recovery.specs.Latest.{IsInstallAt, IsLastInstall};

use claim_core::Core;
use desc_types::Key;

/// The entry that computed a partition last, or 0 if none did.
pub(crate) fn last_install(core: &Core, key: Key) -> u64
    requires found { IsFound core.now.desc core.now.state.journal core.now }
    ensures exact { IsLastInstall core.now.state.journal key result }
{
    core.entry_of(key, core.version(key)).unwrap_or(0)
}

/// Whether an entry, an install of a partition, is its latest.
pub(crate) fn is_latest(core: &Core, key: Key, number: u64) -> bool
    requires found { IsFound core.now.desc core.now.state.journal core.now }
    requires install { IsInstallAt core.now.state.journal key number }
    ensures exact { result ≡ is_latest core.now.state.journal number key }
{
    last_install(core, key) == number
}
