// What is written is read back.
ghost use Rattle.std.specs.Prelude.{◌≡◌, Ok};
ghost use Rattle.chv_defs_api.specs.JsonBodies.{config_in, disk_in};
ghost use Rattle.chv_defs_api.specs.JsonTexts.{config_value, disk_value};

use chv_defs_api::{DiskConfig, VmConfig};

/// A configuration that is written is read back as it is.
#[tactic(auto, using(crate::proofs::Again::config_again))]
pub fn written_configuration_is_read(config: &VmConfig)
    ensures { config_in (config_value config.now) ≡ Ok config.now }
{}

/// A disk that is written is read back as it is.
#[tactic(auto, using(crate::proofs::Again::disk_again))]
pub fn written_disk_is_read(disk: &DiskConfig)
    ensures { disk_in (disk_value disk.now) ≡ Ok disk.now }
{}
