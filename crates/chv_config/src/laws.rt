// Laws of the definitions.
ghost use Rattle.std.specs.Prelude.{◌≡◌, ℕ, ◌<◌, ◌≤◌, ◌^◌, None, true, false, is_some, length, map};
ghost use Rattle.std.specs.List.{list_all};
ghost use Rattle.chv_defs_api.specs.ConfigRules.{checked_of, device_ids, devices_of, has_twice, is_free, lowest_free, verdict};

use chv_defs_api::VmConfig;
use chv_defs_base::{Name, Row, Text};

/// A default id is one that no device uses, and the lowest such one.
pub fn default_id_is_lowest(ids: &[Text])
    requires { length ids.now < 2 ^ 64 }
    ensures free { is_free ids.now (lowest_free ids.now) ≡ true }
    ensures lowest { (k : ℕ) → k < lowest_free ids.now → is_free ids.now k ≡ false }
{}

/// In a configuration that is kept each disk has an id, the devices' ids are distinct, and at most 31 devices stand.
pub fn kept_devices_are_distinct(config: &VmConfig, names: &Row<Name>)
    requires { verdict names.now config.now ≡ None }
    ensures set { list_all (λ disk. is_some disk.id) (checked_of config.now).config.disks ≡ true }
    ensures distinct { has_twice (device_ids (checked_of config.now)) ≡ false }
    ensures named { map (λ device. device.1) (devices_of (checked_of config.now)) ≡ device_ids (checked_of config.now) }
    ensures few { length (device_ids (checked_of config.now)) ≤ 31 }
{}
