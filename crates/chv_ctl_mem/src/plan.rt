// Plans: which calls of the owner are made in each bank of the zones in effect.
ghost use Rattle.std.specs.Prelude.{◌≡◌, ◌<◌, ◌≤◌, ◌^◌, ℕ, [], ◌∷◌, length, true, false};
ghost use Rattle.chv_defs_api.specs.declared.config.ZoneConfig.{ZoneConfig};
ghost use Rattle.chv_defs_base.specs.Sizes.{blocks_in};
ghost use Rattle.chv_defs_memory.specs.BankState.{banks, most_blocks};
ghost use Rattle.chv_defs_memory.specs.MadeCalls.{pages_wanted, places_wanted};
ghost use Rattle.chv_defs_memory.specs.Zones.{most_zones};
ghost use Rattle.chv_ctl_mem.specs.BankChanges.{calls_made, is_for_frozen, is_in_zone, plan_calls, AreChanged, IsReady};

use crate::each::make_calls;
use chv_addr::blocks_in;
use chv_defs_api::ZoneConfig;
use chv_defs_memory::{BankCall, Zones};

/// Which calls of the owner are made in each bank of the zones in effect.
#[derive(Clone, Copy, PartialEq, Eq)]
pub enum Plan {
    /// The boot blocks are opened.
    Shape,
    /// Every block is closed.
    Wipe,
    /// The same where the banks are frozen: they are thawed before.
    ThawAndWipe,
}

impl Plan {
    /// How many further places it wants in each bank of a zone in effect. It wants no page.
    pub fn places(self) -> u32
        ensures one { result ≡ 1 }
        ensures places { (config : ZoneConfig) → result ≡ places_wanted (plan_calls self config) }
        ensures pages { (config : ZoneConfig) → pages_wanted (plan_calls self config) ≡ 0 }
    {
        match self {
            // (The place of a Thaw is kept while a bank is frozen.)
            Plan::Shape | Plan::Wipe | Plan::ThawAndWipe => 1,
        }
    }

    /// How many places are kept in each bank before it.
    pub fn kept(self) -> u32
        ensures thawed { is_for_frozen self ≡ false → result ≡ 0 }
        ensures frozen { is_for_frozen self ≡ true → result ≡ 1 }
    {
        match self {
            Plan::Shape | Plan::Wipe => 0,
            Plan::ThawAndWipe => 1,
        }
    }

    /// Makes its calls in every bank of a zone, while no context is lent.
    pub fn make<R: Copy, Z: Zones<R>>(self, rt: R, zones: &mut Z, zone: u8, config: &ZoneConfig)
        requires zone { zone < most_zones }
        requires blocks { blocks_in config.now.size ≤ most_blocks }
        requires home { Z.lent zones.old ≡ [] }
        requires ready { (b : ℕ) → b < banks → IsReady (is_for_frozen self) (length (plan_calls self config.now)) (Z.known zones.old zone b) }
        ensures made { AreChanged (is_in_zone zone) (calls_made (plan_calls self config.now)) (Z.known zones.old) (Z.known zones.new) }
        ensures home { Z.lent zones.new ≡ [] }
        ensures books { Z.books zones.new ≡ Z.books zones.old }
    {
        match self {
            Plan::Shape => {
                let blocks = blocks_in(config.size) as u32;
                make_calls(rt, zones, zone, &[BankCall::Shape(blocks)]);
            }
            Plan::Wipe => make_calls(rt, zones, zone, &[BankCall::Wipe]),
            Plan::ThawAndWipe => make_calls(rt, zones, zone, &[BankCall::Thaw, BankCall::Wipe]),
        }
    }
}
