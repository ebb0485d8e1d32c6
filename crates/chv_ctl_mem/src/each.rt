// Calls of the owner in the banks of a zone.
ghost use Rattle.std.specs.Prelude.{◌≡◌, ◌<◌, ℕ, [], ◌∷◌};
ghost use Rattle.chv_defs_memory.specs.BankState.{banks};
ghost use Rattle.chv_defs_memory.specs.Zones.{most_zones, IsBank};
ghost use Rattle.chv_ctl_mem.specs.BankChanges.{calls_made, is_bank, is_in_zone, AreChanged, MayMake, MayMakeAll};

use chv_defs_memory::{BANKS, BankCall, Zones};

/// Makes calls of the owner in each bank of a zone, one after another, while no context is lent. The room for them is reserved.
pub fn make_calls<R: Copy, Z: Zones<R>>(rt: R, zones: &mut Z, zone: u8, calls: &[BankCall])
    requires zone { zone < most_zones }
    requires home { Z.lent zones.old ≡ [] }
    requires may { (b : ℕ) → b < banks → MayMakeAll b calls.now (Z.known zones.old zone b) }
    ensures called { AreChanged (is_in_zone zone) (calls_made calls.now) (Z.known zones.old) (Z.known zones.new) }
    ensures home { Z.lent zones.new ≡ [] }
    ensures books { Z.books zones.new ≡ Z.books zones.old }
{
    for call in calls {
        call_each_bank(rt, zones, zone, call);
    }
}

// Makes a call of the owner in each bank of a zone.
fn call_each_bank<R: Copy, Z: Zones<R>>(rt: R, zones: &mut Z, zone: u8, call: &BankCall)
    requires zone { zone < most_zones }
    requires home { Z.lent zones.old ≡ [] }
    requires may { (b : ℕ) → b < banks → MayMake b call.now (Z.known zones.old zone b) }
    ensures called { AreChanged (is_in_zone zone) (calls_made (call.now ∷ [])) (Z.known zones.old) (Z.known zones.new) }
    ensures home { Z.lent zones.new ≡ [] }
    ensures books { Z.books zones.new ≡ Z.books zones.old }
{
    for bank in 0..BANKS {
        call_bank(rt, zones, zone, bank, call);
    }
}

// Makes a call of the owner in a bank.
fn call_bank<R: Copy, Z: Zones<R>>(rt: R, zones: &mut Z, zone: u8, bank: u8, call: &BankCall)
    requires bank { IsBank zone bank }
    requires home { Z.lent zones.old ≡ [] }
    requires may { MayMake bank call.now (Z.known zones.old zone bank) }
    ensures called { AreChanged (is_bank zone bank) (calls_made (call.now ∷ [])) (Z.known zones.old) (Z.known zones.new) }
    ensures home { Z.lent zones.new ≡ [] }
    ensures books { Z.books zones.new ≡ Z.books zones.old }
{
    drop(zones.owner(rt, zone, bank, call));
}
