//! The order of a block: by key group, and then by the key's bytes.
ghost use Rattle.std.specs.Prelude.{◌≡◌, IfOk, map};
ghost use Rattle.std.specs.List.{AllByRecursion, Contains};
ghost use Rattle.std.specs.BTreeMap.{values};
ghost use Rattle.ax_keys.specs.Groups.{IsMaximum};
ghost use Rattle.ax_machine.specs.Blocks.{placed};
ghost use Rattle.ax_snapshot.specs.Snaps.{shown_part};
ghost use Rattle.ax_snapshot.specs.Places.{shown_places};

use crate::snapshot::KeySnap;
use ax_base::NoMemory;
use ax_keys::Key;
use ax_keys::groups::group;
use std::alloc::Global;
use std::collections::BTreeMap;

// Where a key stands in a block.
#[derive(Clone, Copy, PartialEq, Eq, PartialOrd, Ord)]
pub(crate) struct Place<'a> {
    group: u16,
    key: &'a Key,
}

// Puts each key at its place, where there are m key groups. A key that comes again takes the place of the one before.
pub(crate) fn place_keys(
    alloc: Global,
    keys: &[KeySnap],
    m: u16,
) -> Result<BTreeMap<Place<'_>, &KeySnap>, NoMemory>
    requires { IsMaximum m }
    ensures order { IfOk result (λ places. shown_places places ≡ placed m (map shown_part keys.now)) }
    ensures among { IfOk result (λ places. AllByRecursion (λ snap. Contains keys.now snap.now) (values places)) }
{
    let mut places = BTreeMap::new(alloc);
    for snap in keys {
        let place = Place {
            group: group(&snap.key, m),
            key: &snap.key,
        };
        let Ok(_) = places.insert(place, snap) else {
            return Err(NoMemory);
        };
    }
    Ok(places)
}
