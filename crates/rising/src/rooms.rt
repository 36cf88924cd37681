// The check of a list before a book or a roll is made over it, and the ceiling that it is made
// with.
ghost use Rattle.std.specs.Prelude.{◌≤◌};
ghost use Rattle.rights.specs.Checks.{First, fault_of};
ghost use Rattle.rising.specs.Rooms.{room_checks, Granted};

use rights::RoomFault;

/// Refuses a list of fewer places than the ceiling wanted, and a ceiling of 0 or above the limit.
pub fn check_room(places: usize, wanted: usize, limit: usize) -> Result<(), RoomFault>
    ensures { First (room_checks limit places wanted) (fault_of result) }
{
    if places < wanted {
        return Err(RoomFault::ShortList);
    }
    if wanted == 0 || wanted > limit {
        return Err(RoomFault::BadNumber);
    }
    Ok(())
}

/// The ceiling wanted, or 0 where the check refuses.
pub fn ceiling(places: usize, wanted: usize, limit: usize) -> usize
    ensures granted { Granted limit places wanted result }
    ensures room { result ≤ places }
    ensures limit { result ≤ limit }
{
    check_room(places, wanted, limit).map_or(0, |()| wanted)
}
