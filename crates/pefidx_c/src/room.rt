// What is given to a caller, in the room that he lends.
ghost use Rattle.std.specs.Prelude.{◌≡◌, length};
ghost use Rattle.pefidx_c.specs.Rooms.{put_in, given_in};
ghost use Rattle.pefidx_c.specs.StatusNumber.{number_of};

use crate::status::Status;

// Gives items in a room, as many as it holds, with the count of all.
pub(crate) fn give<T: Copy>(items: &[T], room: &mut [T], count: &mut usize) -> u32
    ensures status { result ≡ number_of (given_in (length room.old) (length items.now)) }
    ensures room { room.new ≡ put_in room.old items.now }
    ensures count { count.new ≡ length items.now }
{
    put(room, items);
    *count = items.len();
    given_in(room.len(), items.len()).number()
}

// Puts items in from the start of a room on, as many as it holds.
fn put<T: Copy>(room: &mut [T], items: &[T])
    ensures { room.new ≡ put_in room.old items.now }
{
    let count = room.len().min(items.len());
    room[..count].copy_from_slice(&items[..count]);
}

// How it ends where so many are to be given and there is so much room.
pub(crate) fn given_in(room: usize, count: usize) -> Status
    ensures { result ≡ given_in room count }
{
    if count > room {
        Status::Room
    } else {
        Status::Done
    }
}
