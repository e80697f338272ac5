//! The room that a host has for what it is handed.

ghost use Rattle.std.specs.Prelude.{◌≡◌, ◌≤◌, ◌<◌, ◌+◌, ◌++◌, IfNone, IfSome, length, take};

/// Puts a text into a room, after what is there already.
pub(crate) fn put_after(room: &mut [u8], used: usize, text: &[u8])
    requires { used + length text.now ≤ length room.old }
    ensures text { take (used + length text.now) room.new ≡ take used room.old ++ text.now }
    ensures length { length room.new ≡ length room.old }
{
    let (_, rest) = room.split_at_mut(used);
    let (place, _) = rest.split_at_mut(text.len());
    place.copy_from_slice(text);
}

/// Puts a text at the beginning of a room, and returns how many bytes it has; None where the room doesn't hold it.
pub(crate) fn put(room: &mut [u8], text: &[u8]) -> Option<usize>
    ensures text { IfSome result (λ count. (count ≤ length room.new) × (take count room.new ≡ text.now)) }
    ensures none { IfNone result (length room.old < length text.now) }
    ensures length { length room.new ≡ length room.old }
{
    if text.len() > room.len() {
        return None;
    }
    put_after(room, 0, text);
    Some(text.len())
}
