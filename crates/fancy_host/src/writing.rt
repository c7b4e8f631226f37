//! What is written into the memory of a host, as far as there is room.

ghost use Rattle.std.specs.Prelude.{◌≡◌, ◌≤◌, length};
ghost use Rattle.fancy_host.specs.Hosted as hosted;

/// Writes what is new over what is there, as far as there is room.
pub fn write_over<T: Copy>(new: &[T], room: &mut [T])
    ensures { room.new ≡ hosted.over new.now room.old }
{
    let count = new.len().min(room.len());
    let (front, _) = room.split_at_mut(count);
    front.copy_from_slice(&new[..count]);
}

/// Writes what is new from this place on over what is there, as far as there is room.
pub fn write_from<T: Copy>(new: &[T], at: usize, room: &mut [T])
    requires { at ≤ length room.old }
    ensures { room.new ≡ hosted.over_from at new.now room.old }
{
    let (_, rest) = room.split_at_mut(at);
    write_over(new, rest);
}

/// Writes a text, as far as there is room for it, with a zero at its end, and returns how many bytes all of it has.
pub fn write_text(text: &[u8], room: &mut [u8]) -> usize
    ensures length { result ≡ length text.now }
    ensures text { room.new ≡ hosted.ended text.now room.old }
{
    let count = room.len().saturating_sub(1).min(text.len());
    write_over(&text[..count], room);
    if count < room.len() {
        room[count] = 0;
    }
    text.len()
}
