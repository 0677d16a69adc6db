//! What a buffer lets go is written over with zeros first.

ghost use Rattle.std.specs.Prelude.{◌≡◌, ◌≤◌, ◌-◌, [], length, take, drop, replicate, vec_capacity};

// Takes bytes off the end of a buffer, where zeros stand alone.
fn take_off(buffer: &mut Vec<u8>, left: usize)
    requires { drop left buffer.old.items ≡ replicate (length buffer.old.items - left) 0 }
    ensures items { buffer.new.items ≡ take left buffer.old.items }
    ensures capacity { vec_capacity buffer.new ≡ vec_capacity buffer.old }
{
    buffer.truncate(left);
}

/// Shortens a buffer, which keeps its memory. Zeros stand where the bytes were that go. The cost is that of these.
pub(crate) fn shorten(buffer: &mut Vec<u8>, left: usize)
    requires { left ≤ length buffer.old.items }
    ensures items { buffer.new.items ≡ take left buffer.old.items }
    ensures capacity { vec_capacity buffer.new ≡ vec_capacity buffer.old }
{
    buffer.as_mut_slice()[left..].fill(0);
    take_off(buffer, left);
}

// Gives the memory of a buffer back, all of whose bytes went.
fn free(buffer: Vec<u8>)
    requires { buffer.items ≡ [] }
{
    drop(buffer);
}

/// Gives the memory of a buffer back. Zeros stand where its bytes were.
pub(crate) fn give_back(buffer: Vec<u8>) {
    let mut buffer = buffer;
    shorten(&mut buffer, 0);
    free(buffer);
}
