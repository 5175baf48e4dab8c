// The bytes that are still to be sent.
ghost use Rattle.std.specs.Prelude.{◌≡◌, ◌≤◌, length, drop};

use bytes::BytesMut;

// An empty buffer of more room than this is given back.
const KEPT_ROOM: usize = 65_536;

// Lets go of the bytes at the front, which were sent.
pub(crate) fn drop_sent(output: &mut BytesMut, sent: usize)
    requires { sent ≤ length output.old.items }
    ensures { output.new.items ≡ drop sent output.old.items }
{
    if sent == output.len() && output.capacity() > KEPT_ROOM {
        let alloc = *output.allocator();
        *output = BytesMut::new(alloc);
    } else {
        output.advance(sent);
    }
}
