// Numbers and texts, appended to room that was taken before.
ghost use Rattle.std.specs.Prelude.{◌≡◌, ◌≤◌, length};
ghost use Rattle.state_codec.specs.Appended.{HasRoom, Appends};
ghost use Rattle.state_codec.specs.SpellingFields.{byte_bytes, u32_bytes, u64_bytes, pair_bytes, text_bytes};

pub(crate) fn put_bytes(out: &mut Vec<u8>, bytes: &[u8])
    requires { HasRoom out.old (length bytes.now) }
    ensures { Appends out.old out.new bytes.now }
{
    for &byte in bytes {
        out.push_reserved(byte);
    }
}

pub(crate) fn put_byte(out: &mut Vec<u8>, byte: u8)
    requires { HasRoom out.old 1 }
    ensures { Appends out.old out.new (byte_bytes byte) }
{
    out.push_reserved(byte);
}

pub(crate) fn put_u32(out: &mut Vec<u8>, number: u32)
    requires { HasRoom out.old 4 }
    ensures { Appends out.old out.new (u32_bytes number) }
{
    put_bytes(out, &number.to_le_bytes());
}

pub(crate) fn put_u64(out: &mut Vec<u8>, number: u64)
    requires { HasRoom out.old 8 }
    ensures { Appends out.old out.new (u64_bytes number) }
{
    put_bytes(out, &number.to_le_bytes());
}

pub(crate) fn put_pair(out: &mut Vec<u8>, one: u32, other: u32)
    requires { HasRoom out.old 8 }
    ensures { Appends out.old out.new (pair_bytes (one, other)) }
{
    put_u32(out, one);
    put_u32(out, other);
}

// How many bytes a text takes.
pub(crate) fn text_len(text: &str) -> usize
    requires { length text.now ≤ 65535 }
    ensures { result ≡ length (text_bytes text.now) }
{
    2 + text.len()
}

pub(crate) fn put_text(out: &mut Vec<u8>, text: &str)
    requires short { length text.now ≤ 65535 }
    requires room { HasRoom out.old (length (text_bytes text.now)) }
    ensures { Appends out.old out.new (text_bytes text.now) }
{
    put_bytes(out, &(text.len() as u16).to_le_bytes());
    put_bytes(out, text.as_bytes());
}
