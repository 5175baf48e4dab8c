// The record that a disk in memory keeps of its calls.
ghost use Rattle.std.specs.Prelude.{◌≡◌, OnOk, OnErr};
ghost use Rattle.disk_model.specs.Calls.{overwritten};
ghost use Rattle.disk_model.specs.CallsMade.{bytes_after};

use std::alloc::AllocError;

/// A call that was made.
#[derive(Debug, Drop)]
pub(crate) enum Call {
    Write(u64, Vec<u8>),
    Cut(u64),
    Sync,
}

impl Call {
    /// Makes the call on these bytes. A refused growth leaves them as they were.
    pub(crate) fn redo(&self, content: &mut Vec<u8>) -> Result<(), AllocError>
        ensures ok { OnOk result (content.new.items ≡ bytes_after self.now content.old.items) }
        ensures err { OnErr result (content.new.items ≡ content.old.items) }
    {
        match self {
            Call::Write(at, bytes) => overwrite(content, *at as usize, bytes)?,
            Call::Cut(len) => content.truncate(*len as usize),
            Call::Sync => {}
        }
        Ok(())
    }
}

/// Writes over what is there, and past the end. A refused growth leaves the bytes as they were.
pub(crate) fn overwrite(target: &mut Vec<u8>, at: usize, bytes: &[u8]) -> Result<(), AllocError>
    ensures ok { OnOk result (target.new.items ≡ overwritten target.old.items at bytes.now) }
    ensures err { OnErr result (target.new.items ≡ target.old.items) }
{
    let at = at.min(target.len());
    let kept = target.len() - at;
    if bytes.len() <= kept {
        target[at..at + bytes.len()].copy_from_slice(bytes);
    } else {
        target.extend_from_slice(&bytes[kept..])?;
        target[at..at + kept].copy_from_slice(&bytes[..kept]);
    }
    Ok(())
}
