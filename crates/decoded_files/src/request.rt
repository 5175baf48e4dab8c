// The requests' frames.
ghost use Rattle.std.specs.Prelude.{◌≡◌, ◌≢◌, IfOk, IfErr};
ghost use Rattle.decoded_files.specs.Frames.{open_request, read_request};

use crate::DecoderError;
use std::alloc::Global;

/// How many bytes the path in a request may have.
const MAX_PATH: usize = 4_199;

/// The kinds of requests.
const OPEN: u8 = 1;

const READ: u8 = 2;

/// The request to open the file at a path.
pub(crate) fn open_request(alloc: Global, path: &str) -> Result<Vec<u8>, DecoderError>
    ensures request { IfOk result (λ request. request.items ≡ open_request path.now) }
    ensures only { IfErr result (λ error. error ≢ DecoderError.NoSong) }
{
    if path.len() > MAX_PATH {
        return Err(DecoderError::LongPath);
    }
    let mut request = Vec::with_capacity(alloc, 5 + path.len())?;
    request.extend_from_slice(&(1 + path.len() as u32).to_le_bytes())?;
    request.push(OPEN)?;
    request.extend_from_slice(path.as_bytes())?;
    Ok(request)
}

/// The request of so many bytes from an offset on.
pub(crate) fn read_request(at: u64, count: u32) -> [u8; 17]
    ensures { result ≡ read_request at count }
{
    let [a, b, c, d, e, f, g, h] = at.to_le_bytes();
    let [i, j, k, l] = count.to_le_bytes();
    [13, 0, 0, 0, READ, a, b, c, d, e, f, g, h, i, j, k, l]
}
