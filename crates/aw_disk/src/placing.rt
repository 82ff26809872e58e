ghost use Rattle.std.specs.Prelude.{◌≡◌, ◌+◌, ◌≤◌, ◌-◌, length, min, take, drop, vec_len, vec_capacity};
ghost use Rattle.aw_disk.specs.Calls.{Reads};
ghost use Rattle.aw_disk.specs.Images.{overwritten};

/// Puts bytes over those from a place on, and past the end, for which there is memory already.
pub fn overwrite(bytes: &mut Vec<u8>, place: usize, with: &[u8])
    requires inside { place ≤ vec_len bytes.old }
    requires room { place + length with.now ≤ vec_capacity bytes.old }
    ensures bytes { bytes.new.items ≡ overwritten bytes.old.items place with.now }
    ensures capacity { vec_capacity bytes.old ≤ vec_capacity bytes.new }
{
    let inside = with.len().min(bytes.len() - place);
    bytes[place..place + inside].copy_from_slice(&with[..inside]);
    bytes.extend_from_slice(&with[inside..]).unwrap();
}

/// Copies the bytes from an offset on to the front of `into`, as many as there are and fit, and says
/// how many.
pub fn read_from(bytes: &[u8], offset: u64, into: &mut [u8]) -> usize
    ensures { Reads result offset bytes.now into.new }
{
    let start = bytes.len().min(offset as usize);
    let from = &bytes[start..];
    let count = from.len().min(into.len());
    into[..count].copy_from_slice(&from[..count]);
    count
}
