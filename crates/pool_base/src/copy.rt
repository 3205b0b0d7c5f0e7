//! Reading bytes that stand in memory.
ghost use Rattle.std.specs.Prelude.{◌≡◌, ◌<◌, ◌≤◌, take, drop, length, option_map};
ghost use Rattle.pool_base.specs.Outside.{GaveAt, GaveSurely, content, content_at};

use crate::list::List;
use crate::outside::Got;
use crate::text::Text;

/// Copies as many bytes as there are and fit.
pub(crate) fn copy_front(from: &[u8], into: &mut [u8]) -> usize
    ensures len { length into.new ≡ length into.old }
    ensures within { (result ≤ length into.old) × (result ≤ length from.now) }
    ensures some { 0 < length into.old → 0 < length from.now → 1 ≤ result }
    ensures bytes { take result into.new ≡ take result from.now }
{
    let count = from.len().min(into.len());
    into[..count].copy_from_slice(&from[..count]);
    count
}

/// Reads a content at a place.
pub(crate) fn read_at(from: &[u8], place: u64, into: &mut [u8]) -> Got
    requires { 0 < length into.old }
    ensures len { length into.new ≡ length into.old }
    ensures gives { GaveAt result place into.new (content from.now) }
    ensures sure { GaveSurely result }
{
    if place >= from.len() as u64 {
        return Got::End;
    }
    let rest = from.split_at(place as usize).1;
    Got::Bytes(copy_front(rest, into))
}

/// The content that stands beside a name.
pub(crate) fn content_of<'a>(
    names: &[Text],
    contents: &'a [List<u8>],
    name: &str,
) -> Option<&'a [u8]>
    ensures { option_map (λ bytes. bytes.now) result ≡ content_at names.now contents.now name.now }
{
    let [other, names @ ..] = names else {
        return None;
    };
    let [bytes, contents @ ..] = contents else {
        return None;
    };
    if other.as_str() == name {
        return Some(bytes.as_slice());
    }
    content_of(names, contents, name)
}
