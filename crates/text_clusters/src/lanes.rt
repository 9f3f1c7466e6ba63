//! Blocks of bytes that one comparison tests.
ghost use Rattle.std.specs.Prelude.{◌≡◌, ◌≤◌, length, drop};
ghost use Rattle.text_clusters.specs.Lanes.{first_set};

/// How many bytes the largest block has.
pub(crate) const LANES: usize = 16;

/// The position of the lowest set bit of `mask`, or `lanes` where `mask` is 0.
#[inline(always)]
pub(crate) fn first_set(mask: u64, lanes: usize) -> usize
    ensures { result ≡ first_set mask lanes }
{
    if mask == 0 {
        lanes
    } else {
        mask.trailing_zeros() as usize
    }
}

/// The rest after `count` bytes.
#[inline(always)]
pub(crate) fn after(bytes: &[u8], count: usize) -> &[u8]
    requires { count ≤ length bytes.now }
    ensures { result.now ≡ drop count bytes.now }
{
    &bytes[count..]
}
