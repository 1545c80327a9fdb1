//! Whether two sets of states share one: two ascending lists, gone down together.
ghost use Rattle.std.specs.Prelude.{◌<◌, ◌↔◌, IsTrue};
ghost use Rattle.span_core.specs.Lists.{IsInOrder};
ghost use Rattle.segment_filter.specs.Sets.{HaveShared};

/// Whether two ascending lists share a number that is at most `most`. It takes time linear in both.
pub(crate) fn share(a: &[u32], b: &[u32], most: u32) -> bool
    requires a { IsInOrder ◌<◌ a.now }
    requires b { IsInOrder ◌<◌ b.now }
    ensures { IsTrue result ↔ HaveShared most a.now b.now }
{
    let mut i = 0;
    let mut j = 0;
    while i < a.len() && j < b.len() {
        let left = a[i];
        let right = b[j];
        if left < right {
            i += 1;
        } else if right < left {
            j += 1;
        } else {
            return left <= most;
        }
    }
    false
}
