//! Where the items of a list cease to pass a test.

ghost use Rattle.std.specs.Prelude.{◌≡◌, ◌≤◌, ◌<◌, Bool, true, false, length, get_or};
ghost use Rattle.std.specs.Fn.{ComputesKey};
ghost use Rattle.std.specs.List.Sorted.{IsPartitionPoint, IsPartitionedBy};

use crate::paged_list::PagedList;

// The item at a place that has one.
fn item_at<T>(list: &PagedList<T>, place: usize) -> &T
    requires { place < length list.now }
    ensures { result.now ≡ get_or list.now place result.now }
{
    match list.get(place) {
        Some(item) => item,
        None => unreachable!(),
    }
}

impl<T> PagedList<T> {
    /// How many items pass a test that none passes after one that does not. It halves the list, with one call of the test each time.
    pub fn partition_point<P: FnMut(&T) -> bool>(&self, mut pred: P) -> usize
        requires { P.IsAlwaysCallable pred }
        ensures bound { result ≤ length self.now }
        ensures partitioned { (p : T → Bool) → ComputesKey P.FnMut p pred
            → IsPartitionedBy p self.now
            → IsPartitionPoint (λ y. p y ≡ true) (λ y. p y ≡ false) self.now result }
    {
        let mut size = self.len();
        if size == 0 {
            return 0;
        }
        let mut base = 0;
        while size > 1 {
            let half = size / 2;
            let middle = base + half;
            if pred(item_at(self, middle)) {
                base = middle;
                size -= half;
            } else {
                size -= half;
            }
        }
        if pred(item_at(self, base)) {
            base + 1
        } else {
            base
        }
    }
}
