//! Copies of short lists that take no memory: `clone` would have to say that it can fail.

ghost use Rattle.std.specs.Prelude.{◌≡◌};

use arrayvec::ArrayVec;

/// The same items once more.
pub fn copy_of<T: Copy + Default, const N: usize>(items: &ArrayVec<T, N>) -> ArrayVec<T, N>
    ensures { result.items ≡ items.now.items }
{
    let mut copy = ArrayVec::new();
    // This can't fail: the copy has the room of the list.
    let _fits = copy.try_extend_from_slice(items.as_slice());
    copy
}
